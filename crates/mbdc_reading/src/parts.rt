//! The parts of a value information block.

ghost use Rattle.std.specs.Prelude.{◌≡◌, ◌≤◌, length, option_map, IfSome};
ghost use Rattle.mbdc_reading.specs.Parts.{label_len, label_of, vifes_of, maker_in, maker_of, told_of};

// How many characters a length byte before text announces.
fn label_len(byte: u8) -> u8
    ensures value { result ≡ label_len byte }
    ensures few { result ≤ 191 }
{
    if byte < 0xC0 { byte } else { byte % 16 }
}

/// The text of a unit in plain text (VIF 7C and FC), as it is sent.
pub fn label_of(vib: &[u8]) -> Option<&[u8]>
    ensures value { option_map (λ s. s.now) result ≡ label_of vib.now }
    ensures few { IfSome result (λ s. length s.now ≤ 191) }
{
    match vib {
        [0x7C | 0xFC, len, others @ ..] => {
            let (label, _) = others.split_at(usize::from(label_len(*len)).min(others.len()));
            Some(label)
        }
        _ => None,
    }
}

/// The VIFEs after the code: after FB, FD or EF and the byte that follows, after the text of a unit in plain text, else
/// after the VIF.
pub fn vifes_of(vib: &[u8]) -> &[u8]
    ensures { result.now ≡ vifes_of vib.now }
{
    match vib {
        [] => &[],
        [0xEF | 0xFB | 0xFD, _, others @ ..] => others,
        [0x7C | 0xFC, len, others @ ..] => {
            let (_, vifes) = others.split_at(usize::from(label_len(*len)).min(others.len()));
            vifes
        }
        [_, others @ ..] => others,
    }
}

// The bytes after a VIFE 7F or FF, which are the manufacturer's; `after_fc` says that an FC stands before the first.
fn maker_in(after_fc: bool, vifes: &[u8]) -> Option<&[u8]>
    ensures value { option_map (λ s. s.now) result ≡ maker_in after_fc vifes.now }
    ensures few { IfSome result (λ s. length s.now ≤ length vifes.now) }
{
    let [vife, others @ ..] = vifes else {
        return None;
    };
    if !after_fc && (*vife == 0x7F || *vife == 0xFF) {
        return Some(others);
    }
    maker_in(!after_fc && *vife == 0xFC, others)
}

/// The manufacturer's bytes of a block: those after VIF 7F or FF, else those after VIFE 7F or FF.
pub fn maker_of(vib: &[u8]) -> Option<&[u8]>
    ensures value { option_map (λ s. s.now) result ≡ maker_of vib.now }
    ensures few { IfSome result (λ s. length s.now ≤ length (vifes_of vib.now)) }
{
    let vifes = vifes_of(vib);
    match vib {
        [0x7F | 0xFF, ..] => Some(vifes),
        _ => maker_in(false, vifes),
    }
}

/// The VIFEs of a block that have names: those that aren't the manufacturer's.
pub fn told_of(vib: &[u8]) -> &[u8]
    ensures { result.now ≡ told_of vib.now }
{
    let vifes = vifes_of(vib);
    let others = match maker_of(vib) {
        Some(others) => others.len(),
        None => 0,
    };
    let (told, _) = vifes.split_at(vifes.len() - others);
    told
}
