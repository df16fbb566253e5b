//! The meters that words name, in the register of an image.

ghost use Rattle.std.specs.Prelude.{IfErr, IfOk};
ghost use Rattle.dc_sectors.specs.Runs.{OnlyLooked};
ghost use Rattle.mbdc.specs.Commands.{AreNamed, Refuses};

use dc_address::Identity;
use dc_meters::House;
use dc_meters::named::{NameFault, Named, having, resolve_all};
use dc_sectors::Disk;
use mbdc_decode::tokens::{Piece, put_pieces};
use mbdc_ending::{Ending, ending_of};
use mbdc_files::Host;
use mbdc_io::{Bytes, Sink};
use mbdc_log::Greatest;
use mbdc_looks::register_of;
use std::alloc::Global;
use std::str;

// The option whose words name meters, as its mistakes begin.
const ONLY: &str = "--only ";

/// The meters that these names mean in the register of the image on that disk, which isn't written, and that register,
/// where it reads.
///
/// # Errors
/// The ending of the command: where a meter is named, the image doesn't open, or a number names no meter or several,
/// which the mistake lists.
pub fn meters_of<'a, R: AllocGlobal, D: Disk>(
    host: &Host<'_, R>,
    disk: &mut D,
    names: &[Named],
    image: &'a str,
) -> Result<(Vec<Identity>, Option<House<Global>>), Ending<'a>>
    ensures named { IfOk result (λ found. AreNamed D.Disk names.now disk.old disk.new found.1 found.0.items) }
    ensures looked { OnlyLooked D.Disk disk.old disk.new }
    ensures refused { IfErr result (λ ending. Refuses ending) }
{
    let alloc = host.rt.alloc();
    match register_of(alloc, disk, &Greatest::NONE) {
        // A poll refuses an image that is behind by itself.
        Ok((house, _)) => {
            match resolve_all(alloc, &house, names) {
                Ok(meters) => Ok((meters, Some(house))),
                Err(fault) => Err(mistaken(alloc, &house, fault, ONLY)),
            }
        }
        Err(_) if names.is_empty() => Ok((Vec::new(alloc), None)),
        Err(fault) => Err(ending_of(Err(fault), image)),
    }
}

/// The ending by a name that means no meter of a register, or several, which the mistake lists. The option that the
/// name is of stands before it.
pub fn mistaken<'a>(
    alloc: Global,
    house: &House<Global>,
    fault: NameFault,
    option: &str,
) -> Ending<'a>
    ensures { Refuses result }
{
    let (digits, several) = match fault {
        NameFault::NoMemory => return Ending::Memory,
        NameFault::Unknown(digits) => (digits, Ok(Vec::new(alloc))),
        NameFault::Several(digits) => (digits, having(alloc, house, &digits)),
    };
    let Ok(several) = several else {
        return Ending::Memory;
    };
    let mut said = Bytes::new(alloc);
    let begun = match several.len() as u64 {
        0 => said.put(b": no registered meter has this number"),
        count => put_pieces(
            &mut said,
            &[
                Piece::Text(b":"),
                Piece::Word(count),
                Piece::Text(b" meters have this number:"),
            ],
        ),
    };
    let mut before: &[u8] = b" ";
    for meter in &several {
        let text = meter.text();
        if put_pieces(&mut said, &[Piece::Text(before), Piece::Text(&text)]).is_err() {
            return Ending::Memory;
        }
        before = b", ";
    }
    if begun.is_err() {
        return Ending::Memory;
    }
    let pieces = [
        Piece::Text(option.as_bytes()),
        Piece::Text(&digits),
        Piece::Text(said.as_slice()),
    ];
    leaked(alloc, &pieces)
}

/// The ending by a mistake in the words. The text stays until the program ends, which it does next.
pub fn leaked<'a>(alloc: Global, mistake: &[Piece<'_>]) -> Ending<'a>
    ensures { Refuses result }
{
    let mut text = Bytes::new(alloc);
    if put_pieces(&mut text, mistake).is_err() {
        return Ending::Memory;
    }
    match Vec::from_slice(alloc, text.as_slice()) {
        Ok(text) => Ending::Words(str::from_utf8(text.leak()).unwrap_or_default()),
        Err(_) => Ending::Memory,
    }
}
