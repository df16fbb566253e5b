//! The three letters of a manufacturer's code.

ghost use Rattle.std.specs.Prelude.{◌≡◌, ◌∷◌, [], IfSome, is_some};
ghost use Rattle.std.specs.List.{list_all};
ghost use Rattle.dc_address.specs.Maker.{IsMaker, first_letter, is_letter, is_maker, maker_code};
ghost use Rattle.dc_address.specs.Maker.{second_letter, third_letter};

/// The three letters of a manufacturer's code, in ASCII.
pub fn letters_of(maker: u16) -> [u8; 3]
    requires { IsMaker maker }
    ensures { result ≡ first_letter maker ∷ second_letter maker ∷ third_letter maker ∷ [] }
{
    [
        64 + (maker / 1024) as u8,
        64 + (maker / 32 % 32) as u8,
        64 + (maker % 32) as u8,
    ]
}

fn is_letter(code: u8) -> bool
    ensures { result ≡ is_letter code }
{
    code.is_ascii_uppercase()
}

/// Whether a code is one of three letters.
pub fn is_maker(maker: u16) -> bool
    ensures { result ≡ is_maker maker }
{
    let is_place = |place: u16| (1..=26).contains(&place);
    is_place(maker / 1024) && is_place(maker / 32 % 32) && is_place(maker % 32)
}

/// The code of three letters in ASCII; none where a byte isn't A to Z.
pub fn maker_of(first: u8, second: u8, third: u8) -> Option<u16>
    ensures letters { is_some result ≡ list_all is_letter (first ∷ second ∷ third ∷ []) }
    ensures code { IfSome result (λ maker. maker ≡ maker_code first second third) }
{
    if is_letter(first) && is_letter(second) && is_letter(third) {
        let place = |letter: u8| u16::from(letter - 64);
        Some(place(first) * 1024 + place(second) * 32 + place(third))
    } else {
        None
    }
}
