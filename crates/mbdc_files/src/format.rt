//! The command `format`: an image in a file.

ghost use Rattle.std.specs.Prelude.{◌≡◌, ◌⊎◌};
ghost use Rattle.mbdc_files.specs.Formatted.{IsFormatted, IsUnmade};

use crate::shelf::Shelf;
use dc_recovery::Store;
use mbdc_ending::Ending;

/// Formats an image of that many sectors in the file of that name.
///
/// Where nothing has the name, the image is made in a file of its own, and gets the name once it is whole. A regular
/// file of exactly that many sectors that holds only zeros is formatted in place. No symbolic link is followed, and
/// no other file is touched.
pub fn format_image<'a, S: Shelf>(shelf: &S, name: &'a str, sectors: u32) -> Ending<'a>
    // At status 0 a file of that name was made of a disk that is formatted.
    ensures { IsUnmade result name.now ⊎ ((result ≡ Ending.Clean) × (made : S.New)
        × S.named shelf.now name.now made × IsFormatted S.New.Disk sectors made) }
{
    let (draft, new) = match shelf.begin(name, sectors, true) {
        Ok(begun) => begun,
        Err(ending) => return ending,
    };
    match Store::format(new) {
        Ok(made) => match shelf.end(draft, &made, name) {
            Ok(()) => Ending::Clean,
            Err(ending) => ending,
        },
        Err((fault, _)) => {
            shelf.give_up(draft);
            Ending::Format(fault)
        }
    }
}
