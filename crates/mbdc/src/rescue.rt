//! The command `rescue`: what is left of an image, in a new one.

ghost use Rattle.std.specs.Prelude.{◌≡◌};
ghost use Rattle.mbdc.specs.Tasks.{Rescues};

use mbdc_commands::{put_rescued, rescue_to};
use mbdc_ending::{Ending, STREAM, ending_of};
use mbdc_files::{Host, Output, Shelf};
use mbdc_io::{Sink, WriteSink};
use mbdc_json::journal::Journal;
use mbdc_looks::{Asked, answer, scan};
use std::fs::File;
use std::io;
use std::rt::Files;

/// Writes what the image reads as, or what is left of it, to a new image in that file, and prints what was rescued and
/// what the new image holds.
pub fn rescue_image<'a, R, S: Shelf>(
    host: &Host<'_, R>,
    shelf: &S,
    image: &'a str,
    file: &'a str,
) -> Ending<'a>
where
    R: Files<File = File> + Print + AllocGlobal,
    // At status 0 each image that a crash may leave of the new disk stands for the state that was rescued.
    ensures { result ≡ Ending.Clean → Rescues S.Old.Disk S.New.Disk (S.copied shelf.now image.now)
        (S.named shelf.now file.now) }
{
    let alloc = host.rt.alloc();
    let (rescued, mut new) = match rescue_to(alloc, shelf, image, file) {
        Ok(rescued) => rescued,
        Err(ending) => return ending,
    };
    let none = Journal::none(alloc);
    let shown = match scan(&mut new) {
        Ok(greatest) => answer(alloc, &mut new, &greatest, Asked::Contents, &none),
        Err(fault) => Err(fault),
    };
    let shown = match shown {
        Ok(shown) => shown,
        Err(fault) => return ending_of(Err(fault), STREAM),
    };
    let mut out = WriteSink::new(Output::new(io::writer(host.rt), host, false));
    if put_rescued(&rescued, &mut out).is_err()
        || out.put(shown.text.as_slice()).is_err()
        || out.flush().is_err()
    {
        return Ending::File(STREAM);
    }
    Ending::Clean
}
