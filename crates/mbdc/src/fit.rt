//! The command `fit`: the meters of a list, added to the register of an image in a file.

ghost use Rattle.std.specs.Prelude.{◌≡◌, ◌⊎◌, IfOk, IfSome};
ghost use Rattle.mbdc.specs.Commands.{Fitted, IsDone, Refuses};

use crate::journal::Noting;
use crate::system::System;
use dc_meters::House;
use dc_sectors::Disk;
use mbdc_commands::fit_over;
use mbdc_ending::{Ending, ProgramFault};
use mbdc_files::{Host, Output};
use mbdc_fit::list::{Wish, read_list};
use mbdc_io::{CHUNK, MOST, NoMemory, Source, read_input, room};
use mbdc_log::Greatest;
use mbdc_looks::register_of;
use std::alloc::Global;
use std::fs::File;
use std::io;
use std::rt::{Clock, Files};

/// Adds the meters of the list in that file to the image in that file.
pub fn fit_on_image<'a, R, S>(
    host: &Host<'_, R>,
    system: &S,
    image: &'a str,
    list: &'a str,
) -> Ending<'a>
where
    R: Files<File = File> + Clock + Print + Eprint + AllocGlobal,
    S: System<'a>,
    ensures { Refuses result ⊎ Fitted S.Image.Disk (S.held system.now image.now) (S.opened system.now list.now)
        S.Lines.left result }
{
    let mut rows = match system.lines(list, false) {
        Ok(rows) => rows,
        Err(ending) => return ending,
    };
    let mut disk = match system.image(image) {
        Ok(disk) => disk,
        Err(ending) => return ending,
    };
    let rows = match read_whole(host.rt.alloc(), &mut rows) {
        Ok(rows) => rows,
        Err(fault) => return host.why.ended(Err(fault), list),
    };
    // The register of an image that doesn't open is missing, and the image is refused next.
    let house = match register_of(host.rt.alloc(), &mut disk, &Greatest::NONE) {
        Ok((house, _)) => Some(house),
        Err(_) => None,
    };
    let list = match read_list(host.rt.alloc(), rows.as_slice(), house.as_ref()) {
        Ok(list) => list,
        Err(NoMemory) => return Ending::Memory,
    };
    wished(host, disk, image, house, &Wish::List(&list))
}

/// Does what is asked on the image with this register, and puts the commands that were done into its journal.
pub fn wished<'a, D, R>(
    host: &Host<'_, R>,
    disk: D,
    image: &str,
    house: Option<House<Global>>,
    wish: &Wish<'_>,
) -> Ending<'a>
where
    D: Disk + Drop,
    R: Files<File = File> + Clock + Print + Eprint + AllocGlobal,
    ensures { IsDone D.Disk wish.now disk result }
{
    let out = Output::new(io::writer(host.rt), host, false);
    let mut notes = Noting::new(host, image, house);
    // The image has its own register in memory.
    notes.house = None;
    let (_disk, ending) = fit_over(host.rt.alloc(), disk, wish, out, &mut notes);
    ending
}

/// The whole of an input, of at most 1 MiB.
pub fn read_whole<S: Source>(alloc: Global, input: &mut S) -> Result<Vec<u8>, ProgramFault>
    ensures { IfOk result (λ whole. IfSome (S.left input.old) (λ text. whole.items ≡ text)) }
{
    let mut chunk = room(alloc, CHUNK)?;
    let whole = read_input(alloc, input, chunk.as_mut_slice())?;
    if whole.len() > MOST {
        return Err(ProgramFault::TooLong);
    }
    Ok(whole)
}
