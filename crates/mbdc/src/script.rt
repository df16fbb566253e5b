//! The command `run`: a script over an image in a file.

ghost use Rattle.std.specs.Prelude.{◌⊎◌};
ghost use Rattle.mbdc.specs.Commands.{Refuses, RunsLines, Scripted};

use crate::connecting::{Linking, released};
use crate::fit::read_whole;
use crate::journal::Noting;
use crate::system::System;
use dc_sectors::Disk;
use mbdc_bus::Both;
use mbdc_commands::run_over;
use mbdc_commands::words::RunTask;
use mbdc_ending::Ending;
use mbdc_files::{Host, Output};
use mbdc_io::Source;
use mbdc_log::Greatest;
use mbdc_looks::register_of;
use mbdc_raw::links::{Peer, Waiter};
use std::fs::File;
use std::io;
use std::net::{Net, TcpStream};
use std::rt::{Clock, Files};

/// Runs the script over the image, from file to file, over the gateway.
pub fn run_on_image<'a, R, S>(host: &Host<'_, R>, system: &S, task: &RunTask<'a>) -> Ending<'a>
where
    R: Files<File = File> + Net<Stream = TcpStream> + Clock + Copy + Print + Eprint + AllocGlobal,
    S: System<'a>,
    ensures { Refuses result ⊎ Scripted S.Image.Disk (S.held system.now task.now.image.now)
        (S.opened system.now task.now.script.now) S.Lines.left task.now.script.now result }
{
    let disk = match system.image(task.image) {
        Ok(disk) => disk,
        Err(ending) => return ending,
    };
    let mut lines = match system.lines(task.script, false) {
        Ok(lines) => lines,
        Err(ending) => return ending,
    };
    let peers = match host.connected(&[task.gateway]) {
        Ok(peers) => peers,
        Err(ending) => return ending,
    };
    let ending = run_over_peers(host, disk, &mut lines, peers.as_slice(), task);
    released(host, peers.as_slice());
    ending
}

// Runs the lines of an input over a disk, with a connected gateway. They are read before the image is looked at.
fn run_over_peers<'a, I, D, R>(
    host: &Host<'_, R>,
    disk: D,
    lines: &mut I,
    peers: &[Option<Peer<R>>],
    task: &RunTask<'a>,
) -> Ending<'a>
where
    I: Source,
    D: Disk + Drop,
    R: Files<File = File> + Net<Stream = TcpStream> + Clock + Copy + Print + Eprint + AllocGlobal,
    ensures { Refuses result ⊎ RunsLines D.Disk disk (I.left lines.old) task.now.script.now result }
{
    let mut gateway = match peers {
        [Some(peer)] => match peer.bus(*host.rt, task.patience) {
            Ok(bus) => Some(Both { bus, pause: Waiter }),
            Err(error) => return host.why.link(None, error),
        },
        _ => None,
    };
    let lines = match read_whole(host.rt.alloc(), lines) {
        Ok(lines) => lines,
        Err(fault) => return host.why.ended(Err(fault), task.script),
    };
    let out = Output::new(io::writer(host.rt), host, false);
    let mut disk = disk;
    // The register of an image that doesn't open is missing, and the image is refused next.
    let house = register_of(host.rt.alloc(), &mut disk, &Greatest::NONE)
        .ok()
        .map(|read| read.0);
    let mut notes = Noting::new(host, task.image, house);
    // The image has its own register in memory.
    notes.house = None;
    let (_, ending) = run_over(
        host.rt.alloc(),
        host.why,
        disk,
        lines.as_slice(),
        out,
        &mut gateway,
        &mut notes,
        task.script,
    );
    ending
}
