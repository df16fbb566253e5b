//! The commands `swap`, `move` and `out`: one command on the register of an image in a file.

ghost use Rattle.std.specs.Prelude.{◌⊎◌, IfErr, IfOk};
ghost use Rattle.mbdc.specs.Commands.{IsAsked, Ordered, Refuses};

use crate::fit::wished;
use crate::names::{leaked, mistaken};
use crate::system::System;
use dc_meters::House;
use dc_meters::named::resolve;
use mbdc_commands::words::{OrderTask, Turn};
use mbdc_decode::tokens::{Piece, put_pieces};
use mbdc_ending::{Ending, ending_of};
use mbdc_files::Host;
use mbdc_fit::list::{Order, Wish};
use mbdc_io::{Bytes, IoFault, Sink, put_number};
use mbdc_log::Greatest;
use mbdc_looks::register_of;
use std::alloc::Global;
use std::fs::File;
use std::rt::{Clock, Files};
use std::str;

/// Does one command on the image in that file. A terminal first shows what will be done.
pub fn order_on_image<'a, R, S>(host: &Host<'_, R>, system: &S, task: &OrderTask<'a>) -> Ending<'a>
where
    R: Files<File = File> + Clock + Print + Eprint + AllocGlobal,
    S: System<'a>,
    ensures { Refuses result ⊎ Ordered S.Image.Disk (S.held system.now task.now.image.now) task.now result }
{
    let alloc = host.rt.alloc();
    let mut disk = match system.image(task.image) {
        Ok(disk) => disk,
        Err(ending) => return ending,
    };
    let house = match register_of(alloc, &mut disk, &Greatest::NONE) {
        // An image that is behind is refused next.
        Ok((house, _)) => house,
        Err(fault) => return ending_of(Err(fault), task.image),
    };
    let order = match order_of(alloc, &house, task) {
        Ok(order) => order,
        Err(ending) => return ending,
    };
    let mut foretold = Bytes::new(alloc);
    if host.is_watched
        && put_foretold(&mut foretold, &house, &order).is_ok()
        && let Ok(line) = str::from_utf8(foretold.as_slice())
    {
        let _ = host.rt.eprint(line);
    }
    wished(host, disk, task.image, Some(house), &Wish::One(order))
}

// The command that the words ask for. A meter that is replaced is in the flat that is named, if one is.
fn order_of<'a>(
    alloc: Global,
    house: &House<Global>,
    task: &OrderTask<'_>,
) -> Result<Order, Ending<'a>>
    ensures asked { IfOk result (λ order. IsAsked house.now.state task.now order) }
    ensures refused { IfErr result (λ ending. Refuses ending) }
{
    let meter = match resolve(alloc, house, task.meter) {
        Ok(meter) => meter,
        Err(fault) => return Err(mistaken(alloc, house, fault, "")),
    };
    match task.turn {
        Turn::Swap { new, address, flat } => {
            if let (Some(known), Some(flat)) = (house.meter(&meter), flat)
                && known.flat().as_slice() != flat.as_slice()
            {
                let (text, known) = (meter.text(), known.flat());
                let pieces = [
                    Piece::Text(b"--flat "),
                    Piece::Text(flat.as_slice()),
                    Piece::Text(b": "),
                    Piece::Text(&text),
                    Piece::Text(b" is in flat "),
                    Piece::Text(known.as_slice()),
                ];
                return Err(leaked(alloc, &pieces));
            }
            Ok(Order::Swap {
                old: meter,
                new,
                address,
            })
        }
        Turn::Move(flat) => Ok(Order::Move { meter, flat }),
        Turn::Out => Ok(Order::Out { meter }),
    }
}

// Writes what will be done. Of a meter that isn't registered nothing is said: the command is refused.
fn put_foretold<W: Sink>(out: &mut W, house: &House<Global>, order: &Order) -> Result<(), IoFault> {
    let meter = order.subject();
    let Some(known) = house.meter(&meter) else {
        return Ok(());
    };
    let (flat, text) = (known.flat(), meter.text());
    let row = [
        Piece::Text(b"line"),
        Piece::Word(u64::from(known.line())),
        Piece::Text(b", flat "),
        Piece::Text(flat.as_slice()),
        Piece::Text(b": "),
        Piece::Text(&text),
    ];
    put_pieces(out, &row)?;
    match order {
        Order::Swap { new, address, .. } => {
            out.put(b" is replaced by ")?;
            out.put(&new.text())?;
            out.put(b", address ")?;
            match address {
                Some(address) => put_number(out, u64::from(address.get()))?,
                None => out.put(b"S")?,
            }
        }
        Order::Move { flat, .. } => {
            out.put(b" moves to flat ")?;
            out.put(flat.as_slice())?;
        }
        Order::Out { .. } => out.put(b" is removed")?,
    }
    out.put(b"\n")
}
