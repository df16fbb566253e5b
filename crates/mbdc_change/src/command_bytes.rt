//! The bytes of the billing office's commands, written and read.

ghost use Rattle.std.specs.Prelude.{OnOk, OnErr};
ghost use Rattle.mbdc_io.specs.Written.{IsWritten, IsStopped};
ghost use Rattle.mbdc_change.specs.Command.{command_bytes, fit_at, move_at, out_at, confirm_at};
ghost use Rattle.mbdc_change.specs.Command.{swap_at, command_at};
ghost use Rattle.mbdc_change.specs.Pieces.{Reads};
ghost use Rattle.mbdc_change.specs.declared.change.Change.{Change};

use crate::encoding::address_number;
use crate::pieces::{
    address_of, byte_at, counted_at, flat_of, identity_at, line_at, number_at, serial_at,
};
use crate::writing::{put_byte, put_counted, put_identity, put_long};
use crate::{Change, Command, DecodeFault, Flat};
use dc_address::{Identity, Primary};
use mbdc_io::{IoFault, Sink};

/// Writes a command: its tag, its number, and its arguments.
pub(crate) fn encode_command<S: Sink>(
    number: u64,
    command: &Command,
    sink: &mut S,
) -> Result<(), IoFault>
    ensures ok { OnOk result (IsWritten S.Sink sink.old sink.new
        (command_bytes number command.now)) }
    ensures err { OnErr result (IsStopped S.Sink sink.old sink.new
        (command_bytes number command.now)) }
{
    match *command {
        Command::Fit {
            meter,
            line,
            address,
            flat,
        } => encode_fit(number, &meter, line, address, &flat, sink),
        Command::Move { meter, flat } => encode_move(number, &meter, &flat, sink),
        Command::Out { meter } => encode_out(number, &meter, sink),
        Command::Confirm { serial } => encode_confirm(number, serial, sink),
        Command::Swap { old, new, address } => encode_swap(number, &old, &new, address, sink),
    }
}

fn encode_fit<S: Sink>(
    number: u64,
    meter: &Identity,
    line: u8,
    address: Option<Primary>,
    flat: &Flat,
    sink: &mut S,
) -> Result<(), IoFault>
    ensures ok { OnOk result (IsWritten S.Sink sink.old sink.new
        (command_bytes number (Command.Fit meter.now line address flat.now))) }
    ensures err { OnErr result (IsStopped S.Sink sink.old sink.new
        (command_bytes number (Command.Fit meter.now line address flat.now))) }
{
    put_byte(sink, 2)?;
    put_long(sink, number)?;
    put_identity(sink, meter)?;
    put_byte(sink, line)?;
    put_byte(sink, address_number(address))?;
    put_counted(sink, flat.as_slice())?;
    Ok(())
}

fn encode_move<S: Sink>(
    number: u64,
    meter: &Identity,
    flat: &Flat,
    sink: &mut S,
) -> Result<(), IoFault>
    ensures ok { OnOk result (IsWritten S.Sink sink.old sink.new
        (command_bytes number (Command.Move meter.now flat.now))) }
    ensures err { OnErr result (IsStopped S.Sink sink.old sink.new
        (command_bytes number (Command.Move meter.now flat.now))) }
{
    put_byte(sink, 3)?;
    put_long(sink, number)?;
    put_identity(sink, meter)?;
    put_counted(sink, flat.as_slice())?;
    Ok(())
}

fn encode_out<S: Sink>(number: u64, meter: &Identity, sink: &mut S) -> Result<(), IoFault>
    ensures ok { OnOk result (IsWritten S.Sink sink.old sink.new
        (command_bytes number (Command.Out meter.now))) }
    ensures err { OnErr result (IsStopped S.Sink sink.old sink.new
        (command_bytes number (Command.Out meter.now))) }
{
    put_byte(sink, 4)?;
    put_long(sink, number)?;
    put_identity(sink, meter)?;
    Ok(())
}

fn encode_confirm<S: Sink>(number: u64, serial: u64, sink: &mut S) -> Result<(), IoFault>
    ensures ok { OnOk result (IsWritten S.Sink sink.old sink.new
        (command_bytes number (Command.Confirm serial))) }
    ensures err { OnErr result (IsStopped S.Sink sink.old sink.new
        (command_bytes number (Command.Confirm serial))) }
{
    put_byte(sink, 5)?;
    put_long(sink, number)?;
    put_long(sink, serial)?;
    Ok(())
}

fn encode_swap<S: Sink>(
    number: u64,
    old: &Identity,
    new: &Identity,
    address: Option<Primary>,
    sink: &mut S,
) -> Result<(), IoFault>
    ensures ok { OnOk result (IsWritten S.Sink sink.old sink.new
        (command_bytes number (Command.Swap old.now new.now address))) }
    ensures err { OnErr result (IsStopped S.Sink sink.old sink.new
        (command_bytes number (Command.Swap old.now new.now address))) }
{
    put_byte(sink, 6)?;
    put_long(sink, number)?;
    put_identity(sink, old)?;
    put_identity(sink, new)?;
    put_byte(sink, address_number(address))?;
    Ok(())
}

/// Decodes the command of a tag, after its tag; no other tag has one.
pub(crate) fn command_at(tag: u8, bytes: &[u8]) -> Result<(Change<'_>, &[u8]), DecodeFault>
    ensures { Reads (λ x. (x.0, x.1.now)) result (command_at tag bytes.now) }
{
    match tag {
        2 => fit_at(bytes),
        3 => move_at(bytes),
        4 => out_at(bytes),
        5 => confirm_at(bytes),
        6 => swap_at(bytes),
        _ => Err(DecodeFault::Bad),
    }
}

#[tactic(auto, unfolding(crate::specs::Command::fit_at, crate::specs::Pieces::address_at, crate::specs::Pieces::flat_at))]
fn fit_at(bytes: &[u8]) -> Result<(Change<'_>, &[u8]), DecodeFault>
    ensures { Reads (λ x. (x.0, x.1.now)) result (fit_at bytes.now) }
{
    let (number, rest) = number_at(bytes)?;
    let (meter, rest) = identity_at(rest)?;
    let (line, rest) = line_at(rest)?;
    let (address, rest) = byte_at(rest)?;
    let address = address_of(address)?;
    let (name, rest) = counted_at(rest)?;
    let flat = flat_of(name)?;
    let command = Command::Fit {
        meter,
        line,
        address,
        flat,
    };
    Ok((Change::Command { number, command }, rest))
}

#[tactic(auto, unfolding(crate::specs::Command::move_at, crate::specs::Pieces::flat_at))]
fn move_at(bytes: &[u8]) -> Result<(Change<'_>, &[u8]), DecodeFault>
    ensures { Reads (λ x. (x.0, x.1.now)) result (move_at bytes.now) }
{
    let (number, rest) = number_at(bytes)?;
    let (meter, rest) = identity_at(rest)?;
    let (name, rest) = counted_at(rest)?;
    let flat = flat_of(name)?;
    let command = Command::Move { meter, flat };
    Ok((Change::Command { number, command }, rest))
}

#[tactic(auto, unfolding(crate::specs::Command::out_at))]
fn out_at(bytes: &[u8]) -> Result<(Change<'_>, &[u8]), DecodeFault>
    ensures { Reads (λ x. (x.0, x.1.now)) result (out_at bytes.now) }
{
    let (number, rest) = number_at(bytes)?;
    let (meter, rest) = identity_at(rest)?;
    let command = Command::Out { meter };
    Ok((Change::Command { number, command }, rest))
}

#[tactic(auto, unfolding(crate::specs::Command::confirm_at))]
fn confirm_at(bytes: &[u8]) -> Result<(Change<'_>, &[u8]), DecodeFault>
    ensures { Reads (λ x. (x.0, x.1.now)) result (confirm_at bytes.now) }
{
    let (number, rest) = number_at(bytes)?;
    let (serial, rest) = serial_at(rest)?;
    let command = Command::Confirm { serial };
    Ok((Change::Command { number, command }, rest))
}

#[tactic(auto, unfolding(crate::specs::Command::swap_at, crate::specs::Pieces::address_at))]
fn swap_at(bytes: &[u8]) -> Result<(Change<'_>, &[u8]), DecodeFault>
    ensures { Reads (λ x. (x.0, x.1.now)) result (swap_at bytes.now) }
{
    let (number, rest) = number_at(bytes)?;
    let (old, rest) = identity_at(rest)?;
    let (new, rest) = identity_at(rest)?;
    let (address, rest) = byte_at(rest)?;
    let address = address_of(address)?;
    let command = Command::Swap { old, new, address };
    Ok((Change::Command { number, command }, rest))
}
