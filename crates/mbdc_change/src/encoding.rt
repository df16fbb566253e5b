//! Encodes changes as bytes.

ghost use Rattle.std.specs.Prelude.{◌≡◌, ◌≤◌, length, OnOk, OnErr};
ghost use Rattle.mbdc_io.specs.Written.{IsWritten, IsStopped};
ghost use Rattle.mbdc_change.specs.Encoding.{change_bytes, telegram_bytes, part_bytes};
ghost use Rattle.mbdc_change.specs.Pieces.{address_byte};

use crate::command_bytes::encode_command;
use crate::writing::{put_byte, put_counted, put_long};
use crate::{Body, Change};
use dc_address::Primary;
use mbdc_io::{IoFault, Sink};

/// Writes a change: a tag and its fields, numbers little-endian. It stops at the first failed put.
pub fn encode_change<S: Sink>(change: &Change<'_>, sink: &mut S) -> Result<(), IoFault>
    ensures ok { OnOk result (IsWritten S.Sink sink.old sink.new
        (change_bytes change.now)) }
    ensures err { OnErr result (IsStopped S.Sink sink.old sink.new
        (change_bytes change.now)) }
{
    match change {
        Change::Telegram { part, moment, body } => encode_telegram(*part, *moment, body, sink),
        Change::Command { number, command } => encode_command(*number, command, sink),
    }
}

fn encode_telegram<S: Sink>(
    part: u8,
    moment: u64,
    body: &Body<'_>,
    sink: &mut S,
) -> Result<(), IoFault>
    ensures ok { OnOk result (IsWritten S.Sink sink.old sink.new
        (telegram_bytes part moment body.now.bytes)) }
    ensures err { OnErr result (IsStopped S.Sink sink.old sink.new
        (telegram_bytes part moment body.now.bytes)) }
{
    put_byte(sink, 1)?;
    put_byte(sink, part)?;
    put_part(sink, moment, body.as_slice())?;
    Ok(())
}

fn put_part<S: Sink>(sink: &mut S, moment: u64, body: &[u8]) -> Result<(), IoFault>
    requires { length body.now ≤ 255 }
    ensures ok { OnOk result (IsWritten S.Sink sink.old sink.new
        (part_bytes (record { moment = moment; body = body.now }))) }
    ensures err { OnErr result (IsStopped S.Sink sink.old sink.new
        (part_bytes (record { moment = moment; body = body.now }))) }
{
    put_long(sink, moment)?;
    put_counted(sink, body)?;
    Ok(())
}

/// The byte of a primary address: 0 for secondary addressing.
pub fn address_number(address: Option<Primary>) -> u8
    ensures { result ≡ address_byte address }
{
    match address {
        Some(address) => address.get(),
        None => 0,
    }
}
