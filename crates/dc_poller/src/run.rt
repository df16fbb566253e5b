//! The engine of `run`: a script over an image, from a source's lines to a sink's text.

ghost use Rattle.std.specs.Prelude.{◌≡◌, ◌≢◌, ◌⊎◌, ◌≤◌, ◌<◌, ◌*◌, length, vec_len, IfSome};
ghost use Rattle.std.specs.Prelude.{IfOk, IfErr, OnOk, IsErrOf};
ghost use Rattle.mbdc_io.specs.Failures.{HasRisen};
ghost use Rattle.mbdc_io.specs.Stream.{IsAtEnd};
ghost use Rattle.mbdc_io.specs.Written.{PutsInto};
ghost use Rattle.mbdc_io.specs.Lines.{longest_input_line, most_input};
ghost use Rattle.mbdc_ending.specs.Fault.{IfOpen, IsOfReading};
ghost use Rattle.mbdc_ending.specs.Unopened.{IsUnopened, Stands};
ghost use Rattle.dc_poller.specs.Ended.{HasEnded};
ghost use Rattle.dc_poller.specs.ImageRun.{ImageCut, ImageRan};
ghost use Rattle.dc_poller.specs.Link.{link_at_first, link_of};
ghost use Rattle.dc_poller.specs.Starved.{ImageStarved, IsOfSearch};
ghost use Rattle.dc_poller.specs.Traffic.{AreCarried, OverGateway, gateway_over};

use crate::halt::Halt;
use crate::notes::CommandNotes;
use crate::script::run_lines;
use dc_core::Concentrator;
use dc_sectors::Disk;
use mbdc_bus::Bus;
use mbdc_bus::blocks::Gateway;
use mbdc_ending::ProgramFault;
use mbdc_io::{CHUNK, LONGEST, MOST, Sink, Source, read_input, room};
use std::alloc::Allocator;

/// Opens the image, executes the lines of the script left in the reader, and closes it. Changes
/// that are still pending at the end are dropped. Each event's answer is written as
/// [`Concentrator::run`] writes it. The first line that spells nothing ends the script with `LINE i
/// SYNTAX`; the result is whether there was one. The forms of the lines are those of
/// [`ScriptLine`](crate::ScriptLine).
///
/// Bus line 1 may have a bus, the gateway. `POLL 1` reads a meter over it: the bus
/// settles, each request goes out, its answer is received at the script's time, and each part that
/// is accepted is committed; these events' answers are written like any other's. If the gateway is lost,
/// `GATEWAY LOST` is written once, and it is silent from then on. On any other line, and without a gateway, `POLL`
/// writes `NO GATEWAY`.
///
/// `SEARCH` searches for meters over the gateway, with at most this many selections. The
/// pending changes are committed first; if that is refused, the refusal is written. If a request of
/// line 1 is pending, `REFUSED 3 Busy` is written, since a selection would restart that readout.
/// Otherwise it writes each meter found, each number of several meters, whether the budget was
/// spent, and the number of selections. A meter whose answer is lost isn't found. Without a gateway `SEARCH` writes `NO
/// GATEWAY`.
///
/// The whole script is read before the image is opened. The disk is returned in every case. Each command that is done
/// is noted once it is on the disk, whether its answer is written or not.
///
/// # Errors
/// [`ProgramFault::Read`], [`ProgramFault::TooLong`] over 1 MiB and [`ProgramFault::NoMemory`],
/// with disk and writer unchanged; [`ProgramFault::NoMemory`] also if a search runs out of memory:
/// the lines before it are done, the pending changes are committed, and of the search only the loss
/// of the bus is written; [`ProgramFault::Open`] if the image wasn't opened, with the writer
/// unchanged; [`ProgramFault::Write`] if the writer failed: the line at which it did is done, and
/// none after it.
pub fn run_script_over<
    D: Disk + Drop,
    A: Allocator + Copy,
    R: Source,
    W: Sink,
    B: Bus + Drop,
    N: CommandNotes,
>(
    alloc: A,
    disk: D,
    reader: &mut R,
    writer: &mut W,
    gateway: &mut Option<B>,
    notes: &mut N,
) -> (D, Result<bool, ProgramFault>)
    // Where each image of the disk stands for some state: the run is that of the script's lines, of which exactly the
    // text is written, and the image is left as that run leaves it. Over the gateway go the exchanges of the script's
    // lines, in their order, and nothing else; a lost one is untouched.
    ensures ran { Stands D.Disk disk → IfOk result.1 (λ faulty.
        ImageRan D.Disk (link_of B.lost gateway.old) (R.left reader.old) faulty
        (PutsInto W.Sink writer.old writer.new) (AreCarried B.lost B.asks gateway.old gateway.new) disk result.0) }
    ensures cut { Stands D.Disk disk → IsErrOf result.1 ProgramFault.Write → ImageCut D.Disk
        (link_of B.lost gateway.old) (R.left reader.old)
        (AreCarried B.lost B.asks gateway.old gateway.new) disk result.0 }
    // If memory runs out before the image is opened, or in a search, the image and the text are
    // those of the run up to it.
    ensures starved { Stands D.Disk disk → IsErrOf result.1 ProgramFault.NoMemory
        → ((result.0 ≡ disk) × (writer.new ≡ writer.old)) ⊎ ImageStarved D.Disk
        (link_of B.lost gateway.old) (R.left reader.old) (PutsInto W.Sink writer.old writer.new)
        (AreCarried B.lost B.asks gateway.old gateway.new) disk result.0 }

    // The disk, the reader and the writer are left so by the result.
    ensures ended { HasEnded D.Disk R.Source W.Sink disk result.0 reader.old reader.new
        writer.old writer.new result.1 }
    // An image that isn't opened is refused as by the store, and nothing is lost of it.
    ensures unopened { IfErr result.1 (λ fault.
        IfOpen fault (IsUnopened D.Disk disk result.0)) }
    // What isn't read touches nothing, and after any fault but a failed write the writer is unchanged, unless a search
    // ran out of memory.
    ensures unread { IfErr result.1 (λ fault.
        IsOfReading fault → (result.0 ≡ disk) ⊎ IsOfSearch (link_of B.lost gateway.old) fault) }
    ensures untouched { IfErr result.1 (λ fault. fault ≢ ProgramFault.Write
        → (writer.new ≡ writer.old) ⊎ IsOfSearch (link_of B.lost gateway.old) fault) }
{
    let (input, mut bytes) = match read_script(alloc, reader) {
        Ok(read) => read,
        Err(fault) => return (disk, Err(fault)),
    };
    let mut concentrator = match Concentrator::open(alloc, disk) {
        Ok(concentrator) => concentrator,
        Err((fault, disk)) => return (disk, Err(ProgramFault::Open(fault))),
    };
    match run_lines(
        alloc,
        &mut concentrator,
        gateway,
        input.as_slice(),
        bytes.as_mut_slice(),
        writer,
        notes,
    ) {
        Ok(faulty) => (concentrator.close(), Ok(faulty)),
        Err(halt) => match halt {
            Halt::Write => (concentrator.close(), Err(ProgramFault::Write)),
            Halt::NoMemory => (concentrator.close(), Err(ProgramFault::NoMemory)),
        },
    }
}

/// Runs a script as [`run_script_over`] does, over the gateway of this reader and writer of blocks (their form is that
/// of mbdc_bus's `blocks`). They aren't returned.
///
/// # Errors
/// Those of [`run_script_over`].
pub fn run_script<
    D: Disk + Drop,
    A: Allocator + Copy,
    R: Source,
    W: Sink,
    GR: Source + Drop,
    GW: Sink + Drop,
>(
    alloc: A,
    disk: D,
    reader: &mut R,
    writer: &mut W,
    gateway: Option<(GR, GW)>,
) -> (D, Result<bool, ProgramFault>)
    // Where each image of the disk stands for some state: the run is that of the script's lines, of which exactly the
    // text is written, and the image is left as that run leaves it. Over the gateway go the exchanges of these lines
    // in their order, and nothing else until it is left.
    ensures ran { Stands D.Disk disk → IfOk result.1 (λ faulty.
        OverGateway GR.Source GW.Sink gateway (λ carries.
        ImageRan D.Disk (link_at_first gateway) (R.left reader.old) faulty
        (PutsInto W.Sink writer.old writer.new) carries disk result.0)) }
    ensures cut { Stands D.Disk disk → IsErrOf result.1 ProgramFault.Write → OverGateway GR.Source
        GW.Sink gateway (λ carries.
        ImageCut D.Disk (link_at_first gateway) (R.left reader.old) carries disk result.0) }
    // Memory is refused before the image is opened, or to a search: then what is left of the image and the text are
    // those of the run up to it.
    ensures starved { Stands D.Disk disk → IsErrOf result.1 ProgramFault.NoMemory
        → ((result.0 ≡ disk) × (writer.new ≡ writer.old)) ⊎ OverGateway GR.Source GW.Sink gateway
        (λ carries.
        ImageStarved D.Disk (link_at_first gateway) (R.left reader.old)
        (PutsInto W.Sink writer.old writer.new) carries disk result.0) }

    // The disk, the reader and the writer are left so by the result.
    ensures ended { HasEnded D.Disk R.Source W.Sink disk result.0 reader.old reader.new
        writer.old writer.new result.1 }
    // An image that isn't opened is refused as by the store, and nothing is lost of it.
    ensures unopened { IfErr result.1 (λ fault.
        IfOpen fault (IsUnopened D.Disk disk result.0)) }
    // What isn't read touches nothing, and after any fault but a failed write the writer is unchanged, unless a search
    // ran out of memory.
    ensures unread { IfErr result.1 (λ fault.
        IsOfReading fault → (result.0 ≡ disk) ⊎ IsOfSearch (link_at_first gateway) fault) }
    ensures untouched { IfErr result.1 (λ fault. fault ≢ ProgramFault.Write
        → (writer.new ≡ writer.old) ⊎ IsOfSearch (link_at_first gateway) fault) }
{
    let mut bus = joined(gateway);
    run_script_over(alloc, disk, reader, writer, &mut bus, &mut ())
}

// The whole script, and room for an answer's bytes.
fn read_script<A: Allocator + Copy, R: Source>(
    alloc: A,
    reader: &mut R,
) -> Result<(Vec<u8, A>, Vec<u8, A>), ProgramFault>
    ensures whole { IfOk result (λ script.
        IfSome (R.left reader.old) (λ known. script.0.items ≡ known)) }
    ensures room { IfOk result (λ script. longest_input_line ≤ 2 * vec_len script.1) }
    ensures fits { OnOk result (IfSome (R.left reader.old) (λ input. length input ≤ most_input)) }
    ensures too_long { IsErrOf result ProgramFault.TooLong
        → IfSome (R.left reader.old) (λ input. most_input < length input) }
    ensures end { OnOk result (IsAtEnd (R.left reader.new)) }
    ensures faults { IfErr result IsOfReading }
    ensures ok { OnOk result (R.take_failures reader.new ≡ R.take_failures reader.old) }
    ensures read { IsErrOf result ProgramFault.Read
        → HasRisen (R.take_failures reader.old) (R.take_failures reader.new) }
{
    let bytes = room(alloc, LONGEST / 2)?;
    let mut chunk = room(alloc, CHUNK)?;
    let input = read_input(alloc, reader, chunk.as_mut_slice())?;
    if input.len() > MOST {
        return Err(ProgramFault::TooLong);
    }
    Ok((input, bytes))
}

// The gateway over these ends.
fn joined<GR: Source + Drop, GW: Sink + Drop>(gateway: Option<(GR, GW)>) -> Option<Gateway<GR, GW>>
    ensures link { link_of ⟦<Gateway<GR, GW> as Bus>⟧.lost result ≡ link_at_first gateway }
    ensures over { result ≡ gateway_over gateway }
{
    match gateway {
        Some((reader, writer)) => Some(Gateway::new(reader, writer)),
        None => None,
    }
}
