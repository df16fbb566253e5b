//! What standard error says after a command.

ghost use Rattle.std.specs.Prelude.{◌≡◌};
ghost use Rattle.mbdc_io.specs.Written.{Wrote};
ghost use Rattle.mbdc_installer.specs.Remark.{hint, remark_text};

use crate::bench::command::{Done, MeterName, Work};
use crate::{Count, Course, Readout, is_all_read, put_unread};
use dc_readout::misses::{Owner, put_reason};
use mbdc_io::{IoFault, Sink};

/// Writes what is to be known of a command besides its text: after a search how many answers can't be read, and to a
/// person what to do where nothing was found, and with numbers that several meters have; after a readout that failed
/// what its failed tries brought.
#[tactic(auto, using(mbdc_io::proofs::Pieces::written), unfolding(crate::specs::Remark::advice_text))]
pub fn put_remark<W: Sink>(
    work: &Work,
    done: &Done,
    course: &Course,
    is_watched: bool,
    out: &mut W,
) -> Result<(), IoFault>
    ensures { Wrote W.Sink result out.old out.new
        (remark_text work.now done.now course.now is_watched) }
{
    match (work, done) {
        (_, Done::Searched(count)) => {
            put_unread(out, course)?;
            out.put(hint(course, Some(*count), is_watched))
        }
        (_, Done::Asked(_)) => {
            put_unread(out, course)?;
            out.put(hint(course, None, is_watched))
        }
        (Work::Read(MeterName::Identity(meter)), Done::ReadOut(Readout::Failed(misses))) => {
            put_reason(out, &Owner::Meter(*meter), misses)
        }
        (Work::Read(MeterName::Address(address)), Done::ReadOut(Readout::Failed(misses))) => {
            put_reason(out, &Owner::Address(*address), misses)
        }
        (Work::Read(MeterName::Number(digits)), Done::ReadOut(Readout::Failed(misses))) => {
            put_reason(out, &Owner::Number(*digits), misses)
        }
        _ => Ok(()),
    }
}

// What a person does next; nothing where no person reads it.
fn hint(course: &Course, count: Option<Count>, is_watched: bool) -> &'static [u8]
    ensures { result.now ≡ hint course.now count is_watched }
{
    if !is_watched {
        return b"";
    }
    if !course.is_answered {
        return b"nobody answered: is the bus powered, are speed and parity right?\n";
    }
    match count {
        Some(count) if count.shared != 0 => {
            b"SHARED: find these meters by scan --primary, and read each by its address\n"
        }
        _ if course.is_other => {
            b"telegrams of another CI than 72 came, which mbdc doesn't read: can these meters send 72?\n"
        }
        Some(count) if count.meters == 0 && is_all_read(course) => {
            b"answers came, but of no meter: look at speed, parity and noise\n"
        }
        _ => b"",
    }
}
