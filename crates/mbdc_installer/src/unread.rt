//! What is said of the answers of a search that can't be read.

ghost use Rattle.std.specs.Prelude.{◌≡◌};
ghost use Rattle.mbdc_io.specs.Written.{Wrote};
ghost use Rattle.mbdc_installer.specs.Unread.{hint, is_all_read, unread_line, unread_text};

use crate::course::Course;
use mbdc_decode::tokens::{Piece, put_pieces};
use mbdc_io::{IoFault, Sink};

/// Writes how many selections or resets of a search had no answer that can be read, and what that points to:
/// `mbdc: 37 selections: 30 silent, 2 unreadable, 5 collided: several meters answered one wildcard`. `unreadable` are
/// bytes that are no frame in place of an acknowledgement, `collided` in place of a telegram. Where each answer could
/// be read, it writes nothing.
#[tactic(auto, unfolding(crate::specs::Unread::unread_text))]
pub fn put_unread<W: Sink>(out: &mut W, course: &Course) -> Result<(), IoFault>
    ensures { Wrote W.Sink result out.old out.new (unread_text course.now) }
{
    if is_all_read(course) {
        return Ok(());
    }
    // A search by wildcards selects, one at primary addresses resets.
    match course.selections {
        0 => put_line(out, course.resets, b" resets: ", course),
        count => put_line(out, count, b" selections: ", course),
    }
}

/// Whether each answer was a frame.
pub fn is_all_read(course: &Course) -> bool
    ensures { result ≡ is_all_read course.now }
{
    course.unreadable == 0 && course.collided == 0
}

#[tactic(auto, unfolding(crate::specs::Unread::unread_line))]
fn put_line<W: Sink>(out: &mut W, count: u64, asked: &[u8], course: &Course) -> Result<(), IoFault>
    ensures { Wrote W.Sink result out.old out.new (unread_line count asked.now course.now) }
{
    put_pieces(
        out,
        &[
            Piece::Text(b"mbdc: "),
            Piece::Number(count),
            Piece::Text(asked),
            Piece::Number(course.silent),
            Piece::Text(b" silent, "),
            Piece::Number(course.unreadable),
            Piece::Text(b" unreadable, "),
            Piece::Number(course.collided),
            Piece::Text(b" collided: "),
            Piece::Text(hint(course)),
        ],
    )
}

// What it points to.
fn hint(course: &Course) -> &'static [u8]
    ensures { result.now ≡ hint course.now }
{
    if !course.is_understood {
        b"are speed and parity right?\n"
    } else if course.collided == 0 {
        b"noise, or several meters acknowledged at once\n"
    } else if course.selections == 0 {
        b"two meters have one address, or the line is disturbed\n"
    } else {
        b"several meters answered one wildcard\n"
    }
}
