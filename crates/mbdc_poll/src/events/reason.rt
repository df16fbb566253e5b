//! What standard error gets of a failed readout.

ghost use Rattle.std.specs.Prelude.{◌≡◌};
ghost use Rattle.mbdc_poll.specs.Content.{untaken};
ghost use Rattle.mbdc_io.specs.Written.{Wrote};
ghost use Rattle.mbdc_poll.specs.Reason.{content_lines, reason_of};

use crate::Event;
use crate::events::content::untaken;
use dc_address::Identity;
use dc_readout::misses::Owner;
use mbdc_decode::tokens::{Piece, put_pieces};
use mbdc_io::{IoFault, Sink};
use mbdc_reading::content::REASON_ROOM;

/// Writes what the tries of a failed readout brought: where some failed, how many brought what, as a line `mbdc: line
/// 2: 12345678.PAD.01.07: 3 tries failed: 2 silent, 1 unreadable`; and where the last answer is a telegram of another
/// kind, why the register doesn't take it: `mbdc: line 2: 12345678.PAD.01.07: fixed data (CI 73): not registered`. Of
/// another event it writes nothing.
#[tactic(auto, using(mbdc_io::proofs::Pieces::written))]
pub fn put_reason<W: Sink>(out: &mut W, event: &Event<'_>) -> Result<(), IoFault>
    ensures { Wrote W.Sink result out.old out.new (reason_of event.now) }
{
    match event {
        Event::Failed {
            line,
            meter,
            brought,
            ..
        } => {
            let owner = Owner::OnLine {
                line: *line,
                meter: *meter,
            };
            dc_readout::misses::put_reason(out, &owner, &brought.misses)?;
            put_untaken(out, *line, meter, brought.last.as_slice())
        }
        Event::Read { .. }
        | Event::Refused { .. }
        | Event::Lost { .. }
        | Event::Late { .. }
        | Event::End { .. } => Ok(()),
    }
}

// Writes why the register doesn't take what a meter's answer says.
#[tactic(auto, unfolding(crate::specs::Reason::why_line))]
fn put_untaken<W: Sink>(
    out: &mut W,
    line: u8,
    meter: &Identity,
    answer: &[u8],
) -> Result<(), IoFault>
    ensures { Wrote W.Sink result out.old out.new
        (content_lines line meter.now (untaken answer.now)) }
{
    let Some(content) = untaken(answer) else {
        return Ok(());
    };
    let Some(reason) = content.reason() else {
        return Ok(());
    };
    let mut room = [0u8; REASON_ROOM];
    put_pieces(
        out,
        &[
            Piece::Text(b"mbdc: line "),
            Piece::Number(u64::from(line)),
            Piece::Text(b": "),
            Piece::Text(&meter.text()),
            Piece::Text(b": "),
            Piece::Text(reason.text(&mut room)),
            Piece::Text(b"\n"),
        ],
    )
}
