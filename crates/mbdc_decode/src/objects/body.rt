//! The body of a telegram, without a frame around it, as JSON.

ghost use Rattle.std.specs.Prelude.{◌≡◌, IfOk, is_err};
ghost use Rattle.mbdc_io.specs.Written.{Wrote};
ghost use Rattle.dc_records.specs.Telegram.{telegram_at};
ghost use Rattle.mbdc_decode.specs.Frame.{body_json};
ghost use Rattle.mbdc_decode.specs.JsonText.{value_line};

use crate::objects::frame::put_body_json;
use crate::tokens::TokenWriter;
use mbdc_io::{IoFault, Sink};

/// Writes the JSON line of a body without a frame (EN 13757-3, variable data structure): the fields
/// of its telegram, or its bytes and its fault. Returns whether it has a fault.
///
/// A body may have any length.
#[tactic(auto, using(crate::proofs::Adding::whole, mbdc_io::proofs::Pieces::written), unfolding(crate::specs::JsonText::value_line))]
pub fn put_body_line<W: Sink>(out: &mut W, body: &[u8]) -> Result<bool, IoFault>
    ensures wrote { Wrote W.Sink result out.old out.new (value_line (body_json body.now)) }
    ensures fault { IfOk result (λ bad. bad ≡ is_err (telegram_at body.now)) }
{
    let mut tokens = TokenWriter::new(out);
    let bad = put_body_json(&mut tokens, body);
    tokens.outcome()?;
    out.put(b"\n")?;
    Ok(bad)
}
