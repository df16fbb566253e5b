//! A name on one line.

ghost use Rattle.mbdc_io.specs.Written.{Wrote};
ghost use Rattle.std.specs.Char.{encode_utf8};
ghost use Rattle.std.specs.Str.{encode_utf8_all};
ghost use Rattle.std.specs.Char.Escape.{escape_default};
ghost use Rattle.mbdc_ending.specs.Escape.{escaped, shown};

use mbdc_io::{IoFault, Sink};

/// Writes a text with its control characters escaped.
#[tactic(auto, using(mbdc_io::proofs::Pieces::written, crate::proofs::Escapes::shown_more), unfolding(crate::specs::Escape::escaped))]
pub(crate) fn put_escaped<W: Sink>(out: &mut W, text: &str) -> Result<(), IoFault>
    ensures { Wrote W.Sink result out.old out.new (escaped text.now) }
{
    for c in text.chars() {
        put_shown(out, c)?;
    }
    Ok(())
}

fn put_shown<W: Sink>(out: &mut W, c: char) -> Result<(), IoFault>
    ensures { Wrote W.Sink result out.old out.new (encode_utf8_all (shown c)) }
{
    if c.is_control() {
        return put_escape(out, c);
    }
    put_char(out, c)
}

#[tactic(auto, using(mbdc_io::proofs::Pieces::written, crate::proofs::Escapes::one_more))]
fn put_escape<W: Sink>(out: &mut W, c: char) -> Result<(), IoFault>
    ensures { Wrote W.Sink result out.old out.new
        (encode_utf8_all (escape_default c)) }
{
    for x in c.escape_default() {
        put_char(out, x)?;
    }
    Ok(())
}

fn put_char<W: Sink>(out: &mut W, c: char) -> Result<(), IoFault>
    ensures { Wrote W.Sink result out.old out.new (encode_utf8 c) }
{
    let mut room = [0; 4];
    out.put(c.encode_utf8(&mut room).as_bytes())
}
