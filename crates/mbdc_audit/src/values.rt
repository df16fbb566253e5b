//! The fields of lines, and the values that they spell.

ghost use Rattle.std.specs.Prelude.{◌≡◌, ◌≢◌, ◌<◌, true, if◌then◌else◌, IfErr, IfOk, IsSome, None};
ghost use Rattle.mbdc_audit.specs.File.{IsSpelled, IsVib, text_at};
ghost use Rattle.mbdc_audit.specs.House.{Spelled as SaidText, Value as SaidValue};
ghost use Rattle.mbdc_audit.specs.Line.{IsBounded, number_at};
ghost use Rattle.mbdc_audit.specs.Reader.{IsValueOf, is_value};
ghost use Rattle.mbdc_audit.specs.Uses.{size_named};
ghost use Rattle.mbdc_audit.specs.View.{run_of, seen_value, spelled_of};

use crate::curve::Run;
use crate::evidence::RECORD;
use crate::fault::AuditFault;
use crate::house::{Typed, Value};
use crate::line::{Line, Word};
use crate::uses::size_named;

/// The field at a place, and nothing past the last one.
pub fn field<'a>(line: &Line<'a>, place: usize) -> &'a [u8]
    ensures { result.now ≡ text_at place line.now }
{
    match line.fields.get(place) {
        Some(field) => field,
        None => &[],
    }
}

/// The hex digits of a VIB; a hyphen stands for none.
pub fn vib(field: &[u8]) -> &[u8]
    ensures { IsVib field.now result.now }
{
    match field {
        [b'-'] => &[],
        _ => field,
    }
}

/// The value of a run that a line spells, by the line's number.
///
/// # Errors
/// Its unit isn't one of readings.
pub fn value_of<'a>(line: &Line<'a>, run: &Run<'_>, at: u64) -> Result<Value<'a>, AuditFault>
    requires bounded { IsBounded line.now.word line.now }
    requires word { is_value line.now.word ≡ true }
    requires run { 0 < number_at 0 line.now }
    ensures ok { IfOk result (λ v. IsValueOf line.now (run_of run.now) (seen_value v)) }
    ensures err { IfErr result (λ f. (v : SaidValue) → IsValueOf line.now (run_of run.now) v → ⊥) }
{
    let blank = Value {
        line: at,
        word: line.word,
        run: line.number(0).saturating_sub(1),
        moment: line.number(1),
        end: None,
        bodies: &[],
        typed: None,
        found: Err(RECORD),
        is_again: false,
    };
    match line.word {
        Word::Read => Ok(Value {
            bodies: field(line, 2),
            ..blank
        }),
        Word::Stored | Word::Ended => {
            let end = line.day_end(1);
            Ok(Value {
                moment: end.moment(),
                end: Some(end),
                bodies: field(line, 3),
                ..blank
            })
        }
        Word::Zero => Ok(Value {
            moment: run.begin,
            ..blank
        }),
        Word::First => {
            let typed = typed(line, 1, is_guess(line)?)?;
            Ok(Value {
                moment: run.begin,
                typed: Some(typed),
                ..blank
            })
        }
        Word::Last => {
            let typed = typed(line, 1, is_guess(line)?)?;
            Ok(Value {
                moment: run.end.unwrap_or(run.begin),
                typed: Some(typed),
                ..blank
            })
        }
        word => {
            let typed = typed(line, 2, matches!(word, Word::Estimated))?;
            Ok(Value {
                typed: Some(typed),
                ..blank
            })
        }
    }
}

// Whether a line says that its value is estimated.
fn is_guess(line: &Line<'_>) -> Result<bool, AuditFault>
    ensures ok { IfOk result (λ g. number_at 3 line.now ≡ (if g then 1 else 0)) }
    ensures err { IfErr result (λ f. (number_at 3 line.now ≢ 0) × (number_at 3 line.now ≢ 1)) }
{
    match line.number(3) {
        0 => Ok(false),
        1 => Ok(true),
        _ => Err(AuditFault::Row),
    }
}

// A value in a unit of readings, at a place of a line.
fn typed<'a>(line: &Line<'a>, at: usize, is_guess: bool) -> Result<Typed<'a>, AuditFault>
    requires { at < 3 }
    ensures ok { IfOk result (λ t. (t.is_guess ≡ is_guess) × IsSpelled (spelled_of t) at line.now
        × IsSome (size_named t.unit.now)) }
    ensures err { IfErr result (λ f. (t : SaidText) → IsSpelled t at line.now → size_named t.unit ≡ None) }
{
    let unit = field(line, at + 1);
    if size_named(unit).is_none() {
        return Err(AuditFault::Unit);
    }
    let spelled = line.numbers[at].ok_or(AuditFault::Row)?;
    Ok(Typed {
        is_guess,
        spelled,
        unit,
    })
}
