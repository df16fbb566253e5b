//! The sentence that says what the failed tries of a readout brought.

ghost use Rattle.std.specs.Prelude.{◌≡◌};
ghost use Rattle.mbdc_io.specs.Written.{Wrote};
ghost use Rattle.dc_readout.specs.Text.{before_count, has_frames_alone, noise_text, others_text};
ghost use Rattle.dc_readout.specs.Text.{part_text, sentence_of, silent_text, tries_text};

use crate::misses::misses::Misses;
use mbdc_io::{IoFault, Sink, put_number};

/// Writes the counts that aren't 0: `3 tries failed: 2 silent, 1 unreadable`, and ` with a wrong frame` after the
/// number of frames that weren't the answer. Of no failed try it writes `0 tries failed`.
#[tactic(auto, using(mbdc_io::proofs::Pieces::written), unfolding(crate::specs::Text::sentence_of))]
pub fn put_misses<W: Sink>(out: &mut W, misses: &Misses) -> Result<(), IoFault>
    ensures { Wrote W.Sink result out.old out.new (sentence_of misses.now) }
{
    put_tries(out, misses)?;
    put_silent(out, misses)?;
    put_noise(out, misses)?;
    put_others(out, misses)
}

#[tactic(auto, unfolding(crate::specs::Text::silent_text))]
fn put_silent<W: Sink>(out: &mut W, misses: &Misses) -> Result<(), IoFault>
    ensures { Wrote W.Sink result out.old out.new (silent_text misses.now) }
{
    put_part(out, true, misses.silent, b" silent")
}

#[tactic(auto, unfolding(crate::specs::Text::noise_text))]
fn put_noise<W: Sink>(out: &mut W, misses: &Misses) -> Result<(), IoFault>
    ensures { Wrote W.Sink result out.old out.new (noise_text misses.now) }
{
    put_part(out, misses.silent == 0, misses.noise, b" unreadable")
}

#[tactic(auto, unfolding(crate::specs::Text::others_text))]
fn put_others<W: Sink>(out: &mut W, misses: &Misses) -> Result<(), IoFault>
    ensures { Wrote W.Sink result out.old out.new (others_text misses.now) }
{
    let is_first = has_frames_alone(misses);
    put_part(out, is_first, misses.others, b" with a wrong frame")
}

// Whether no try brought anything but a frame.
fn has_frames_alone(misses: &Misses) -> bool
    ensures { result ≡ has_frames_alone misses.now }
{
    misses.silent == 0 && misses.noise == 0
}

// Writes how many tries failed.
#[tactic(auto, using(mbdc_io::proofs::Pieces::written), unfolding(crate::specs::Text::tries_text))]
fn put_tries<W: Sink>(out: &mut W, misses: &Misses) -> Result<(), IoFault>
    ensures { Wrote W.Sink result out.old out.new (tries_text misses.now) }
{
    let tries = u64::from(misses.silent) + u64::from(misses.noise) + u64::from(misses.others);
    put_number(out, tries)?;
    if tries == 1 {
        out.put(b" try failed")
    } else {
        out.put(b" tries failed")
    }
}

// Writes a count with its words, unless it is 0.
#[tactic(auto, using(mbdc_io::proofs::Pieces::written), unfolding(crate::specs::Text::part_text))]
fn put_part<W: Sink>(out: &mut W, is_first: bool, count: u8, words: &[u8]) -> Result<(), IoFault>
    ensures { Wrote W.Sink result out.old out.new (part_text is_first count words.now) }
{
    if count == 0 {
        return Ok(());
    }
    out.put(before_count(is_first))?;
    put_number(out, u64::from(count))?;
    out.put(words)
}

fn before_count(is_first: bool) -> &'static [u8]
    ensures { result.now ≡ before_count is_first }
{
    if is_first { b": " } else { b", " }
}
