//! The count of the failed tries of a readout.

ghost use Rattle.std.specs.Prelude.{◌≡◌, [], is_some};
ghost use Rattle.dc_linkframe.specs.Reading.{frame_of};
ghost use Rattle.dc_readout.specs.Misses.{and_missed, counted, is_noise, misses_of};

use dc_linkframe::parse;

/// Number of failed tries of a readout, by what each brought. A count stays at 255.
#[derive(Clone, Copy)]
pub struct Misses {
    /// Tries that brought no byte.
    pub silent: u8,
    /// Tries that brought bytes that are no frame: a bad checksum, a cut answer, noise.
    pub noise: u8,
    /// Tries that brought a frame that isn't the answer to the request.
    pub others: u8,
}

impl Misses {
    /// No try has failed.
    pub fn none() -> Misses
        ensures { result ≡ misses_of [] }
    {
        Misses {
            silent: 0,
            noise: 0,
            others: 0,
        }
    }

    /// Counts a failed try by the bytes that it brought.
    pub fn count(&mut self, answer: &[u8])
        ensures { self.new ≡ and_missed answer.now self.old }
    {
        let is_silent = answer.is_empty();
        let is_frame = is_frame(answer);
        self.silent = counted(is_silent, self.silent);
        self.noise = counted(!is_silent && !is_frame, self.noise);
        self.others = counted(is_frame, self.others);
    }
}

/// Whether an answer is noise: bytes that are no frame.
pub fn is_noise(answer: &[u8]) -> bool
    ensures { result ≡ is_noise answer.now }
{
    !answer.is_empty() && !is_frame(answer)
}

// Whether the bytes are a frame.
fn is_frame(answer: &[u8]) -> bool
    ensures { result ≡ is_some (frame_of answer.now) }
{
    parse(answer).is_ok()
}

// A count, and one more where this is one.
fn counted(is_one: bool, count: u8) -> u8
    ensures { result ≡ counted is_one count }
{
    if is_one {
        count.saturating_add(1)
    } else {
        count
    }
}
