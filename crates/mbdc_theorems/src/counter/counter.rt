//! A counter: a number of eight bytes, to which numbers of eight bytes are added.

ghost use Rattle.std.specs.Prelude.{◌≡◌, ◌<◌, ◌≤◌, ◌+◌, ◌^◌, ℕ, List, replicate, OnOk, OnErr};
ghost use Rattle.byteorder.specs.Endian.{little_bytes};
ghost use Rattle.mbdc_io.specs.Written.{IsWritten, IsStopped};
ghost use Rattle.mbdc_theorems.specs.Counting.{SpellsNumber, SpellsStep, IsWithin, counted, zeros};

use byteorder::{ByteOrder, LittleEndian};
use mbdc_io::kept::{DecodeFault, Kept, KeptIn, Language, Subject};
use mbdc_io::{IoFault, Sink};
use std::alloc::Global;

/// The bytes of zero.
const ZEROS: [u8; 8] = [0; 8];

/// A counter.
#[derive(Drop)]
pub struct Counter {
    pub count: u64,
    pub budget: u32,
    ghost room: { 8 ≤ budget },
}

impl Counter {
    /// A counter at a number.
    pub fn of(count: u64, budget: u32) -> Counter
        requires { 8 ≤ budget }
        ensures count { result.count ≡ count }
        ensures budget { result.budget ≡ budget }
    {
        Counter { count, budget }
    }
}

/// Writes one piece.
#[tactic(auto, using(mbdc_io::proofs::Writes::written_one, mbdc_io::proofs::Writes::stopped_one))]
fn put<S: Sink>(sink: &mut S, bytes: &[u8]) -> Result<(), IoFault>
    ensures ok { OnOk result (IsWritten S.Sink sink.old sink.new bytes.now) }
    ensures err { OnErr result (IsStopped S.Sink sink.old sink.new bytes.now) }
{
    sink.put(bytes)?;
    Ok(())
}

impl Language for Counter {
    ghost use Rattle.mbdc_theorems.specs.Laws.{one_number, one_step, wider_number, some_number};
    ghost use Rattle.mbdc_theorems.specs.Laws.{fits_number, zero_spelled, counted_append};
    ghost use Rattle.std.specs.Prelude.{refl};

    ghost State = { ℕ };

    ghost Change = { ℕ };

    ghost empty = { 0 };

    ghost after = { counted };

    ghost Accepts = { IsWithin };

    ghost bytes_of = { λ s. little_bytes 8 s };

    ghost empty_bytes = { zeros };

    ghost SpellsState = { SpellsNumber };

    ghost SpellsChanges = { SpellsStep };

    ghost state = { λ c. c.count };

    ghost limit = { λ c. c.budget };

    ghost one_state = { one_number };

    ghost one_list = { one_step };

    ghost wider = { wider_number };

    ghost some = { some_number };

    ghost fits = { fits_number };

    ghost empty_spelled = { zero_spelled };

    ghost after_none = { λ s. refl };

    ghost after_append = { counted_append };
}

impl Kept for Counter {
    type Alloc = Global;

    fn empty_bytes() -> &'static [u8] {
        &ZEROS
    }

    fn decode(_alloc: Global, bytes: &[u8], budget: u32) -> Result<Counter, DecodeFault> {
        if bytes.len() != 8 || budget < 8 {
            return Err(DecodeFault::Bad);
        }
        Ok(Counter {
            count: LittleEndian::read_u64(bytes),
            budget,
        })
    }

    fn replay(&mut self, bytes: &[u8]) -> Result<(), DecodeFault> {
        if bytes.len() != 8 {
            return Err(DecodeFault::Bad);
        }
        let step = LittleEndian::read_u64(bytes);
        match self.count.checked_add(step) {
            Some(count) => {
                self.count = count;
                Ok(())
            }
            None => Err(DecodeFault::Bad),
        }
    }

    fn encode<S: Sink>(&self, sink: &mut S) -> Result<(), IoFault> {
        let mut bytes = [0; 8];
        LittleEndian::write_u64(&mut bytes, self.count);
        put(sink, &bytes)?;
        Ok(())
    }

    fn size(&self) -> u32 {
        let _count = self.count; // a number of eight bytes
        8
    }
}

/// Counters, as a store keeps them.
#[derive(Clone, Copy)]
pub struct Counting;

impl Subject for Counting {
    type Any = Counter;
}

impl KeptIn<Global> for Counting {
    type Value = Counter;
}
