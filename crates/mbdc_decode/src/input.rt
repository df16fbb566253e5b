//! An input of lines of hex digits, read whole before anything is written.

ghost use Rattle.std.specs.Prelude.{◌≡◌, ◌≢◌, ◌<◌, ◌≤◌, length, IfSome, IfOk, IfErr, OnOk, OnErr};
ghost use Rattle.std.specs.Prelude.{IsErrOf};
ghost use Rattle.mbdc_io.specs.Failures.{HasRisen};
ghost use Rattle.mbdc_io.specs.Lines.{most_input};
ghost use Rattle.mbdc_io.specs.Written.{Wrote};
ghost use Rattle.mbdc_decode.specs.Text.{has_fault};
ghost use Rattle.mbdc_decode.specs.Form.{text_as};

use crate::form::LineForm;
use crate::lines::put_lines_as;
use mbdc_io::{CHUNK, LONGEST, MOST, Sink, Source, TextFault, read_input, room};
use std::alloc::Allocator;
use std::marker::Model;

/// An input of lines of hex digits, of at most 1 MiB, with the memory that writing its frames takes.
#[derive(Drop)]
pub struct Input<A: Allocator> {
    bytes: Vec<u8, A>,
    digits: Vec<u8, A>,
    spelled: Vec<u8, A>,
}

impl<A: Allocator> Model for Input<A> {
    ghost use Rattle.std.specs.Prelude.{ℕ, List, ◌≤◌, vec_len};
    ghost use Rattle.mbdc_io.specs.Lines.{longest_input_line, most_spelled};

    ghost Value = { List ℕ };

    ghost view = { λ i. i.bytes.items };

    ghost invariant = { λ i. (longest_input_line ≤ vec_len i.digits)
        × (most_spelled ≤ vec_len i.spelled) };
}

impl<A: Allocator + Copy> Input<A> {
    /// Reads the input that is left in the reader.
    ///
    /// # Errors
    /// [`TextFault::Read`] if the reader failed, [`TextFault::TooLong`] over 1 MiB,
    /// [`TextFault::NoMemory`] if memory ran out.
    pub fn read<R: Source>(alloc: A, reader: &mut R) -> Result<Input<A>, TextFault>
        ensures bytes { IfOk result (λ input. IfSome (R.left reader.old) (λ left. input ≡ left)) }

        // Exactly the inputs over the limit are rejected for their length.
        ensures fits { OnOk result (IfSome (R.left reader.old) (λ left. length left ≤ most_input)) }
        ensures too_long { IsErrOf result TextFault.TooLong
            → IfSome (R.left reader.old) (λ left. most_input < length left) }

        // A read fault is returned only if the reader counted a failure.
        ensures read { IsErrOf result TextFault.Read
            → HasRisen (R.take_failures reader.old) (R.take_failures reader.new) }
        ensures ok { OnOk result (R.take_failures reader.new ≡ R.take_failures reader.old) }
        ensures faults { IfErr result (λ fault. fault ≢ TextFault.Write) }
    {
        let digits = room(alloc, LONGEST)?;
        let spelled = room(alloc, LONGEST / 2)?;
        let mut chunk = room(alloc, CHUNK)?;
        let bytes = read_input(alloc, reader, chunk.as_mut_slice())?;
        if bytes.len() > MOST {
            return Err(TextFault::TooLong);
        }
        Ok(Input {
            bytes,
            digits,
            spelled,
        })
    }

    /// Writes the frames of the lines in a form, and returns whether a line, a frame or a body has a
    /// fault.
    ///
    /// # Errors
    /// [`TextFault::Write`] if the writer failed.
    pub fn put_as<F: LineForm, W: Sink>(self, writer: &mut W) -> Result<bool, TextFault>
        ensures wrote { F.IsDefined → Wrote W.Sink result writer.old writer.new
            (text_as F.LineForm self) }
        ensures fault { IfOk result (λ found. found ≡ has_fault self) }
        ensures faults { IfErr result (λ fault. fault ≡ TextFault.Write) }
    {
        let mut input = self;
        match put_lines_as::<F, W>(
            input.bytes.as_slice(),
            input.digits.as_mut_slice(),
            input.spelled.as_mut_slice(),
            writer,
        ) {
            Ok(found) => Ok(found),
            Err(_) => Err(TextFault::Write),
        }
    }
}
