//! A table for readers: the frames of lines of hex digits, in words and aligned.
//!
//! Its text has no contract: it is proved safe, and its faults are those of `decode_lines`.

ghost use Rattle.std.specs.Prelude.{◌≡◌, ◌<◌, IfSome, IfOk};
ghost use Rattle.dc_linkframe.specs.Frame.{seen};
ghost use Rattle.mbdc_decode.specs.Engine.{EngineEnds};
ghost use Rattle.mbdc_decode.specs.Frames.{is_bad_content, is_bad_frame};
ghost use Rattle.mbdc_decode.specs.Text.{has_fault};

use crate::place::{body_place, frame_place};
use crate::table::put_content;
use crate::text::TextWriter;
use dc_linkframe::Frame;
use dc_linkframe::control::VARIABLE_DATA;
use dc_records::Telegram;
use dc_records::names::{ci_name, control_name};
use mbdc_decode::tokens::{Piece, put_pieces};
use mbdc_decode::{Input, LineForm, read_frame};
use mbdc_io::{Bytes, IoFault, Sink, Source, TextFault, pair_of};
use mbdc_reading::content::content_of;
use std::alloc::Allocator;

// Number of bytes of a long frame before its body.
const BODY: usize = 7;

// Writes a fault, its place in the line and what was expected there.
fn put_fault<'x, W: Sink>(
    out: &mut TextWriter<'_, W>,
    what: &'x [u8],
    number: u8,
    name: &'x str,
    place: usize,
    expected: &'x str,
) {
    out.put_row(&[
        Piece::Text(what),
        Piece::Number(u64::from(number)),
        Piece::Text(b" "),
        Piece::Text(name.as_bytes()),
        Piece::Text(b" at byte "),
        Piece::Number(place as u64),
        Piece::Text(b": expected "),
        Piece::Text(expected.as_bytes()),
        Piece::Text(b"\n"),
    ]);
}

// Writes a body in words, and its fault if the CI field states a telegram; returns whether it has one.
// `start` is its place in the line.
#[tactic(auto, unfolding(mbdc_decode::specs::Frames::is_bad_content))]
fn put_body<W: Sink>(out: &mut TextWriter<'_, W>, start: usize, ci: u8, body: &[u8]) -> bool
    ensures { result ≡ is_bad_content ci body.now }
{
    let mut is_bad = false;
    if ci == VARIABLE_DATA {
        if let Err(fault) = Telegram::parse(body) {
            let (place, expected) = body_place(body, fault);
            put_fault(
                out,
                b"  body fault ",
                fault.number(),
                fault.name(),
                start.saturating_add(place),
                expected,
            );
            is_bad = true;
        }
    }
    if let Some(content) = content_of(ci, body) {
        put_content(out, &content, ci == VARIABLE_DATA && !is_bad);
    }
    is_bad
}

// Writes a frame that begins at this place of a line, and returns whether its body has a fault.
fn put_frame<W: Sink>(out: &mut TextWriter<'_, W>, start: usize, frame: Frame<'_>) -> bool
    ensures { result ≡ is_bad_frame (seen frame.entry) }
{
    let (words, control, address): (&[u8], Option<u8>, u8) = match frame {
        Frame::Ack => (b"acknowledgement", None, 0),
        Frame::Short { control, address } => (b"short frame, ", Some(control), address),
        Frame::Long {
            control,
            address,
            ..
        } => (b"long frame, ", Some(control), address),
    };
    out.put(words);
    if let Some(control) = control {
        out.put(control_name(control).as_bytes());
        out.put_row(&[
            Piece::Text(b" ("),
            Piece::Text(&pair_of(control)),
            Piece::Text(b"), address "),
            Piece::Number(u64::from(address)),
        ]);
    }
    let Frame::Long { ci, body, .. } = frame else {
        out.put(b"\n");
        return false;
    };
    out.put(b", ");
    out.put(ci_name(ci).as_bytes());
    out.put_row(&[
        Piece::Text(b" ("),
        Piece::Text(&pair_of(ci)),
        Piece::Text(b")\n"),
    ]);
    put_body(out, start.saturating_add(BODY), ci, body)
}

/// The form of `decode --explain`: words and tables.
struct Table;

impl LineForm for Table {
    ghost use Rattle.std.specs.Prelude.{[]};

    ghost IsDefined = { ⊥ };

    ghost frame_text = { λ _ _. [] };

    ghost fault_text = { λ _. [] };

    #[tactic(auto, unfolding(mbdc_decode::specs::Frames::is_bad))]
    fn put_frame<W: Sink>(
        line: u64,
        start: usize,
        bytes: &[u8],
        out: &mut W,
    ) -> Result<bool, IoFault> {
        let mut text = TextWriter {
            out,
            has_failed: false,
        };
        text.put_row(&[
            Piece::Text(b"line "),
            Piece::Number(line),
            Piece::Text(b": "),
        ]);
        let is_bad = match read_frame(bytes) {
            Ok(frame) => put_frame(&mut text, start, frame),
            Err(fault) => {
                let (place, expected) = frame_place(bytes, fault);
                put_fault(
                    &mut text,
                    b"frame fault ",
                    fault.number(),
                    fault.name(),
                    start.saturating_add(place),
                    expected,
                );
                true
            }
        };
        if text.has_failed {
            return Err(IoFault);
        }
        Ok(is_bad)
    }

    fn put_hex_fault<W: Sink>(line: u64, out: &mut W) -> Result<(), IoFault> {
        let words = b": no line of pairs of hex digits, or longer than 4096 characters\n";
        put_pieces(
            out,
            &[
                Piece::Text(b"line "),
                Piece::Number(line),
                Piece::Text(words),
            ],
        )
    }
}

/// Writes the lines of hex digits left in the reader in words: each frame, the meter, its status, a
/// table of its records, and for each fault its place in the line (in bytes, from 0) and what was
/// expected there. Returns whether a line, a frame or a body has a fault.
///
/// The whole input is read, and the whole text built, before anything is written.
///
/// # Errors
/// [`TextFault::Read`] and [`TextFault::Write`] if the reader or the writer failed,
/// [`TextFault::TooLong`] over 1 MiB, [`TextFault::NoMemory`] if memory ran out. Only after `Write`
/// may something have been written.
pub fn explain_lines<A: Allocator + Copy, R: Source, W: Sink>(
    alloc: A,
    reader: &mut R,
    writer: &mut W,
) -> Result<bool, TextFault>
    // The result is whether a line, a frame or a body of the whole input has a fault.
    ensures fault { IfOk result (λ found.
        IfSome (R.left reader.old) (λ input. found ≡ has_fault input)) }
    ensures ends { EngineEnds R.Source W.Sink TextFault.Read TextFault.TooLong TextFault.Write
        reader.old reader.new writer.old writer.new result }
{
    let input = Input::read(alloc, reader)?;
    let mut text = Bytes::new(alloc);
    let Ok(found) = input.put_as::<Table, Bytes<A>>(&mut text) else {
        return Err(TextFault::NoMemory);
    };
    match writer.put(text.as_slice()) {
        Ok(()) => Ok(found),
        Err(_) => Err(TextFault::Write),
    }
}
