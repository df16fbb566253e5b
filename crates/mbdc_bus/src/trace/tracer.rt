//! What writes the trace of a bus line.

ghost use Rattle.std.specs.Prelude.{◌≡◌, ℕ};
ghost use Rattle.mbdc_io.specs.Written.{Wrote};
ghost use Rattle.mbdc_bus.specs.Line.{trace_line};

use crate::trace::line::{Direction, put_line};
use crate::trace::observer::Observer;
use mbdc_io::{IoFault, Sink};

/// Where the lines of a trace go.
pub trait TraceSink: Sink {
    /// Milliseconds since the trace was begun.
    fn millis(&self) -> u64;
}

/// Writes a line for each request and each answer of a bus line. A line that can't be written stops nothing.
#[derive(Drop)]
pub struct Tracer<W: TraceSink + Drop> {
    /// Where the lines go.
    pub out: W,
    /// The bus line, from 1.
    pub line: u8,
}

impl<W: TraceSink + Drop> Tracer<W> {
    // Writes the line of a request or an answer.
    fn put(&mut self, direction: Direction, bytes: &[u8]) -> Result<(), IoFault>
        ensures wrote { (moment : ℕ) × Wrote W.Sink result self.old.out self.new.out
            (trace_line moment self.old.line direction bytes.now) }
        ensures same { self.new.line ≡ self.old.line }
    {
        let moment = self.out.millis();
        put_line(&mut self.out, moment, self.line, direction, bytes)
    }
}

impl<W: TraceSink + Drop> Observer for Tracer<W> {
    ghost use Rattle.mbdc_bus.specs.Tracer.{Traces};
    ghost use Rattle.mbdc_bus.specs.declared.trace.line.Direction.TheVariants.{Out, In};

    ghost sees_request = { Traces W.Sink Out };

    ghost sees_answer = { Traces W.Sink In };

    fn see_request(&mut self, request: &[u8]) {
        let _ = self.put(Direction::Out, request);
    }

    fn see_answer(&mut self, answer: &[u8]) {
        let _ = self.put(Direction::In, answer);
    }
}
