//! Where the text of a command goes.

use mbdc_io::{IoFault, Sink, WriteSink};
use std::io::Write;

/// A sink that may hold bytes back until it is flushed.
pub trait Printer: Sink {
    ghost use Rattle.std.specs.Prelude.{◌≡◌, OnErr};
    ghost use Rattle.mbdc_io.specs.Failures.{HasRisen};

    /// Writes out what is held back.
    ///
    /// # Errors
    /// A write failed.
    fn flush(&mut self) -> Result<(), IoFault>
        ensures bytes { Self.written self.new ≡ Self.written self.old }
        ensures failed { OnErr result
            (HasRisen (Self.put_failures self.old) (Self.put_failures self.new)) };
}

impl<W: Write + Drop> Printer for WriteSink<W> {
    fn flush(&mut self) -> Result<(), IoFault> {
        WriteSink::flush(self)
    }
}
