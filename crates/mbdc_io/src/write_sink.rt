//! A writer of std as a sink, whose bytes no contract knows.

ghost use Rattle.std.specs.Prelude.{◌≡◌, ◌≤◌, None, length, IfOk, OnOk, OnErr};
ghost use Rattle.std.specs.Io.KnownBytes.{Keeps, Appends};
ghost use Rattle.mbdc_io.specs.Failures.{HasRisen};
ghost use Rattle.mbdc_io.specs.Stream.{PutsFront};

use crate::one_failure_more;
use crate::stream::{IoFault, Sink};
use std::io::Write;

/// A writer of std as a sink. Bytes put into a buffered writer are written out by
/// [`WriteSink::flush`].
#[derive(Drop)]
pub struct WriteSink<W: Write + Drop> {
    /// The writer.
    pub writer: W,
    /// Number of puts and flushes that failed.
    pub failures: u64,
}

impl<W: Write + Drop> WriteSink<W> {
    /// Wraps the writer, with no failures counted.
    pub fn new(writer: W) -> Self
        ensures { result ≡ record { writer = writer; failures = 0 } }
    {
        WriteSink {
            writer,
            failures: 0,
        }
    }

    /// Writes out what the writer holds back.
    pub fn flush(&mut self) -> Result<(), IoFault>
        ensures bytes { Keeps (W.contents self.old.writer) (W.contents self.new.writer) }
        ensures ok { OnOk result (self.new.failures ≡ self.old.failures) }
        ensures err { OnErr result (HasRisen self.old.failures self.new.failures) }
    {
        if self.writer.flush().is_err() {
            self.failures = one_failure_more(self.failures);
            return Err(IoFault);
        }
        Ok(())
    }
}

impl<W: Write + Drop> Sink for WriteSink<W> {
    ghost written = { λ _. None };

    ghost put_failures = { λ s. s.failures };

    // The last clause states of the writer what the trait's clauses don't.
    #[tactic(auto, using(crate::proofs::Pieces::told))]
    fn put(&mut self, bytes: &[u8]) -> Result<(), IoFault>
        ensures well { OnOk result (self.new.failures ≡ self.old.failures) }
        ensures front { OnErr result (PutsFront None None bytes.now) }
        ensures failed { OnErr result (HasRisen self.old.failures self.new.failures) }
        ensures writer { OnOk result (Appends (W.contents self.old.writer)
            (W.contents self.new.writer) bytes.now) }
    {
        if self.writer.write_all(bytes).is_err() {
            self.failures = one_failure_more(self.failures);
            return Err(IoFault);
        }
        Ok(())
    }
}
