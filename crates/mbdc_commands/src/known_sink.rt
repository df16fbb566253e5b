//! A writer of std as a sink whose bytes contracts know, where they know the writer's.

ghost use Rattle.std.specs.Prelude.{◌≡◌, ◌==◌, true, IsTrue};
ghost use Rattle.std.specs.Io.KnownBytes.{Keeps};
ghost use Rattle.std.specs.Io.Buffered.{line_writer_contents};
ghost use Rattle.mbdc_commands.specs.Bytes.{has_text, text_of};

use crate::known::Known;
use mbdc_io::{IoFault, Sink, WriteSink, one_failure_more};
use std::io::{LineWriter, Write};
use std::marker::PhantomData;

/// A writer of std as a sink. After a failure it takes nothing more.
#[derive(Drop)]
pub(crate) struct KnownSink<W: Write + Drop, K: Known> {
    /// The writer.
    pub sink: WriteSink<W>,
    of: PhantomData<K>,
    ghost is_held: { has_text K.writes (sink.failures == 0) (W.contents sink.writer) ≡ true },
}

impl<W: Write + Drop, K: Known> KnownSink<W, K> {
    /// Wraps the writer.
    pub fn new(writer: W) -> Self
        requires { has_text K.writes true (W.contents writer) ≡ true }
        ensures writer { result.sink.writer ≡ writer }
        ensures well { result.sink.failures ≡ 0 }
    {
        KnownSink {
            sink: WriteSink::new(writer),
            of: PhantomData,
        }
    }
}

impl<W: Write + Drop, K: Known> Sink for KnownSink<W, K> {
    ghost use Rattle.std.specs.Prelude.{◌==◌};
    ghost use Rattle.mbdc_commands.specs.Bytes.{text_of};

    ghost written = { λ s. text_of K.writes (s.sink.failures == 0) (W.contents s.sink.writer) };

    ghost put_failures = { λ s. s.sink.failures };

    fn put(&mut self, bytes: &[u8]) -> Result<(), IoFault> {
        if self.sink.failures > 0 {
            self.sink.failures = one_failure_more(self.sink.failures);
            return Err(IoFault);
        }
        self.sink.put(bytes)
    }
}

/// Whether all was written, once what the buffer holds back is written out.
pub(crate) fn is_written_out<O: Write + Drop, K: Known>(sink: KnownSink<LineWriter<O>, K>) -> bool
    ensures well { IsTrue result → sink.sink.failures ≡ 0 }
    ensures left { IsTrue result → (left : O)
        × Keeps (line_writer_contents O.contents sink.sink.writer) (O.contents left) }
{
    let KnownSink { sink, .. } = sink;
    let mut sink = sink;
    sink.failures == 0 && sink.flush().is_ok() && sink.writer.into_inner().is_ok()
}
