//! A reader of std as a source whose bytes contracts know, where they know the reader's.

ghost use Rattle.std.specs.Prelude.{◌≡◌, true};
ghost use Rattle.mbdc_commands.specs.Bytes.{has_text, text_of};

use crate::known::Known;
use mbdc_io::{IoFault, ReadSource, Source};
use std::io::Read;
use std::marker::PhantomData;

/// A reader of std as a source.
#[derive(Drop)]
pub(crate) struct KnownSource<R: Read + Drop, K: Known> {
    /// The reader.
    pub source: ReadSource<R>,
    of: PhantomData<K>,
    ghost is_held: { has_text K.reads true (R.remaining source.reader) ≡ true },
}

impl<R: Read + Drop, K: Known> KnownSource<R, K> {
    /// Wraps the reader.
    pub fn new(reader: R) -> Self
        requires { has_text K.reads true (R.remaining reader) ≡ true }
        ensures reader { result.source.reader ≡ reader }
        ensures well { result.source.failures ≡ 0 }
    {
        KnownSource {
            source: ReadSource::new(reader),
            of: PhantomData,
        }
    }
}

impl<R: Read + Drop, K: Known> Source for KnownSource<R, K> {
    ghost use Rattle.std.specs.Prelude.{true};
    ghost use Rattle.mbdc_commands.specs.Bytes.{text_of};

    ghost left = { λ s. text_of K.reads true (R.remaining s.source.reader) };

    ghost take_failures = { λ s. s.source.failures };

    fn take(&mut self, room: &mut [u8]) -> Result<usize, IoFault> {
        self.source.take(room)
    }
}
