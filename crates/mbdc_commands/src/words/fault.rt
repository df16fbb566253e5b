//! Mistakes in the words of the command line.

use clap::Error;

/// The mistake in the word of a link.
#[derive(Clone, Copy)]
pub enum LinkFault {
    /// No bus line before a `=`.
    NoLine,
    /// The same bus line has two links.
    Twice,
    /// It begins with no scheme of a link.
    Scheme,
    /// The port is missing.
    Port,
    /// The path is missing.
    Path,
}

impl LinkFault {
    /// The message for the mistake.
    pub fn text(self) -> &'static str {
        match self {
            LinkFault::NoLine => "--line takes N=LINK, where N is a bus line from 1 to 8",
            LinkFault::Twice => "two links for one bus line",
            LinkFault::Scheme => { "a link is tcp://HOST:PORT, serial:PATH or blocks://HOST:PORT" }
            LinkFault::Port => "a link tcp:// or blocks:// has a port from 1 to 65535",
            LinkFault::Path => "a link serial: has the path of a terminal",
        }
    }
}

/// The mistake in the words.
#[derive(Drop)]
pub enum WordsFault {
    /// A message of `clap`, help and the version included.
    Clap(Error),
    /// A link.
    Link(LinkFault),
    /// A word that has to name a meter doesn't.
    Meter,
    /// A word that has to say how a meter is reached doesn't.
    Reached,
    /// No bus line has a link.
    NoLink,
    /// A word that has to be a time of silence isn't.
    Silence,
    /// `-` for a file that can't be standard input.
    Dash,
    /// A word that has to be a flat isn't.
    Flat,
    /// A word that has to be an address of the register isn't.
    Address,
    /// Out of memory.
    NoMemory,
}

impl From<LinkFault> for WordsFault {
    fn from(fault: LinkFault) -> Self {
        WordsFault::Link(fault)
    }
}
