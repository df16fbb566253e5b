//! Why a search rejects an answer.

use thiserror::Error;

/// Why an answer was rejected; the search is unchanged.
#[derive(Clone, Copy, Debug, Error)]
#[error("{} {}", self.number(), self.name())]
pub enum SearchFault {
    /// No answer was expected: the search is done, or its budget is spent.
    Idle,
    /// Out of memory; the same bytes can be passed again.
    NoMemory,
}

impl SearchFault {
    ghost use Rattle.std.specs.Prelude.{◌≡◌};
    ghost use Rattle.dc_search.specs.Fault.{number_of, name_of};

    /// The fault's number.
    pub fn number(self) -> u8
        ensures { result ≡ number_of self }
    {
        match self {
            SearchFault::Idle => 1,
            SearchFault::NoMemory => 2,
        }
    }

    /// The fault's name, as printed.
    pub fn name(self) -> &'static str
        ensures { result.now ≡ name_of self }
    {
        match self {
            SearchFault::Idle => "Idle",
            SearchFault::NoMemory => "NoMemory",
        }
    }
}
