//! The codes by which a billing office's line is refused.

ghost use Rattle.std.specs.Prelude.{◌≡◌};
ghost use Rattle.dc_upload.specs.Code.{code_of, word_of};

use mbdc_change::ChangeFault;

/// Why a line is refused. The concentrator itself finds the first two and the last;
/// [`judge`](crate::judge) finds the others.
#[derive(Clone, Copy)]
pub enum Code {
    /// The text is no line of the billing office.
    Syntax,
    /// The store is stopped, or a commit failed.
    Store,
    /// The command's number isn't the next, and it doesn't repeat the last command.
    Order {
        /// The last command's number.
        last: u64,
    },
    /// The new meter is already registered.
    Known,
    /// The meter isn't registered.
    Unknown,
    /// Another meter has this primary address on the bus line.
    Address,
    /// The confirmed serial hasn't been given yet.
    Beyond,
    /// The first reading asked for is already confirmed.
    Gone {
        /// The last confirmed serial.
        confirmed: u64,
    },
    /// The state would exceed its budget.
    Full,
    /// Out of memory.
    Memory,
}

impl Code {
    /// The code of a change's fault.
    pub fn of(fault: ChangeFault) -> Code
        ensures { result ≡ code_of fault }
    {
        match fault {
            ChangeFault::Unknown => Code::Unknown,
            ChangeFault::Known => Code::Known,
            ChangeFault::AddressTaken => Code::Address,
            ChangeFault::Beyond => Code::Beyond,
            ChangeFault::Full => Code::Full,
        }
    }

    /// The code's word in a reply.
    pub fn word(&self) -> &'static str
        ensures { result.now ≡ word_of self.now }
    {
        match self {
            Code::Syntax => "SYNTAX",
            Code::Store => "STORE",
            Code::Order { .. } => "ORDER",
            Code::Known => "KNOWN",
            Code::Unknown => "UNKNOWN",
            Code::Address => "ADDRESS",
            Code::Beyond => "BEYOND",
            Code::Gone { .. } => "GONE",
            Code::Full => "FULL",
            Code::Memory => "MEMORY",
        }
    }
}
