//! What ends a script early.

ghost use Rattle.std.specs.Prelude.{◌≡◌};
ghost use Rattle.dc_poller.specs.Halt.{halted_by};

use mbdc_io::IoFault;

/// Why a script ended early.
#[derive(Clone, Copy)]
pub enum Halt {
    /// A write failed.
    Write,
    /// A search ran out of memory.
    NoMemory,
}

/// The result of a write; a failed one ends the script.
pub fn written(put: Result<(), IoFault>) -> Result<(), Halt>
    ensures { result ≡ halted_by put }
{
    match put {
        Ok(()) => Ok(()),
        Err(IoFault) => Err(Halt::Write),
    }
}
