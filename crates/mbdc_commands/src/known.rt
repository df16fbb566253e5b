//! Whether contracts know the bytes of a command's input and output.

use std::marker::Brand;

/// The input and the output of a command, as contracts see them.
pub(crate) trait Known {
    ghost use Rattle.std.specs.Prelude.{Bool};

    // Whether contracts know the bytes of the input, and those of the output.
    ghost reads: { Bool };

    ghost writes: { Bool };
}

impl Known for Brand {
    ghost use Rattle.std.specs.Prelude.{false};

    ghost reads = { false };

    ghost writes = { false };
}
