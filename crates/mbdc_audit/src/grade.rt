//! How reliable a number is.

ghost use Rattle.std.specs.Prelude.{◌≡◌};
ghost use Rattle.mbdc_audit.specs.Grade.{grade_name, rank, worst};

/// How reliable a number is, from the best to the worst.
#[derive(Clone, Copy)]
pub enum Grade {
    Measured,
    /// A value was put by a person.
    Hand,
    /// The step after its end is to come.
    Provisional,
    /// A value is an estimate, or those around an end are far apart.
    Estimated,
    /// The exchanges aren't those that are declared, or lack a value: no number.
    Unclear,
    /// A marked step touches it: no number.
    Disturbed,
    /// There is no value before it, or none after it: no number.
    Missing,
}

/// The first grade in the order without a number.
pub const UNCLEAR: u8 = 4;

impl Grade {
    /// The word for it, and its place in the order.
    pub fn told(self) -> (&'static str, u8)
        ensures name { result.0.now ≡ grade_name self }
        ensures rank { result.1 ≡ rank self }
    {
        match self {
            Grade::Measured => ("measured", 0),
            Grade::Hand => ("hand", 1),
            Grade::Provisional => ("provisional", 2),
            Grade::Estimated => ("estimated", 3),
            Grade::Unclear => ("unclear", 4),
            Grade::Disturbed => ("disturbed", 5),
            Grade::Missing => ("missing", 6),
        }
    }

    /// The worse one of two.
    pub fn worst(self, other: Grade) -> Grade
        ensures { result ≡ worst self other }
    {
        if self.told().1 < other.told().1 {
            other
        } else {
            self
        }
    }
}
