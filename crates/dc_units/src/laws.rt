//! What the texts promise beyond their definitions.
ghost use Rattle.std.specs.Prelude.{◌≡◌, ℕ, ◌/◌, ◌^◌, ◌<◌, ◌++◌, length, decimal};
ghost use Rattle.std.specs.Str.Parse.{digits_value};
ghost use Rattle.dc_units.specs.Text.{last_digits};

/// A number with digits after the point loses nothing: the digits before and after the point are, read
/// on, the mantissa again, and after the point there are the digits that were asked for.
pub fn texts_are_exact()
    ensures digits { (n places : ℕ) → n < 2 ^ 64
        → digits_value 10 (decimal (n / 10 ^ places) ++ last_digits 10 places n) ≡ n }
    ensures places { (base count n : ℕ) → length (last_digits base count n) ≡ count }
{}
