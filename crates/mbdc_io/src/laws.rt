//! Theorems about the definitions of hex digits and lines.

ghost use Rattle.std.specs.Prelude.{◌≡◌, ℕ, ◌<◌, List, [], ◌∷◌, ◌++◌, length, Some};
ghost use Rattle.std.specs.List.{AllByRecursion};
ghost use Rattle.mbdc_io.specs.Hex.{bytes_of, upper_hex};
ghost use Rattle.mbdc_io.specs.Lines.{LacksFeed, lines_of};

/// An input splits into lines at its line feeds.
pub fn lines_end_at_feeds()
    // A line feed ends a line and starts none.
    ensures ended { (line rest : List ℕ) → LacksFeed line
        → lines_of (line ++ 10 ∷ rest) ≡ line ∷ lines_of rest }
    // The end of the input ends a line that isn't empty.
    ensures last { (line : List ℕ) → 0 < length line → LacksFeed line → lines_of line ≡ line ∷ [] }
    ensures empty { lines_of [] ≡ [] }
{}

/// Bytes written in capital hex digits decode to the same bytes.
pub fn hex_is_read_back()
    ensures { (bytes : List ℕ) → AllByRecursion (λ b. b < 256) bytes
        → bytes_of (upper_hex bytes) ≡ Some bytes }
{}
