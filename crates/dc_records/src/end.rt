//! How the items of a body end.

ghost use Rattle.std.specs.Prelude.{◌≡◌};

/// How a body ends (EN 13757-3, the special DIFs 0F and 1F).
#[derive(Clone, Copy)]
pub enum End<'a> {
    /// With its last item.
    Plain,
    /// With DIF 0F and manufacturer specific data.
    Last(&'a [u8]),
    /// With DIF 1F and manufacturer specific data; more records follow in the next telegram.
    More(&'a [u8]),
}
