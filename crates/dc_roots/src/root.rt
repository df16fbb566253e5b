//! The fields of a root.

ghost use Rattle.std.specs.Prelude.{◌≡◌};

/// The fields of a root sector.
#[derive(Clone, Copy)]
pub struct Root {
    /// The version of the image's sectors.
    pub version: u8,
    /// The half in use, 0 or 1.
    pub half: u8,
    /// The generation: each root that is written has the next one.
    pub generation: u64,
    /// The session that may write groups once this root is synced.
    pub session: u64,
    /// The sequence of the half's base group.
    pub base_sequence: u64,
    /// Number of sectors of a half.
    pub half_len: u32,
}

impl Root {
    ghost use Rattle.dc_roots.specs.Root.{slot};

    /// The sector that holds a root of this generation: 1 or 2.
    pub fn slot(&self) -> u32
        ensures { result ≡ slot self.now.generation }
    {
        1 + (self.generation % 2) as u32
    }
}
