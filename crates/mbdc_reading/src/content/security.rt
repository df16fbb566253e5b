//! What a configuration field says of a body's security, and the media of fixed data.

ghost use Rattle.std.specs.Prelude.{◌≡◌, ◌≤◌, length};
ghost use Rattle.mbdc_reading.specs.Security.{medium_of, security_name, security_of};

/// The security of a body (EN 13757-3, configuration field): the mode, and in modes 5 and 7 how many blocks of 16 bytes
/// are encrypted.
#[derive(Clone, Copy)]
pub struct Security {
    pub mode: u8,
    pub blocks: Option<u8>,
}

impl Security {
    /// What a configuration field says: the mode in bits 12 to 8, the blocks in bits 7 to 4.
    pub fn of(config: u16) -> Security
        ensures { result ≡ security_of config }
    {
        let mode = (config / 256 % 32) as u8;
        let blocks = match mode {
            5 | 7 => Some((config / 16 % 16) as u8),
            _ => None,
        };
        Security { mode, blocks }
    }
}

/// The name of a security mode (EN 13757-3, configuration field; OMS Volume 2).
pub fn security_name(mode: u8) -> &'static str
    ensures value { result.now ≡ security_name mode }
    ensures short { length result.now ≤ 32 }
{
    match mode {
        0 => "none",
        1 => "manufacturer specific",
        2 => "DES-CBC, zero vector",
        3 => "DES-CBC",
        4 => "AES-128-CBC, zero vector",
        5 => "AES-128-CBC",
        7 => "AES-128-CBC, derived key",
        8 => "AES-128-CTR, CMAC",
        9 => "AES-128-GCM",
        10 => "AES-128-CCM",
        13 => "TLS",
        _ => "reserved",
    }
}

/// The name of a medium of the fixed data structure (EN 13757-3); those of mode 2 have the name of the medium.
pub fn medium_of(medium: u8) -> &'static str
    ensures { result.now ≡ medium_of medium }
{
    match medium {
        0 => "other",
        1 => "oil",
        2 => "electricity",
        3 | 10 => "gas",
        4 | 11 => "heat",
        5 => "steam",
        6 | 12 => "warm-water",
        7 | 13 => "water",
        8 | 14 => "heat-cost-allocator",
        _ => "reserved",
    }
}
