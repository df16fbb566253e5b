//! The fixed part of a telegram's body.

ghost use Rattle.std.specs.Prelude.{◌≡◌};

use crate::fault::BodyFault;
use byteorder::{ByteOrder, LittleEndian};
use dc_address::Identity;

// How many bytes a header has.
pub const HEADER_LEN: usize = 12;

/// The header of a telegram (EN 13757-3, the long data header).
#[derive(Clone, Copy)]
pub struct Header {
    /// The meter's identity: identification number, manufacturer, version and device type.
    pub identity: Identity,
    /// The access number.
    pub access: u8,
    /// The status: bits 1 and 0 application, 2 power low, 3 permanent error, 4 temporary error.
    pub status: u8,
    /// The configuration; bits 12 to 8 are the security mode.
    pub config: u16,
}

impl Header {
    ghost use Rattle.std.specs.Prelude.{IfOk, IfErr, Ok, Err};
    ghost use Rattle.dc_records.specs.Header.{BeginsWithHeader, HasHeaderFault, header_at};
    ghost use Rattle.dc_records.specs.Header.{security_mode};
    ghost use Rattle.dc_records.specs.declared.header.Header.{Header};
    ghost use Rattle.dc_records.specs.declared.fault.BodyFault.{BodyFault};

    /// Reads the header at the front of a body; what follows it isn't looked at. Its faults are `Short` and
    /// `BadIdentity`.
    pub fn read(body: &[u8]) -> Result<Header, BodyFault>
        // What is read is a header, and each header is read.
        ensures found { IfOk result (BeginsWithHeader body.now) }
        ensures only { (h : Header) → BeginsWithHeader body.now h → result ≡ Ok h }

        // The fault is the one that stands, and one that stands is answered.
        ensures refused { IfErr result (HasHeaderFault body.now) }
        ensures fault { (f : BodyFault) → HasHeaderFault body.now f → result ≡ Err f }

        ensures exact { result ≡ header_at body.now }
    {
        Header::read_exact(body)
    }

    // The same by the reading function alone, from which `read` draws its clauses.
    #[tactic(auto, using(crate::proofs::Spellings::Headers::at_short))]
    fn read_exact(body: &[u8]) -> Result<Header, BodyFault>
        ensures { result ≡ header_at body.now }
    {
        let Some((wire, [access, status, low, high, ..])) = body.split_first_chunk::<8>() else {
            return Err(BodyFault::Short);
        };
        let Some(identity) = Identity::from_wire(wire) else {
            return Err(BodyFault::BadIdentity);
        };
        Ok(Header {
            identity,
            access: *access,
            status: *status,
            config: LittleEndian::read_u16(&[*low, *high]),
        })
    }

    /// The security mode; 0 where the body isn't encrypted.
    pub(crate) fn security_mode(&self) -> u16
        ensures { result ≡ security_mode self.now }
    {
        self.config / 256 % 32
    }
}
