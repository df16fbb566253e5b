//! The name of a link: how a bus line is reached.

ghost use Rattle.std.specs.Prelude.{◌≡◌, ◌++◌, ◌↔◌, IfOk, IfErr, IsTrue, MatchResult, codes};
ghost use Rattle.mbdc_commands.specs.Link.{word_of, IsLink, IsMistake, IsPlace, IsPort};

use crate::words::fault::LinkFault;

/// How a bus line is reached.
#[derive(Clone, Copy)]
pub enum LinkName<'a> {
    /// A transparent gateway at `HOST:PORT`: the bytes of the bus over TCP.
    Tcp(&'a str),
    /// A serial level converter at a terminal.
    Serial(&'a str),
    /// A gateway at `HOST:PORT` that speaks the block protocol.
    Blocks(&'a str),
}

const TCP: &str = "tcp://";

const SERIAL: &str = "serial:";

const BLOCKS: &str = "blocks://";

impl<'a> LinkName<'a> {
    /// The link that a word names.
    ///
    /// # Errors
    /// [`LinkFault::Scheme`], [`LinkFault::Port`] and [`LinkFault::Path`].
    pub fn parse(word: &'a str) -> Result<LinkName<'a>, LinkFault>
        ensures spelled { IfOk result (λ link. word.now ≡ word_of link) }
        ensures whole { IfOk result IsLink }
        ensures refused { IfErr result (λ fault. IsMistake fault word.now) }
    {
        if let Some(place) = word.strip_prefix(TCP) {
            return Ok(LinkName::Tcp(with_port(place)?));
        }
        if let Some(place) = word.strip_prefix(BLOCKS) {
            return Ok(LinkName::Blocks(with_port(place)?));
        }
        match word.strip_prefix(SERIAL) {
            Some("") => Err(LinkFault::Path),
            Some(path) => Ok(LinkName::Serial(path)),
            None => Err(LinkFault::Scheme),
        }
    }

    /// The link of a gateway, which speaks the block protocol.
    ///
    /// # Errors
    /// [`LinkFault::Port`].
    pub fn gateway(place: &'a str) -> Result<LinkName<'a>, LinkFault>
        ensures blocks { IfOk result (λ link. word_of link ≡ codes "blocks://" ++ place.now) }
        ensures whole { IfOk result (λ _. IsPlace place.now) }
        ensures refused { IfErr result (λ fault. (fault ≡ LinkFault.Port) × ¬ (IsPlace place.now)) }
    {
        Ok(LinkName::Blocks(with_port(place)?))
    }
}

// The place, where a port from 1 to 65535 follows its last colon.
fn with_port(place: &str) -> Result<&str, LinkFault>
    ensures { MatchResult result (λ same. (same.now ≡ place.now) × IsPlace place.now)
        (λ fault. (fault ≡ LinkFault.Port) × ¬ (IsPlace place.now)) }
{
    match place.rsplit_once(':') {
        Some((host, port)) if !host.is_empty() && is_port(port) => Ok(place),
        _ => Err(LinkFault::Port),
    }
}

// Whether a port is a number from 1 to 65535, without a sign.
fn is_port(port: &str) -> bool
    ensures { IsTrue result ↔ IsPort port.now }
{
    if port.starts_with('+') {
        return false;
    }
    match port.parse::<u16>() {
        Ok(0) | Err(_) => false,
        Ok(_) => true,
    }
}
