//! The links of a command.

ghost use Rattle.std.specs.Prelude.{◌≡◌};
ghost use Rattle.mbdc_commands.specs.Linked.{linked};

use mbdc_ending::Ending;
use mbdc_files::Why;
use mbdc_raw::links::reach::Unconnected;
use std::io;

/// The links that were connected, or the ending of the command without them.
pub fn links_of<'a, P: Drop>(
    why: &Why,
    peers: Result<Vec<Option<P>>, Unconnected<io::Error>>,
) -> Result<Vec<Option<P>>, Ending<'a>>
    ensures { result ≡ linked peers }
{
    match peers {
        Ok(peers) => Ok(peers),
        Err(Unconnected::Link(missed)) => Err(why.link(Some(missed.line), missed.why)),
        Err(Unconnected::NoMemory) => Err(Ending::Memory),
    }
}
