//! Which bus line has which link.

ghost use Rattle.std.specs.Prelude.{◌≡◌, ◌≢◌, ◌≤◌, ◌+◌, ◌∷◌, ◌↔◌, ℕ, [], None, IsTrue};
ghost use Rattle.std.specs.Prelude.{IfErr, IfNone, IfSome, OnOk, OnErr};
ghost use Rattle.std.specs.List.{All};
ghost use Rattle.mbdc_commands.specs.Link.{IsLink};
ghost use Rattle.mbdc_commands.specs.Links.{Adds, IsLineMistake, IsTaken, line_word};
ghost use Rattle.mbdc_commands.specs.declared.words.link.LinkName.{LinkName as Link};

use crate::words::fault::LinkFault;
use crate::words::link::LinkName;

/// Number of bus lines.
pub const LINES: usize = 8;

/// The links of the bus lines 1 to 8; no line has two.
#[derive(Clone, Copy)]
pub struct Links<'a> {
    /// The links by line: the first is that of line 1.
    pub links: [Option<LinkName<'a>>; LINES],
}

impl<'a> Links<'a> {
    /// No line has a link.
    pub fn none() -> Self
        ensures { All (λ link. link ≡ None) result.links }
    {
        Links {
            links: [None; LINES],
        }
    }

    /// Whether no line has a link.
    pub fn is_empty(&self) -> bool
        ensures { IsTrue result ↔ All (λ link. link ≡ None) self.now.links }
    {
        self.links.iter().all(|link| link.is_none())
    }

    /// Gives a line its link, by a word `N=LINK`.
    ///
    /// # Errors
    /// [`LinkFault`]: no line from 1 to 8, no link, or the line has one already. Nothing is changed then.
    pub fn add(&mut self, word: &'a str) -> Result<(), LinkFault>
        ensures added { OnOk result ((place : ℕ) × (link : Link) × (word.now ≡ line_word place link)
            × IsLink link × Adds place link self.old.links self.new.links) }
        ensures refused { IfErr result (λ fault. IsLineMistake fault word.now self.old.links) }
        ensures kept { OnErr result (self.new ≡ self.old) }
    {
        let (line, link) = word.split_once('=').ok_or(LinkFault::NoLine)?;
        let place = place_of(line).ok_or(LinkFault::NoLine)?;
        let link = LinkName::parse(link)?;
        if self.links[place].is_some() {
            return Err(LinkFault::Twice);
        }
        self.links[place] = Some(link);
        Ok(())
    }
}

// The place of a line among the links, by its one digit.
fn place_of(line: &str) -> Option<usize>
    ensures within { IfSome result (λ place. place ≤ 7) }
    ensures digit { IfSome result (λ place. line.now ≡ (49 + place) ∷ []) }
    ensures none { IfNone result ((place : ℕ) → place ≤ 7 → line.now ≢ (49 + place) ∷ []) }
{
    match line.as_bytes() {
        [digit @ b'1'..=b'8'] => Some(usize::from(*digit - b'1')),
        _ => None,
    }
}
