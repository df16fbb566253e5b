//! The steps of a search.

use crate::answer::meter_of;
use crate::branch::Branch;
use crate::fault::SearchFault;
use crate::step::Step;
use dc_address::Identity;
use mbdc_io::NoMemory;
use std::alloc::Allocator;
use std::marker::Model;

/// A wildcard search: the masks due, and what was found.
#[derive(Drop)]
pub struct Search<A: Allocator + Copy> {
    // The mask that is selected next or was selected last, and those after it, the last of them first.
    current: Option<Branch>,
    later: Vec<Branch, A>,
    answered: bool,
    found: Vec<Identity, A>,
    shared: Vec<u32, A>,
    selections: u32,
    budget: u32,
}

impl<A: Allocator + Copy> Model for Search<A> {
    ghost use Rattle.dc_search.specs.State.{SearchState, due_of, IsSearch};

    ghost Value = { SearchState };

    ghost view = { λ s. record {
      due = due_of s.current s.later.items;
      answered = s.answered;
      found = s.found.items;
      shared = s.shared.items;
      selections = s.selections;
      budget =
          s.budget;
    } };

    ghost invariant = { λ s. IsSearch s.current s.later.items s.selections s.budget };
}

impl<A: Allocator + Copy> Search<A> {
    ghost use Rattle.std.specs.Prelude.{◌≡◌, ◌≢◌, ◌↔◌, ◌<◌, OnOk, OnErr, IsTrue, Some, Err, []};
    ghost use Rattle.std.specs.Prelude.{reverse};
    ghost use Rattle.dc_search.specs.State.{after, after_collision, after_meter, after_one};
    ghost use Rattle.dc_search.specs.State.{after_selection, after_shared, after_split, children};
    ghost use Rattle.dc_search.specs.State.{first_of, is_idle, new_search, next_due, settled, step_of};
    ghost use Rattle.dc_search.specs.Prefix.{mask_of_digits};
    ghost use Rattle.dc_address.specs.Mask.{matches};
    ghost use Rattle.std.specs.Int.Digits.{number_from_digits};
    ghost use Rattle.dc_search.specs.declared.step.Step.TheVariants.{Request};

    /// Starts a search of at most `budget` selections.
    pub fn new(alloc: A, budget: u32) -> Search<A>
        ensures { result ≡ new_search budget }
    {
        Search {
            current: Some(Branch::root()),
            later: Vec::new(alloc),
            answered: false,
            found: Vec::new(alloc),
            shared: Vec::new(alloc),
            selections: 0,
            budget,
        }
    }

    /// The next step.
    pub fn next(&self) -> Step
        ensures { result ≡ step_of self.now }
    {
        match &self.current {
            None => Step::Done,
            Some(_) if self.answered => Step::Request,
            Some(branch) if self.selections < self.budget => Step::Select(branch.mask()),
            Some(_) => Step::Budget,
        }
    }

    /// The meters found so far, in the order in which they were found: ascending by number, if each
    /// answers for itself.
    pub fn found(&self) -> &[Identity]
        ensures { result.now ≡ self.now.found }
    {
        &self.found
    }

    /// The numbers found so far that several meters have, in the order in which they were found.
    pub fn shared(&self) -> &[u32]
        ensures { result.now ≡ self.now.shared }
    {
        &self.shared
    }

    /// Number of selections made whose answers were received.
    pub fn selections(&self) -> u32
        ensures { result ≡ self.now.selections }
    {
        self.selections
    }

    /// The mask that is selected next, or was selected last and is to be requested.
    pub fn due(&self) -> Option<Branch>
        ensures { result ≡ next_due self.now.due }
    {
        self.current
    }

    /// Takes the answer to the next step; no byte is silence. A selection is counted here.
    pub fn heard(&mut self, bytes: &[u8]) -> Result<(), SearchFault>
        ensures ok { OnOk result (self.new ≡ after bytes.now self.old) }
        ensures err { OnErr result (self.new ≡ self.old) }
        ensures idle { (result ≡ Err SearchFault.Idle) ↔ IsTrue (is_idle (step_of self.old)) }
        // Only the answer to a request can need memory.
        ensures memory { result ≡ Err SearchFault.NoMemory → step_of self.old ≡ Request }
    {
        match self.next() {
            Step::Done | Step::Budget => Err(SearchFault::Idle),
            Step::Select(_) => {
                self.hear_selection(bytes);
                Ok(())
            }
            Step::Request => match self.hear_meter(meter_of(bytes)) {
                Ok(()) => Ok(()),
                Err(_) => Err(SearchFault::NoMemory),
            },
        }
    }

    fn hear_selection(&mut self, bytes: &[u8])
        requires { self.old.selections < self.old.budget }
        ensures { self.new ≡ after_selection bytes.now self.old }
    {
        self.selections += 1;
        if bytes.is_empty() {
            self.settle();
        } else {
            self.answered = true;
        }
    }

    fn hear_meter(&mut self, meter: Option<Identity>) -> Result<(), NoMemory>
        requires { self.old.due ≢ [] }
        ensures ok { OnOk result (self.new ≡ after_meter meter self.old) }
        ensures err { OnErr result (self.new ≡ self.old) }
    {
        match meter {
            Some(meter) => self.hear_one(meter),
            None => self.collide(),
        }
    }

    fn hear_one(&mut self, meter: Identity) -> Result<(), NoMemory>
        requires { self.old.due ≢ [] }
        ensures ok { OnOk result (self.new ≡ after_meter (Some meter) self.old) }
        ensures err { OnErr result (self.new ≡ self.old) }
    {
        if self.asks_for(&meter) {
            self.find(meter)
        } else {
            self.collide()
        }
    }

    fn asks_for(&self, meter: &Identity) -> bool
        requires { self.now.due ≢ [] }
        ensures { result ≡ matches (mask_of_digits (first_of self.now.due)) meter.now }
    {
        match &self.current {
            Some(branch) => branch.mask().matches(meter),
            None => false,
        }
    }

    fn find(&mut self, meter: Identity) -> Result<(), NoMemory>
        ensures ok { OnOk result (self.new ≡ after_one meter self.old) }
        ensures err { OnErr result (self.new ≡ self.old) }
    {
        self.found.push(meter)?;
        self.settle();
        Ok(())
    }

    fn collide(&mut self) -> Result<(), NoMemory>
        requires { self.old.due ≢ [] }
        ensures ok { OnOk result (self.new ≡ after_collision self.old) }
        ensures err { OnErr result (self.new ≡ self.old) }
    {
        let Some(branch) = self.current else {
            return Ok(());
        };
        if branch.is_full() {
            self.share(branch.number())
        } else {
            self.split(branch.children())
        }
    }

    fn share(&mut self, number: u32) -> Result<(), NoMemory>
        requires { number ≡ number_from_digits 10 (first_of self.old.due) }
        ensures ok { OnOk result (self.new ≡ after_shared self.old) }
        ensures err { OnErr result (self.new ≡ self.old) }
    {
        self.shared.push(number)?;
        self.settle();
        Ok(())
    }

    fn split(&mut self, branches: [Branch; 10]) -> Result<(), NoMemory>
        requires due { self.old.due ≢ [] }
        requires next { branches ≡ reverse (children (first_of self.old.due)) }
        ensures ok { OnOk result (self.new ≡ after_split self.old) }
        ensures err { OnErr result (self.new ≡ self.old) }
    {
        self.later.extend_from_slice(&branches)?;
        self.settle();
        Ok(())
    }

    /// Goes on to the next mask.
    fn settle(&mut self)
        ensures { self.new ≡ settled self.old }
    {
        self.answered = false;
        self.current = self.later.pop();
    }
}
