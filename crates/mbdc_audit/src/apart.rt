//! Whether places are apart from those before them: no meter is at two places at one time, and a flat has one user at a
//! time.

ghost use Rattle.std.specs.Prelude.{◌≡◌, ◌↔◌, [], All, IsTrue, List, OnOk, map};
ghost use Rattle.mbdc_audit.specs.Sound.{AreTwo, Fitted as SaidFitted, IsOnce, IsOneTenancy, Lived as SaidLived};
ghost use Rattle.mbdc_audit.specs.Sound.{fitted_of, lived_of};
ghost use Rattle.mbdc_audit.specs.View.{part_of, place_of};
ghost use Rattle.mbdc_audit.specs.Walk.{Checks, IsAdded, IsMet, Meets, fit, key_lived, key_of, live};

use crate::curve::Run;
use crate::fault::Stop;
use crate::house::{Part, Place};
use crate::index::{Index, flat_key};
use crate::sound::is_one_meter;
use crate::teller::Piece::{Number, Text};
use crate::teller::Teller;
use mbdc_io::{IoFault, Sink};
use std::alloc::Allocator;

/// A run with its use, and the number of its place.
#[derive(Clone, Copy)]
pub(crate) struct Fitted<'a> {
    run: Run<'a>,
    used: u64,
    place: u64,
}

/// A part with its flat, and the number of its place.
#[derive(Clone, Copy)]
pub(crate) struct Lived<'a> {
    part: Part,
    flat: &'a [u8],
    place: u64,
}

/// What the places so far have; of each key an index has the numbers of those with the key.
#[derive(Drop)]
pub(crate) struct Met<T: Copy, A: Allocator + Copy> {
    items: Vec<T, A>,
    index: Index<A>,
}

impl<T: Copy, A: Allocator + Copy> Met<T, A> {
    /// Nothing.
    pub fn new(alloc: A) -> Self
        ensures none { result.items.items ≡ [] }
    {
        Met {
            items: Vec::new(alloc),
            index: Index::new(alloc),
        }
    }

    // Adds one more, by its key.
    fn add(&mut self, key: u64, item: T) -> Result<(), Stop>
        ensures { OnOk result (IsAdded key item self.old self.new) }
    {
        self.index.add(key, self.items.len() as u64)?;
        self.items.push(item)?;
        Ok(())
    }
}

// Whether two runs are two values of a meter: of two uses, by two VIBs that are named.
fn are_two(one: &Fitted<'_>, other: &Fitted<'_>) -> bool
    ensures { IsTrue result ↔ AreTwo (fit one.now) (fit other.now) }
{
    let (vib, another) = (one.run.vib, other.run.vib);
    one.used != other.used && !vib.is_empty() && !another.is_empty() && vib != another
}

// Whether two runs aren't of one meter at one time, or are two values of it.
fn is_once(one: &Fitted<'_>, other: &Fitted<'_>) -> bool
    ensures { IsTrue result ↔ IsOnce (fit one.now) (fit other.now) }
{
    let (run, another) = (&one.run, &other.run);
    if !is_one_meter(run, another) || run.is_over(another.begin) || another.is_over(run.begin) {
        return true;
    }
    are_two(one, other)
}

// Whether parts of a flat that overlap in time are of one user.
fn is_one_tenancy(one: &Lived<'_>, other: &Lived<'_>) -> bool
    ensures { IsTrue result ↔ IsOneTenancy (live one.now) (live other.now) }
{
    let (part, another) = (&one.part, &other.part);
    let overlap = part.from < another.to && another.from < part.to;
    one.flat != other.flat || !overlap || part.user == another.user
}

impl<'s, W: Sink> Teller<'s, W> {
    /// No meter of a place, by its number from 1, is there or at one before it twice at one time.
    pub fn check_meters<'a, A: Allocator + Copy>(
        &mut self,
        met: &mut Met<Fitted<'a>, A>,
        place: &Place<'a, A>,
        number: u64,
    ) -> Result<(), Stop>
        ensures { OnOk result ((xs : List SaidFitted) → IsMet key_of fit met.old xs
            → Meets key_of fit IsOnce self.old.counts self.new.counts met.new xs (fitted_of (place_of place.now))) }
    {
        'runs: for run in &place.runs {
            let one = Fitted {
                run: *run,
                used: place.used,
                place: number,
            };
            self.check_meter(met, &one)?;
            met.add(u64::from(run.identity.number), one)?;
        }
        Ok(())
    }

    // A meter isn't one of those before it at one time.
    fn check_meter<'a, A: Allocator + Copy>(
        &mut self,
        met: &Met<Fitted<'a>, A>,
        one: &Fitted<'a>,
    ) -> Result<(), IoFault>
        ensures { (xs : List SaidFitted) → IsMet key_of fit met.now xs
            → Checks result self.old.counts self.new.counts (All (λ x. IsOnce x (fit one.now)) xs) }
    {
        let text = one.run.identity.text();
        let numbers = met.index.at(u64::from(one.run.identity.number));
        'numbers: for number in numbers {
            let Some(that) = met.items.get(*number as usize) else {
                continue;
            };
            let words = [
                Text(&text),
                Text(b" is at places "),
                Number(that.place),
                Text(b" and "),
                Number(one.place),
                Text(b" at one time"),
            ];
            self.unless(is_once(that, one), one.run.line, "Twice", &words)?;
        }
        Ok(())
    }

    /// The flat of a place has one user at a time in its parts and those of the places before it.
    pub fn check_tenancy<'a, A: Allocator + Copy>(
        &mut self,
        met: &mut Met<Lived<'a>, A>,
        place: &Place<'a, A>,
        number: u64,
    ) -> Result<(), Stop>
        ensures { OnOk result ((xs : List SaidLived) → IsMet key_lived live met.old xs
            → Meets key_lived live IsOneTenancy self.old.counts self.new.counts met.new xs
            (lived_of (place_of place.now))) }
    {
        'windows: for window in &place.windows {
            self.check_users_of(met, place.flat, number, &window.parts)?;
        }
        Ok(())
    }

    // The same of parts of a flat.
    fn check_users_of<'a, A: Allocator + Copy>(
        &mut self,
        met: &mut Met<Lived<'a>, A>,
        flat: &'a [u8],
        number: u64,
        parts: &[Part],
    ) -> Result<(), Stop>
        ensures { OnOk result ((xs : List SaidLived) → IsMet key_lived live met.old xs
            → Meets key_lived live IsOneTenancy self.old.counts self.new.counts met.new xs
            (map (λ x. record { flat = flat.now; part = part_of x }) parts.now)) }
    {
        'parts: for part in parts {
            let one = Lived {
                part: *part,
                flat,
                place: number,
            };
            self.check_user(met, &one)?;
            met.add(flat_key(flat), one)?;
        }
        Ok(())
    }

    // The same of a part.
    fn check_user<'a, A: Allocator + Copy>(
        &mut self,
        met: &Met<Lived<'a>, A>,
        one: &Lived<'a>,
    ) -> Result<(), IoFault>
        ensures { (xs : List SaidLived) → IsMet key_lived live met.now xs
            → Checks result self.old.counts self.new.counts (All (λ x. IsOneTenancy x (live one.now)) xs) }
    {
        let numbers = met.index.at(flat_key(one.flat));
        'numbers: for number in numbers {
            let Some(that) = met.items.get(*number as usize) else {
                continue;
            };
            let words = [
                Text(b"flat "),
                Text(one.flat),
                Text(b" has another user at place "),
                Number(that.place),
            ];
            self.unless(is_one_tenancy(that, one), one.part.line, "Tenancy", &words)?;
        }
        Ok(())
    }
}
