//! Reads lines into a house.

ghost use Rattle.std.specs.Prelude.{◌≡◌, ◌≤◌, ◌<◌, ◌+◌, ◌-◌, ◌⊎◌, ◌↔◌, ◌==◌, ◌&&◌, ◌||◌, ℕ, true, false};
ghost use Rattle.std.specs.Prelude.{All, IfErr, IfOk, IsSome, IsTrue, None, Some, is_some, length, map, slice_get};
ghost use Rattle.dc_address.specs.Text.{text_of};
ghost use Rattle.dc_address.specs.declared.identity.Identity as identity_type;
ghost use Rattle.mbdc_audit.specs.declared.house.Fact as fact_type;
ghost use Rattle.mbdc_audit.specs.declared.uses.Counted as counted_type;
ghost use Rattle.mbdc_audit.specs.declared.uses.Unit.{Unit};
ghost use Rattle.mbdc_audit.specs.File.{IsFact, span_place, text_at, use_of};
ghost use Rattle.mbdc_audit.specs.House.{House as SaidHouse, Number as SaidNumber};
ghost use Rattle.mbdc_audit.specs.Amount.{last_of};
ghost use Rattle.mbdc_audit.specs.Line.{IsAsked, IsBounded, IsLine};
ghost use Rattle.mbdc_audit.specs.Published.{Has, IsUnit, IsWho, MayAsk, declared, is_energy, of_factor, of_word};
ghost use Rattle.mbdc_audit.specs.Published.{quantity};
ghost use Rattle.mbdc_audit.specs.Reader.{AddsNothing, CantFollow, IsFault, IsMade, IsRead, IsTextOf, Spells};
ghost use Rattle.mbdc_audit.specs.File.{Adds, Follows};
ghost use Rattle.mbdc_audit.specs.Reader.{is_fact, is_of_house, is_value};
ghost use Rattle.mbdc_audit.specs.File.{first_named, is_of_place, use_place};
ghost use Rattle.mbdc_audit.specs.Reader.{IsOther, IsUnitOf};
ghost use Rattle.mbdc_audit.specs.File.{IsMeant};
ghost use Rattle.mbdc_audit.specs.Sound.{IsDeclared};
ghost use Rattle.mbdc_audit.specs.Uses.{size_named, unit_named};
ghost use Rattle.mbdc_audit.specs.Walk.{IsQuiet};
ghost use Rattle.mbdc_audit.specs.View.{beside_count, house_of, key_of, number_of, place_of, run_of};

use crate::curve::{Amount, Run};
use crate::fault::{AuditFault, Stop};
use crate::house::{
    Allowed, Declared, Fact, House, Number, Part, Place, Span, Struck, Use, User, Window,
};
use crate::line::{BEGUN, ENDED, Line, Word, is_asked, is_fed, is_header, may_follow, use_place};
use crate::number::scale_in;
use crate::uses::{Counted, Unit, size_named};
use crate::values::{field, value_of, vib};
use dc_address::Identity;
use mbdc_io::{LONGEST, first_line};
use std::alloc::Allocator;

// Limits of a file.
const MOST_SPANS: usize = 4;

const MOST_USES: usize = 64;

const MOST_USERS: usize = 4_096;

const MOST_PLACES: usize = 16_384;

const MOST_METERS: usize = 16;

const MOST_VALUES: usize = 2_048;

const MOST_PARTS: usize = 64;

// Whether a line may follow, or why not.
fn only_if(may: bool, fault: AuditFault) -> Result<(), AuditFault>
    ensures ok { IfOk result (λ u. may ≡ true) }
    ensures err { IfErr result (λ f. (may ≡ false) × (f ≡ fault)) }
{
    if may { Ok(()) } else { Err(fault) }
}

/// The house that a file spells.
///
/// # Errors
/// The first line that spells nothing, and why.
pub(crate) fn read_house<'a, A: Allocator + Copy>(
    alloc: A,
    file: &'a [u8],
    may_ask: bool,
) -> Result<House<'a, A>, (u64, Stop)>
    ensures ok { IfOk result (λ h. IsRead may_ask file.now (house_of h)) }
    ensures err { IfErr result (λ e. IsFault e.1 → (h : SaidHouse) → Spells may_ask file.now h → ⊥) }
    ensures asks { may_ask ≡ false → IfOk result (λ h. IsQuiet (house_of h)) }
{
    let mut house = House {
        lines: 0,
        label: &[],
        uses: Vec::new(alloc),
        allowed: Vec::new(alloc),
        spans: Vec::new(alloc),
        facts: Vec::new(alloc),
        users: Vec::new(alloc),
        places: Vec::new(alloc),
        numbers: Vec::new(alloc),
    };
    let mut stage = BEGUN;
    let mut left = file;
    'lines: while !left.is_empty() {
        let (line, rest) = first_line(left);
        let at = file.len() - left.len();
        house.lines = house.lines.saturating_add(1);
        match house.step(alloc, may_ask, stage, line, at) {
            Ok(next) => stage = next,
            Err(stop) => return Err((house.lines, stop)),
        }
        left = rest;
    }
    let line = house.lines.saturating_add(1);
    if stage != ENDED {
        return Err((line, Stop::Fault(AuditFault::End)));
    }
    // The last line ends with a feed, too.
    if !is_fed(file) {
        return Err((line, Stop::Fault(AuditFault::End)));
    }
    Ok(house)
}

impl<'a, A: Allocator + Copy> House<'a, A> {
    // Reads a line, which begins at a place of the file, after those up to a stage; returns the next one.
    fn step(
        &mut self,
        alloc: A,
        may_ask: bool,
        stage: u8,
        text: &'a [u8],
        at: usize,
    ) -> Result<u8, Stop>
        ensures ok { IfOk result (λ n. Follows stage text.now (house_of self.old) n (house_of self.new)) }
        ensures err { IfErr result (λ s. IsFault s → CantFollow stage text.now (house_of self.old)
            ⊎ ((may_ask ≡ false) × IsAsked text.now)) }
        ensures asks { may_ask ≡ false → IfOk result (λ n. (IsAsked text.now → ⊥)
            × (IsQuiet (house_of self.old) → IsQuiet (house_of self.new))) }
    {
        if text.len() > LONGEST {
            return Err(Stop::Fault(AuditFault::End));
        }
        if stage == ENDED {
            return Err(Stop::Fault(AuditFault::End));
        }
        if stage == BEGUN && !is_header(text) {
            return Err(Stop::Fault(AuditFault::Header));
        }
        let line = match Line::read(text) {
            Ok(line) => line,
            Err(fault) => return Err(Stop::Fault(fault)),
        };
        if !may_ask && is_asked(&line) {
            return Err(Stop::Fault(AuditFault::Row));
        }
        if !may_follow(line.stage, stage) {
            return Err(Stop::Fault(AuditFault::Order));
        }
        match self.add(alloc, &line, text, at) {
            Ok(()) => Ok(line.stage),
            Err(stop) => Err(stop),
        }
    }

    // Adds what a line says, which begins at a place of the file.
    fn add(&mut self, alloc: A, line: &Line<'a>, text: &'a [u8], at: usize) -> Result<(), Stop>
        requires line { IsLine text.now line.now }
        requires bounded { IsBounded line.now.word line.now }
        ensures ok { IfOk result (λ u. Adds (house_of self.old) line.now (house_of self.new)) }
        ensures err { IfErr result (λ s. IsFault s → AddsNothing (house_of self.old) line.now) }
    {
        match line.word {
            Word::Audit => {
                self.label = field(line, 1);
                Ok(())
            }
            Word::Use => self.add_use(line),
            Word::As => self.add_allowed(line),
            Word::Span => self.add_span(line),
            Word::Factor | Word::Emissions | Word::Degrees | Word::Price | Word::Average => {
                self.add_fact(line)
            }
            Word::User => self.add_user(line),
            Word::Place => self.add_place(alloc, line),
            Word::Meter => self.add_meter(line),
            Word::Window => self.open(alloc, line),
            Word::Part => self.add_part(line),
            Word::Totals => Ok(()),
            Word::End => Ok(()),
            Word::Read
            | Word::Stored
            | Word::Ended
            | Word::Zero
            | Word::Hand
            | Word::Estimated
            | Word::First
            | Word::Last
            | Word::Struck => self.add_value(line),
            Word::Shown
            | Word::Value
            | Word::OfUser
            | Word::OfFlat
            | Word::OfHouse
            | Word::Mean
            | Word::Change
            | Word::Weather
            | Word::Carbon
            | Word::Cost => self.add_number(line, text, at),
        }
    }

    // The place of a use's word.
    fn use_named(&self, name: &[u8]) -> Result<u64, AuditFault>
        ensures ok { IfOk result (λ n. first_named (house_of self.now) name.now ≡ Some n) }
        ensures err { IfErr result (λ f. first_named (house_of self.now) name.now ≡ None) }
    {
        let place = self.uses.iter().position(|used| used.name == name);
        match place {
            Some(place) => Ok(place as u64),
            None => Err(AuditFault::Fact),
        }
    }

    // The place of a span by its number.
    fn span(&self, number: u64) -> Result<u64, AuditFault>
        ensures ok { IfOk result (λ n. (number ≡ n + 1) × (n < length self.now.spans.items)) }
        ensures err { IfErr result (λ f. (number ≡ 0) ⊎ (length self.now.spans.items < number)) }
    {
        let is_there = 0 < number && number <= self.spans.len() as u64;
        only_if(is_there, AuditFault::Fact)?;
        Ok(number - 1)
    }

    // What the meters of a use count.
    fn counts(&self, used: u64) -> Option<Counted>
        ensures { result ≡ quantity (house_of self.now) used }
    {
        match self.uses.get(used as usize) {
            Some(it) => Some(it.counts),
            None => None,
        }
    }

    // The unit of a number of a use, which is one of the use's.
    fn unit(&self, used: u64, unit: &[u8]) -> Result<Unit, AuditFault>
        ensures ok { IfOk result (λ u. (unit_named unit.now ≡ Some u) × IsUnit (house_of self.now) used u) }
        ensures err { IfErr result (λ f. (u : Unit) → unit_named unit.now ≡ Some u →
            IsUnit (house_of self.now) used u → ⊥) }
    {
        let unit = Unit::named(unit).ok_or(AuditFault::Unit)?;
        let counts = self.counts(used).ok_or(AuditFault::Unit)?;
        match scale_in(counts, unit) {
            Some(_) => Ok(unit),
            None => Err(AuditFault::Unit),
        }
    }

    // The size of a reading's unit, which counts what the use does.
    fn size(&self, used: u64, unit: &[u8]) -> Result<u64, AuditFault>
        ensures ok { IfOk result (λ n. (q : counted_type.Counted) × (quantity (house_of self.now) used ≡ Some q)
            × (size_named unit.now ≡ Some (q, n))) }
        ensures err { IfErr result (λ f. (q : counted_type.Counted) (n : ℕ)
            → quantity (house_of self.now) used ≡ Some q → size_named unit.now ≡ Some (q, n) → ⊥) }
    {
        let (counted, size) = size_named(unit).ok_or(AuditFault::Unit)?;
        let counts = self.counts(used).ok_or(AuditFault::Unit)?;
        only_if(counted == counts, AuditFault::Unit)?;
        Ok(size)
    }

    fn add_use(&mut self, line: &Line<'a>) -> Result<(), Stop>
        requires { line.now.word ≡ Word.Use }
        ensures ok { IfOk result (λ u. Adds (house_of self.old) line.now (house_of self.new)) }
        ensures err { IfErr result (λ s. IsFault s → AddsNothing (house_of self.old) line.now) }
    {
        let name = field(line, 0);
        only_if(self.use_named(name).is_err(), AuditFault::Fact)?;
        only_if(self.uses.len() < MOST_USES, AuditFault::TooMany)?;
        let counts = Counted::named(field(line, 1)).ok_or(AuditFault::Row)?;
        self.uses.push(Use { name, counts })?;
        Ok(())
    }

    fn add_allowed(&mut self, line: &Line<'a>) -> Result<(), Stop>
        requires word { line.now.word ≡ Word.As }
        requires bounded { IsBounded line.now.word line.now }
        ensures ok { IfOk result (λ u. Adds (house_of self.old) line.now (house_of self.new)) }
        ensures err { IfErr result (λ s. IsFault s → AddsNothing (house_of self.old) line.now) }
    {
        let allowed = Allowed {
            line: self.lines,
            used: self.use_named(field(line, 0))?,
            kind: line.number(1) as u8,
            why: field(line, 2),
        };
        let is_there = self.allowed.iter().any(|other| other.used == allowed.used
            && other.kind == allowed.kind);
        only_if(!is_there, AuditFault::Fact)?;
        self.allowed.push(allowed)?;
        Ok(())
    }

    fn add_span(&mut self, line: &Line<'a>) -> Result<(), Stop>
        requires word { line.now.word ≡ Word.Span }
        requires bounded { IsBounded line.now.word line.now }
        ensures ok { IfOk result (λ u. Adds (house_of self.old) line.now (house_of self.new)) }
        ensures err { IfErr result (λ s. IsFault s → AddsNothing (house_of self.old) line.now) }
    {
        let count = self.spans.len();
        only_if(line.number(0) == count as u64 + 1, AuditFault::Order)?;
        only_if(count < MOST_SPANS, AuditFault::TooMany)?;
        let span = Span {
            line: self.lines,
            from: line.day_end(1),
            to: line.day_end(3),
        };
        self.spans.push(span)?;
        Ok(())
    }

    fn add_fact(&mut self, line: &Line<'a>) -> Result<(), Stop>
        requires { is_fact line.now.word ≡ true }
        ensures ok { IfOk result (λ u. Adds (house_of self.old) line.now (house_of self.new)) }
        ensures err { IfErr result (λ s. IsFault s → AddsNothing (house_of self.old) line.now) }
    {
        let fact = self.fact(line)?;
        let at = span_place(fact);
        let (span, ratio) = (self.span(line.number(at))?, line.number(at + 1));
        only_if(self.declared(fact, span).is_none(), AuditFault::Fact)?;
        self.facts.push(Declared { fact, span, ratio })?;
        Ok(())
    }

    // What a line declares of a span.
    fn fact(&self, line: &Line<'a>) -> Result<Fact, AuditFault>
        requires { is_fact line.now.word ≡ true }
        ensures ok { IfOk result (λ f. IsFact (house_of self.now) f line.now
            × ((used : ℕ) → use_of f ≡ Some used → IsMeant (house_of self.now) used)) }
        ensures err { IfErr result (λ f. (f : fact_type.Fact) → IsFact (house_of self.now) f line.now
            → ((used : ℕ) → use_of f ≡ Some used → IsMeant (house_of self.now) used) → ⊥) }
    {
        if matches!(line.word, Word::Degrees) {
            return Ok(Fact::Degrees);
        }
        let used = self.use_named(field(line, 0))?;
        match line.word {
            Word::Factor => Ok(Fact::Factor(used)),
            Word::Emissions => Ok(Fact::Emissions(used)),
            Word::Price => Ok(Fact::Price(used, self.unit(used, field(line, 1))?)),
            _ => Ok(Fact::Average(used, self.unit(used, field(line, 1))?)),
        }
    }

    fn add_user(&mut self, line: &Line<'a>) -> Result<(), Stop>
        requires { line.now.word ≡ Word.User }
        ensures ok { IfOk result (λ u. Adds (house_of self.old) line.now (house_of self.new)) }
        ensures err { IfErr result (λ s. IsFault s → AddsNothing (house_of self.old) line.now) }
    {
        let number = line.number(0);
        only_if(self.is_next_user(number), AuditFault::Order)?;
        only_if(self.users.len() < MOST_USERS, AuditFault::TooMany)?;
        let user = User {
            line: self.lines,
            number,
            flat: field(line, 1),
            area: line.maybe(2),
        };
        self.users.push(user)?;
        Ok(())
    }

    // Whether a user's number is above the last one's.
    fn is_next_user(&self, number: u64) -> bool
        ensures { IsTrue result ↔ All (λ u. u.number < number) (last_of (house_of self.now).users) }
    {
        match self.users.last() {
            Some(last) => last.number < number,
            None => true,
        }
    }

    fn add_place(&mut self, alloc: A, line: &Line<'a>) -> Result<(), Stop>
        requires { line.now.word ≡ Word.Place }
        ensures ok { IfOk result (λ u. Adds (house_of self.old) line.now (house_of self.new)) }
        ensures err { IfErr result (λ s. IsFault s → AddsNothing (house_of self.old) line.now) }
    {
        let count = self.places.len();
        only_if(line.number(0) == count as u64 + 1, AuditFault::Order)?;
        only_if(count < MOST_PLACES, AuditFault::TooMany)?;
        let used = self.use_named(field(line, 2))?;
        self.places.push(Place {
            line: self.lines,
            flat: field(line, 1),
            used,
            weight: line.number(3),
            runs: Vec::new(alloc),
            windows: Vec::new(alloc),
        })?;
        Ok(())
    }

    fn add_meter(&mut self, line: &Line<'a>) -> Result<(), Stop>
        requires word { line.now.word ≡ Word.Meter }
        requires identity { (i : identity_type.Identity) × (i.version < 256) × (i.kind < 256)
            × (text_at 1 line.now ≡ text_of i) }
        ensures ok { IfOk result (λ u. Adds (house_of self.old) line.now (house_of self.new)) }
        ensures err { IfErr result (λ s. IsFault s → AddsNothing (house_of self.old) line.now) }
    {
        let Ok(identity) = Identity::parse_text(field(line, 1)) else {
            return Err(Stop::Fault(AuditFault::Row));
        };
        let at = self.lines;
        let place = self.places.last_mut().ok_or(AuditFault::Order)?;
        only_if(
            line.number(0) == place.runs.len() as u64 + 1,
            AuditFault::Order,
        )?;
        only_if(place.runs.len() < MOST_METERS, AuditFault::TooMany)?;
        place.runs.push(Run {
            line: at,
            identity,
            begin: line.number(2),
            end: line.maybe(3),
            most: line.number(4),
            size: line.number(5),
            vib: vib(field(line, 6)),
        })?;
        Ok(())
    }

    // Opens the window of a span; their numbers rise.
    fn open(&mut self, alloc: A, line: &Line<'a>) -> Result<(), Stop>
        requires { line.now.word ≡ Word.Window }
        ensures ok { IfOk result (λ u. Adds (house_of self.old) line.now (house_of self.new)) }
        ensures err { IfErr result (λ s. IsFault s → AddsNothing (house_of self.old) line.now) }
    {
        let span = self.span(line.number(0))?;
        let at = self.lines;
        let place = self.places.last_mut().ok_or(AuditFault::Order)?;
        only_if(is_next_window(place, span), AuditFault::Order)?;
        place.windows.push(Window {
            line: at,
            span,
            values: Vec::new(alloc),
            struck: Vec::new(alloc),
            parts: Vec::new(alloc),
            numbers: Vec::new(alloc),
        })?;
        Ok(())
    }

    fn add_value(&mut self, line: &Line<'a>) -> Result<(), Stop>
        requires bounded { IsBounded line.now.word line.now }
        requires word { (line.now.word ≡ Word.Struck) ⊎ (is_value line.now.word ≡ true) }
        ensures ok { IfOk result (λ u. Adds (house_of self.old) line.now (house_of self.new)) }
        ensures err { IfErr result (λ s. IsFault s → AddsNothing (house_of self.old) line.now) }
    {
        let at = self.lines;
        let number = line.number(0);
        let place = self.places.last_mut().ok_or(AuditFault::Order)?;
        let runs = place.runs.as_slice();
        let meter = run_at(runs, number)?;
        let window = place.windows.last_mut().ok_or(AuditFault::Order)?;
        match line.word {
            Word::Struck => {
                let struck = Struck {
                    run: number - 1,
                    moment: line.number(1),
                    why: field(line, 2),
                };
                window.struck.push(struck)?;
                Ok(())
            }
            _ => {
                only_if(window.values.len() < MOST_VALUES, AuditFault::TooMany)?;
                let value = value_of(line, meter, at)?;
                window.values.push(value)?;
                Ok(())
            }
        }
    }

    fn add_part(&mut self, line: &Line<'a>) -> Result<(), Stop>
        requires { line.now.word ≡ Word.Part }
        ensures ok { IfOk result (λ u. Adds (house_of self.old) line.now (house_of self.new)) }
        ensures err { IfErr result (λ s. IsFault s → AddsNothing (house_of self.old) line.now) }
    {
        let at = self.lines;
        let user = line.maybe(3);
        let is_declared = self.is_declared(user);
        let number = line.number(0);
        let place = self.places.last_mut().ok_or(AuditFault::Order)?;
        let window = place.windows.last_mut().ok_or(AuditFault::Order)?;
        only_if(0 < number && number - 1 == window.span, AuditFault::Order)?;
        only_if(window.parts.len() < MOST_PARTS, AuditFault::TooMany)?;
        only_if(is_declared, AuditFault::Fact)?;
        window.parts.push(Part {
            line: at,
            from: line.number(1),
            to: line.number(2),
            user,
            amount: Amount::NONE,
        })?;
        Ok(())
    }

    // Whether a user is declared, if there is one.
    fn is_declared(&self, user: Option<u64>) -> bool
        ensures { IsTrue result ↔ IsDeclared (house_of self.now) user }
    {
        match user {
            Some(user) => self.user(user).is_some(),
            None => true,
        }
    }

    // Whether what a number needs in a span is declared: the use's factor, and one more fact.
    fn check_facts(&self, number: &Number<'_>, span: u64) -> Result<(), AuditFault>
        ensures ok { IfOk result (λ u. Has (house_of self.now) (key_of number.now) span) }
        ensures err { IfErr result (λ f. Has (house_of self.now) (key_of number.now) span → ⊥) }
    {
        only_if(span < self.spans.len() as u64, AuditFault::Fact)?;
        self.check_factor(number, span)?;
        self.check_fact(number, span)
    }

    // Whether the factor of a number in kilowatt hours is declared, where it isn't of energy.
    fn check_factor(&self, number: &Number<'_>, span: u64) -> Result<(), AuditFault>
        ensures ok { IfOk result (λ u. All (λ f. IsSome (declared (house_of self.now) f span))
            (of_factor (house_of self.now) number.now.used number.now.unit)) }
        ensures err { IfErr result (λ f. All (λ f. IsSome (declared (house_of self.now) f span))
            (of_factor (house_of self.now) number.now.used number.now.unit) → ⊥) }
    {
        let is_energy = matches!(self.counts(number.used), Some(Counted::Energy));
        if is_energy || number.unit != Unit::Kwh {
            return Ok(());
        }
        let factor = self.declared(Fact::Factor(number.used), span);
        only_if(factor.is_some(), AuditFault::Fact)
    }

    // Whether the fact that a number's word needs is declared.
    fn check_fact(&self, number: &Number<'_>, span: u64) -> Result<(), AuditFault>
        ensures ok { IfOk result (λ u. All (λ f. IsSome (declared (house_of self.now) f span))
            (of_word number.now.word (key_of number.now))) }
        ensures err { IfErr result (λ f. All (λ f. IsSome (declared (house_of self.now) f span))
            (of_word number.now.word (key_of number.now)) → ⊥) }
    {
        let fact = match number.word {
            Word::Weather => Fact::Degrees,
            Word::Carbon => Fact::Emissions(number.used),
            Word::Cost => Fact::Price(number.used, number.unit),
            _ => return Ok(()),
        };
        only_if(self.declared(fact, span).is_some(), AuditFault::Fact)
    }

    // A number without what it is of: its text, and what is beside it.
    fn said(&self, line: &Line<'a>, text: &'a [u8], at: usize) -> Number<'a>
        requires { line.now.text + beside_count line.now.word < 7 }
        ensures { IsTextOf line.now (number_of result) }
    {
        let (asked, _) = text.split_at(line.asked.min(text.len()));
        Number {
            line: self.lines,
            word: line.word,
            span: 0,
            other: 0,
            user: 0,
            flat: &[],
            used: 0,
            unit: Unit::Smallest,
            from: 0,
            to: 0,
            size: 1,
            asked,
            said: [
                field(line, line.text),
                field(line, line.text + 1),
                field(line, line.text + 2),
            ],
            at: at.saturating_add(line.asked).saturating_add(1),
        }
    }

    // A number of the open place.
    fn number_of_place(
        &self,
        line: &Line<'a>,
        text: &'a [u8],
        at: usize,
    ) -> Result<Number<'a>, AuditFault>
        requires word { is_of_place line.now.word ≡ true }
        requires text { line.now.text + beside_count line.now.word < 7 }
        ensures ok { IfOk result (λ n. IsMade (house_of self.now) line.now (number_of n)) }
        ensures err { IfErr result (λ f. (n : SaidNumber) → IsMade (house_of self.now) line.now n → ⊥) }
    {
        let place = self.places.last().ok_or(AuditFault::Order)?;
        let window = place.windows.last().ok_or(AuditFault::Order)?;
        match line.word {
            Word::Value => {
                let size = self.size(place.used, field(line, 3))?;
                Ok(Number {
                    span: window.span,
                    used: place.used,
                    size,
                    from: line.number(0),
                    to: line.number(1),
                    ..self.said(line, text, at)
                })
            }
            _ => {
                let unit = self.unit(place.used, field(line, 3))?;
                let span = self.span(line.number(0))?;
                let number = Number {
                    span: window.span,
                    used: place.used,
                    unit,
                    from: line.number(1),
                    to: line.number(2),
                    ..self.said(line, text, at)
                };
                self.check_facts(&number, span)?;
                only_if(span == window.span, AuditFault::Order)?;
                Ok(number)
            }
        }
    }

    // A number of the house: its use stands before the unit, and the user or the flat before the use.
    fn number_of_house(
        &self,
        line: &Line<'a>,
        text: &'a [u8],
        begin: usize,
    ) -> Result<Number<'a>, AuditFault>
        requires word { is_of_house line.now.word ≡ true }
        requires text { line.now.text + beside_count line.now.word < 7 }
        ensures ok { IfOk result (λ n. IsMade (house_of self.now) line.now (number_of n)) }
        ensures err { IfErr result (λ f. (n : SaidNumber) → IsMade (house_of self.now) line.now n → ⊥) }
    {
        let at = use_place(line.word);
        let used = self.use_named(field(line, at))?;
        let unit = self.unit_of(line, used)?;
        let span = self.span(line.number(0))?;
        let other = self.other(line)?;
        let number = Number {
            span,
            other,
            user: line.number(at - 1),
            flat: field(line, at - 1),
            used,
            unit,
            from: line.number(0),
            to: line.number(1),
            ..self.said(line, text, begin)
        };
        self.check_number(&number)?;
        Ok(number)
    }

    // The unit of a number of the house.
    fn unit_of(&self, line: &Line<'a>, used: u64) -> Result<Unit, AuditFault>
        ensures ok { IfOk result (λ u. IsUnitOf line.now.word (house_of self.now) used u line.now) }
        ensures err { IfErr result (λ f. (u : Unit)
            → IsUnitOf line.now.word (house_of self.now) used u line.now → ⊥) }
    {
        match line.word {
            Word::Weather | Word::Carbon => Ok(Unit::Kwh),
            word => self.unit(used, field(line, use_place(word) + 1)),
        }
    }

    // The other span of a number that has two.
    fn other(&self, line: &Line<'a>) -> Result<u64, AuditFault>
        ensures ok { IfOk result (λ n. IsOther line.now.word (house_of self.now) n line.now) }
        ensures err { IfErr result (λ f. (n : ℕ) → IsOther line.now.word (house_of self.now) n line.now → ⊥) }
    {
        match line.word {
            Word::Change | Word::Weather => self.span(line.number(1)),
            _ => Ok(0),
        }
    }

    // Whether what a number of the house is of is declared, but for its unit.
    fn check_number(&self, number: &Number<'_>) -> Result<(), AuditFault>
        requires word { is_of_house number.now.word ≡ true }
        ensures ok { IfOk result (λ u. IsUnit (house_of self.now) number.now.used number.now.unit
            → MayAsk (house_of self.now) (key_of number.now)) }
        ensures err { IfErr result (λ f. MayAsk (house_of self.now) (key_of number.now) → ⊥) }
    {
        self.check_facts(number, number.span)?;
        if matches!(number.word, Word::Change | Word::Weather) {
            self.check_facts(number, number.other)?;
        }
        only_if(self.has_holder(number), AuditFault::Fact)
    }

    // Whether who a number of the house is of is declared.
    fn has_holder(&self, number: &Number<'_>) -> bool
        requires word { is_of_house number.now.word ≡ true }
        ensures { IsTrue result ↔ IsWho number.now.word (house_of self.now) (key_of number.now) }
    {
        match number.word {
            Word::OfHouse => true,
            Word::OfFlat => {
                let (users, places) = (&self.users, &self.places);
                users.iter().any(|user| user.flat == number.flat)
                    || places.iter().any(|place| place.flat == number.flat)
            }
            _ => self.user(number.user).is_some(),
        }
    }

    fn add_number(&mut self, line: &Line<'a>, text: &'a [u8], at: usize) -> Result<(), Stop>
        requires word { (is_of_place line.now.word || is_of_house line.now.word) ≡ true }
        requires text { line.now.text + beside_count line.now.word < 7 }
        ensures ok { IfOk result (λ u. Adds (house_of self.old) line.now (house_of self.new)) }
        ensures err { IfErr result (λ s. IsFault s → AddsNothing (house_of self.old) line.now) }
    {
        let is_of_place = matches!(line.word, Word::Shown | Word::Value);
        if !is_of_place {
            let number = self.number_of_house(line, text, at)?;
            self.numbers.push(number)?;
            return Ok(());
        }
        let number = self.number_of_place(line, text, at)?;
        let place = self.places.last_mut().ok_or(AuditFault::Order)?;
        let window = place.windows.last_mut().ok_or(AuditFault::Order)?;
        window.numbers.push(number)?;
        Ok(())
    }
}

// Where a fact's span stands in its line.
fn span_place(fact: Fact) -> usize
    ensures place { result ≡ span_place fact }
    ensures within { result ≤ 2 }
{
    match fact {
        Fact::Price(_, _) | Fact::Average(_, _) => 2,
        _ => 1,
    }
}

// The run with a number, which counts from 1.
fn run_at<'r, 'a>(runs: &'r [Run<'a>], number: u64) -> Result<&'r Run<'a>, AuditFault>
    ensures ok { IfOk result (λ r. (0 < number)
        × (slice_get (map run_of runs.now) (number - 1) ≡ Some (run_of r.now))) }
    ensures err { IfErr result (λ f. (number ≡ 0) ⊎ (length (map run_of runs.now) < number)) }
{
    if number == 0 {
        return Err(AuditFault::Order);
    }
    match runs.get(number as usize - 1) {
        Some(run) => Ok(run),
        None => Err(AuditFault::Order),
    }
}

// Whether a window's span is after the last one's.
fn is_next_window<A: Allocator + Copy>(place: &Place<'_, A>, span: u64) -> bool
    ensures { IsTrue result ↔ All (λ w. w.span < span) (last_of (place_of place.now).windows) }
{
    match place.windows.last() {
        Some(last) => last.span < span,
        None => true,
    }
}
