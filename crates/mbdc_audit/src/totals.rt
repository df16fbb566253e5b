//! The sums of holders' parts, and what is computed of them.

ghost use Rattle.std.specs.Prelude.{◌≡◌, ◌≢◌, ℕ, ◌==◌, ◌&&◌, ◌<◌, ◌≤◌, ◌+◌, ◌^◌, ◌⊎◌, IfErr, IfOk, OnOk};
ghost use Rattle.std.specs.Prelude.{All, Some, find, fold, is_some};
ghost use Rattle.std.specs.List.{list_any};
ghost use Rattle.std.specs.Str.{bytes_eq};
ghost use Rattle.mbdc_audit.specs.declared.line.Word.TheVariants as word;
ghost use Rattle.mbdc_audit.specs.Grade.{worst};
ghost use Rattle.mbdc_audit.specs.Index.{flat_key};
ghost use Rattle.mbdc_audit.specs.Number.{in_unit};
ghost use Rattle.mbdc_audit.specs.Published.{beside, by_ratio, declared, flat, has_whole, holds};
ghost use Rattle.mbdc_audit.specs.Published.{number as exact_of, sum_of_user, user};
ghost use Rattle.mbdc_audit.specs.Sound.{IsHouse};
ghost use Rattle.mbdc_audit.specs.Totals.{AreBases, HasNoPart, IsIndex, basis_more, basis_of, beside_sum};
ghost use Rattle.mbdc_audit.specs.Totals.{has_own, is_filled, is_known, is_window_own};
ghost use Rattle.mbdc_audit.specs.Totals.{no_total, place_sum, share_in, total_of, total_with};
ghost use Rattle.mbdc_audit.specs.View.{house_of, key_of, span_of};
ghost use Rattle.mbdc_audit.specs.Walk.{AreGradedAll, holder_of, scale_in, sum_by_holder, texts_beside};

use crate::exact::Exact;
use crate::fault::{AuditFault, Stop};
use crate::grade::{Grade, UNCLEAR};
use crate::house::{Fact, House, Number, Part, Place, Span, User, Window};
use crate::index::{Index, flat_key};
use crate::line::Word;
use crate::number::{RATIO, scale_in, times};
use crate::numbers::{Basis, Beside, Holder, Holds, Total};
use crate::uses::Unit;
use std::alloc::Allocator;

// The last grade of a sum that may be compared.
const HAND: u8 = 1;

// Fewest flats of a mean, so that it identifies nobody.
const FEWEST_COMPARED: u64 = 3;

impl Total {
    /// Of nothing.
    pub const NONE: Total = Total {
        plain: 0,
        weighted: 0,
        grade: Grade::Measured,
        count: 0,
        without: 0,
    };

    // The sum with an amount more, its size times a weight, and a mark.
    fn and(&self, plain: u128, weighted: u128, grade: Grade) -> Result<Total, AuditFault>
        ensures ok { IfOk result (λ t. t ≡ record self.now {
          plain = self.now.plain + plain;
          weighted = self.now.weighted + weighted;
          grade = worst self.now.grade grade;
        }) }
        ensures err { IfErr result (λ f.
            (2 ^ 128 ≤ self.now.plain + plain) ⊎ (2 ^ 128 ≤ self.now.weighted + weighted)) }
    {
        Ok(Total {
            plain: self.plain.checked_add(plain).ok_or(AuditFault::TooLarge)?,
            weighted: self
                .weighted
                .checked_add(weighted)
                .ok_or(AuditFault::TooLarge)?,
            grade: self.grade.worst(grade),
            ..*self
        })
    }

    // Whether there is a number of a holder's sum: of each of its windows; of the house of one.
    fn is_known(&self, holder: Holder<'_>) -> bool
        ensures { result ≡ is_known (holder_of holder.entry) self.now }
    {
        match holder {
            Holder::House => self.without < self.count,
            _ => self.without == 0 && self.count > 0,
        }
    }

    // The sum with a holder's share of a window more, at the weight of its place.
    fn with(&self, weight: u64, share: Option<(u128, Grade)>) -> Result<Total, AuditFault>
        ensures { IfOk result (λ t. t ≡ total_with self.now weight share) }
    {
        let Some((sum, grade)) = share else {
            return Ok(*self);
        };
        let count = self.count.checked_add(1).ok_or(AuditFault::TooLarge)?;
        if grade.told().1 < UNCLEAR {
            let weighted = sum
                .checked_mul(u128::from(weight))
                .ok_or(AuditFault::TooLarge)?;
            let total = self.and(sum, weighted, grade)?;
            Ok(Total { count, ..total })
        } else {
            Ok(Total {
                grade: self.grade.worst(grade),
                count,
                without: self.without.checked_add(1).ok_or(AuditFault::TooLarge)?,
                ..*self
            })
        }
    }
}

impl<'a, A: Allocator + Copy> Place<'a, A> {
    // A sum with a holder's shares of the place's windows of a span more, if it is of a use.
    fn added(
        &self,
        mut total: Total,
        holder: Holder<'_>,
        span: u64,
        used: u64,
    ) -> Result<Total, AuditFault>
        ensures { IfOk result (λ t. t ≡ place_sum (holder_of holder.entry) span used total self.now) }
    {
        if self.used != used {
            return Ok(total);
        }
        'windows: for window in &self.windows {
            if window.span == span {
                let share = share(holder, self.flat, window.parts.as_slice())?;
                total = total.with(self.weight, share)?;
            }
        }
        Ok(total)
    }
}

// What a holder's parts of a window consumed, and their worst mark; none if it has none.
fn share(
    holder: Holder<'_>,
    flat: &[u8],
    parts: &[Part],
) -> Result<Option<(u128, Grade)>, AuditFault>
    ensures { IfOk result (λ s. s ≡ share_in (holder_of holder.entry) flat.now parts.now) }
{
    let [part, rest @ ..] = parts else {
        return Ok(None);
    };
    let later = share(holder, flat, rest)?;
    let is_held = match holder {
        Holder::User(user) => part.user == Some(user),
        Holder::Flat(name) => name == flat,
        Holder::House => true,
    };
    if !is_held {
        return Ok(later);
    }
    let amount = u128::from(part.amount.amount.unwrap_or(0));
    match later {
        None => Ok(Some((amount, part.amount.grade))),
        Some((sum, grade)) => {
            let sum = amount.checked_add(sum).ok_or(AuditFault::TooLarge)?;
            Ok(Some((sum, part.amount.grade.worst(grade))))
        }
    }
}

impl<'a, A: Allocator + Copy> Window<'a, A> {
    // Whether all parts are a user's; true of another span's window.
    fn is_own(&self, user: u64, span: u64) -> bool
        ensures { result ≡ is_window_own user span self.now }
    {
        if self.span == span {
            self.parts.iter().all(|part| part.user == Some(user))
        } else {
            true
        }
    }
}

// Whether one of these users of a flat has an area.
fn has_area(flat: &[u8], users: &[User<'_>]) -> bool
    ensures { result ≡ list_any (λ v. bytes_eq v.flat.now flat.now && is_some v.area) users.now }
{
    users
        .iter()
        .any(|user| user.flat == flat && user.area.is_some())
}

// What comparable flats consumed of a use in a span, if that is known.
fn basis_at(span: u64, used: u64, bases: &[Basis]) -> Option<Basis>
    ensures { result ≡ find (λ b. (b.span == span) && (b.used == used)) bases.now }
{
    bases
        .iter()
        .copied()
        .find(|basis| basis.span == span && basis.used == used)
}

impl<'a, A: Allocator + Copy> Place<'a, A> {
    // Whether it is a flat's, of a use, and has a window of a span.
    fn is_own(&self, flat: &[u8], used: u64, span: u64) -> bool
        ensures { result ≡ has_own flat.now used span self.now }
    {
        let has_window = self.windows.iter().any(|window| window.span == span);
        self.used == used && flat == self.flat && has_window
    }

    // Whether its time covers a span, and its parts there are all a user's; or it isn't the flat's, or of another use.
    fn is_filled(&self, user: u64, flat: &[u8], used: u64, span: u64, within: &Span<'a>) -> bool
        ensures { result ≡ is_filled user flat.now used span (span_of within.now) self.now }
    {
        let (from, to) = self.reach(within);
        let are_own = self.windows.iter().all(|window| window.is_own(user, span));
        if !self.is_own(flat, used, span) {
            return true;
        }
        from == within.from.moment() && to == within.to.moment() && are_own
    }
}

impl<'a, A: Allocator + Copy> House<'a, A> {
    // A sum, plain and by weights, in a unit.
    pub fn exact(
        &self,
        sums: (u128, u128),
        span: u64,
        used: u64,
        unit: Unit,
    ) -> Result<Exact, AuditFault>
        ensures { IfOk result (λ x. Some x ≡ in_unit sums (scale_in (house_of self.now) used unit)
            (declared (house_of self.now) (Fact.Factor used) span)) }
    {
        let factor = self.declared(Fact::Factor(used), span);
        let Some(found) = self.uses.get(used as usize) else {
            return Err(AuditFault::Unit);
        };
        let scale = scale_in(found.counts, unit).ok_or(AuditFault::Unit)?;
        let exact = Exact {
            is_negative: false,
            num: if scale.is_weighted { sums.1 } else { sums.0 },
            den: scale.den,
        };
        if scale.has_factor {
            times(exact, factor.ok_or(AuditFault::Fact)?, 1)
        } else {
            Ok(exact)
        }
    }
}

/// What a house adds up to, whose places are found by their flats, and a user's too where no rule was broken.
#[derive(Drop)]
pub(crate) struct Sums<'h, 'a, A: Allocator + Copy> {
    house: &'h House<'a, A>,
    is_sound: bool,
    flats: Index<A>,
    ghost indexed: { IsIndex flats house.now.places.items },
}

impl<'h, 'a, A: Allocator + Copy> Sums<'h, 'a, A> {
    /// Those of a house.
    pub fn of(alloc: A, house: &'h House<'a, A>, is_sound: bool) -> Result<Self, Stop>
        ensures { IfOk result (λ s. s.house.now ≡ house.now) }
    {
        let mut flats = Index::new(alloc);
        'places: for (i, place) in house.places.iter().enumerate() {
            flats.add(flat_key(place.flat), i as u64)?;
        }
        Ok(Sums {
            house,
            is_sound,
            flats,
        })
    }

    // The sum of a holder's parts of a use in a span, which are in places of a flat.
    fn total_in(
        &self,
        flat: &[u8],
        holder: Holder<'_>,
        span: u64,
        used: u64,
    ) -> Result<Total, AuditFault>
        ensures { let places = self.now.house.now.places.items in
            All (λ p. flat_key flat.now ≢ flat_key p.flat.now → HasNoPart (holder_of holder.entry) p) places
            → IfOk result (λ t. t ≡ fold (place_sum (holder_of holder.entry) span used) no_total places) }
    {
        let mut total = Total::NONE;
        'numbers: for number in self.flats.at(flat_key(flat)) {
            if let Some(place) = self.house.places.get(*number as usize) {
                total = place.added(total, holder, span, used)?;
            }
        }
        Ok(total)
    }

    // The sum of a holder's parts of a use in a span, of all places.
    fn total_of_all(&self, holder: Holder<'_>, span: u64, used: u64) -> Result<Total, AuditFault>
        ensures { IfOk result (λ t.
            t ≡ fold (place_sum (holder_of holder.entry) span used) no_total self.now.house.now.places.items) }
    {
        let mut total = Total::NONE;
        'places: for place in &self.house.places {
            total = place.added(total, holder, span, used)?;
        }
        Ok(total)
    }

    // The sum of a holder's parts of a use in a span: a user's are in places of the user's flat in a sound house.
    fn total(&self, holder: Holder<'_>, span: u64, used: u64) -> Result<Total, AuditFault>
        ensures { ((n : ℕ) → holder_of holder.entry ≡ user n → IsHouse (house_of self.now.house.now))
            → IfOk result (λ t. t ≡ total_of (holder_of holder.entry) span used self.now.house.now.places.items) }
    {
        let mut total = match holder {
            Holder::House => self.total_of_all(holder, span, used)?,
            Holder::Flat(flat) => self.total_in(flat, holder, span, used)?,
            Holder::User(number) => match self.house.user(number) {
                Some(user) if self.is_sound => self.total_in(user.flat, holder, span, used)?,
                _ => self.total_of_all(holder, span, used)?,
            },
        };
        if total.count == 0 {
            total.grade = Grade::Missing;
        }
        Ok(total)
    }

    // A holder's sum, if each of its parts has a number; of the house if a place has one.
    fn sum(
        &self,
        holder: Holder<'_>,
        span: u64,
        number: &Number<'_>,
    ) -> Result<(Option<Exact>, Total), AuditFault>
        ensures total { IsHouse (house_of self.now.house.now) → IfOk result (λ s.
            s.1 ≡ total_of (holder_of holder.entry) span number.now.used self.now.house.now.places.items) }
        ensures sum { IsHouse (house_of self.now.house.now) → AreGradedAll self.now.house.now.places.items
            → IfOk result (λ s. s.0 ≡ sum_by_holder (house_of self.now.house.now) (holder_of holder.entry)
            span number.now.used number.now.unit) }
    {
        let total = self.total(holder, span, number.used)?;
        if !total.is_known(holder) {
            return Ok((None, total));
        }
        let sums = (total.plain, total.weighted);
        Ok((
            Some(self.house.exact(sums, span, number.used, number.unit)?),
            total,
        ))
    }

    // Whether a user has the whole of a span: each place of a use of the flat has a time that covers it, and all parts
    // are the user's.
    fn has_whole(&self, span: u64, number: &Number<'_>) -> bool
        ensures { result ≡ has_whole (house_of self.now.house.now) span number.now.user number.now.used }
    {
        let Some(user) = self.house.user(number.user) else {
            return false;
        };
        let Some(within) = self.house.spans.get(span as usize) else {
            return false;
        };
        let (mut has_own, mut are_filled) = (false, true);
        'numbers: for i in self.flats.at(flat_key(user.flat)) {
            if let Some(place) = self.house.places.get(*i as usize) {
                has_own = place.is_own(user.flat, number.used, span) || has_own;
                are_filled = place.is_filled(number.user, user.flat, number.used, span, within)
                    && are_filled;
            }
        }
        has_own && are_filled
    }

    // A basis with a user's flat more, if the flat's sum is measured, or by hand: of the users of a flat the last one who
    // has an area says it.
    fn with_user(
        &self,
        basis: &Basis,
        user: &User<'a>,
        later: &[User<'a>],
    ) -> Result<Basis, AuditFault>
        ensures { IfOk result (λ b. b ≡ basis_more self.now.house.now.places.items basis.now user.now later.now) }
    {
        if user.area.is_none() || has_area(user.flat, later) {
            return Ok(*basis);
        }
        let total = self.total(Holder::Flat(user.flat), basis.span, basis.used)?;
        if total.grade.told().1 > HAND {
            return Ok(*basis);
        }
        let area = u128::from(user.area.unwrap_or(0));
        Ok(Basis {
            sum: basis.sum.and(total.plain, total.weighted, total.grade)?,
            areas: basis.areas.checked_add(area).ok_or(AuditFault::TooLarge)?,
            count: basis.count.checked_add(1).ok_or(AuditFault::TooLarge)?,
            ..*basis
        })
    }

    // What the flats that may be compared consumed: those with an area whose sum is measured, or by hand.
    fn basis(&self, span: u64, used: u64) -> Result<Basis, AuditFault>
        ensures { IfOk result (λ b.
            b ≡ basis_of span used self.now.house.now.places.items self.now.house.now.users.items) }
    {
        let mut basis = Basis {
            span,
            used,
            sum: Total::NONE,
            areas: 0,
            count: 0,
        };
        'users: for (i, user) in self.house.users.iter().enumerate() {
            basis = self.with_user(&basis, user, &self.house.users[i + 1..])?;
        }
        Ok(basis)
    }

    // What comparable flats consumed, of those that are known or anew.
    fn basis_in(&self, span: u64, used: u64, bases: &mut Vec<Basis, A>) -> Result<Basis, Stop>
        requires { AreBases self.now.house.now.places.items self.now.house.now.users.items bases.old.items }
        ensures bases { OnOk result
            (AreBases self.now.house.now.places.items self.now.house.now.users.items bases.new.items) }
        ensures found { IfOk result (λ b.
            b ≡ basis_of span used self.now.house.now.places.items self.now.house.now.users.items) }
    {
        if let Some(basis) = basis_at(span, used, bases.as_slice()) {
            return Ok(basis);
        }
        let basis = self.basis(span, used)?;
        bases.push(basis)?;
        Ok(basis)
    }

    // A user's share by area: of a declared average, or of what comparable flats consumed.
    fn mean(&self, number: &Number<'_>, bases: &mut Vec<Basis, A>) -> Result<Option<Exact>, Stop>
        requires { AreBases self.now.house.now.places.items self.now.house.now.users.items bases.old.items }
        ensures bases { OnOk result
            (AreBases self.now.house.now.places.items self.now.house.now.users.items bases.new.items) }
        ensures found { AreGradedAll self.now.house.now.places.items
            → IfOk result (λ x. x ≡ holds word.Mean (house_of self.now.house.now) (key_of number.now)) }
    {
        let (span, used) = (number.span, number.used);
        let Some(user) = self.house.user(number.user) else {
            return Ok(None);
        };
        let Some(area) = user.area else {
            return Ok(None);
        };
        if let Some(average) = self.house.declared(Fact::Average(used, number.unit), span) {
            return Ok(Some(Exact {
                is_negative: false,
                num: u128::from(average) * u128::from(area),
                den: RATIO * RATIO,
            }));
        }
        let basis = self.basis_in(span, used, bases)?;
        if basis.count < FEWEST_COMPARED {
            return Ok(None);
        }
        let sums = (basis.sum.plain, basis.sum.weighted);
        let exact = self.house.exact(sums, span, used, number.unit)?;
        Ok(Some(times(exact, area, basis.areas)?))
    }

    // The change from another span to this one in per cent, where that one's sum isn't 0.
    fn change(&self, number: &Number<'_>) -> Result<Option<Exact>, AuditFault>
        ensures { IsHouse (house_of self.now.house.now) → AreGradedAll self.now.house.now.places.items
            → IfOk result (λ x. x ≡ holds word.Change (house_of self.now.house.now) (key_of number.now)) }
    {
        if !self.has_whole(number.span, number) || !self.has_whole(number.other, number) {
            return Ok(None);
        }
        let user = Holder::User(number.user);
        let (Some(there), _) = self.sum(user, number.other, number)? else {
            return Ok(None);
        };
        let (Some(here), _) = self.sum(user, number.span, number)? else {
            return Ok(None);
        };
        if there.num == 0 {
            return Ok(None);
        }
        let by = here.num.abs_diff(there.num);
        let num = by.checked_mul(100).ok_or(AuditFault::TooLarge)?;
        Ok(Some(Exact {
            is_negative: here.num < there.num,
            num,
            den: there.num,
        }))
    }

    // What the weather makes of another span's number.
    fn weather(&self, number: &Number<'_>) -> Result<Option<Exact>, AuditFault>
        ensures { IsHouse (house_of self.now.house.now) → AreGradedAll self.now.house.now.places.items
            → IfOk result (λ x. x ≡ holds word.Weather (house_of self.now.house.now) (key_of number.now)) }
    {
        if !self.has_whole(number.span, number) || !self.has_whole(number.other, number) {
            return Ok(None);
        }
        let (Some(there), _) = self.sum(Holder::User(number.user), number.other, number)? else {
            return Ok(None);
        };
        let degrees = self
            .house
            .declared(Fact::Degrees, number.span)
            .ok_or(AuditFault::Fact)?;
        let before = self
            .house
            .declared(Fact::Degrees, number.other)
            .ok_or(AuditFault::Fact)?;
        if before == 0 {
            return Ok(None);
        }
        Ok(Some(times(there, degrees, u128::from(before))?))
    }

    // A user's sum times a ratio of the span, in parts of a hundred or a thousand.
    fn priced(
        &self,
        number: &Number<'_>,
        fact: Fact,
        parts: u64,
    ) -> Result<Option<Exact>, AuditFault>
        requires { 0 < parts }
        ensures { IsHouse (house_of self.now.house.now) → AreGradedAll self.now.house.now.places.items
            → IfOk result (λ x. x ≡ by_ratio
            (declared (house_of self.now.house.now) fact number.now.span) (Some parts) 1000000
            (sum_of_user (house_of self.now.house.now) (key_of number.now) number.now.span)) }
    {
        let ratio = self
            .house
            .declared(fact, number.span)
            .ok_or(AuditFault::Fact)?;
        match self.sum(Holder::User(number.user), number.span, number)? {
            (Some(exact), _) => Ok(Some(times(exact, ratio, u128::from(parts) * RATIO)?)),
            (None, _) => Ok(None),
        }
    }

    // What holds of a holder's sum, with what is beside it.
    fn summed(&self, holder: Holder<'_>, number: &Number<'_>) -> Result<Holds, AuditFault>
        ensures exact { IsHouse (house_of self.now.house.now) → AreGradedAll self.now.house.now.places.items
            → IfOk result (λ x. x.0 ≡ sum_by_holder (house_of self.now.house.now) (holder_of holder.entry)
            number.now.span number.now.used number.now.unit) }
        ensures beside { IsHouse (house_of self.now.house.now) → AreGradedAll self.now.house.now.places.items
            → IfOk result (λ x. texts_beside x.1 ≡ beside_sum (house_of self.now.house.now)
            (holder_of holder.entry) number.now.span number.now.used) }
    {
        let (exact, total) = self.sum(holder, number.span, number)?;
        let beside = match holder {
            Holder::House => Beside::Counts(total.without, total.count),
            _ => Beside::Mark(total.grade),
        };
        Ok((exact, beside))
    }

    // What holds of a number of the house.
    pub fn holds(&self, number: &Number<'_>, bases: &mut Vec<Basis, A>) -> Result<Holds, Stop>
        requires { AreBases self.now.house.now.places.items self.now.house.now.users.items bases.old.items }
        ensures bases { OnOk result
            (AreBases self.now.house.now.places.items self.now.house.now.users.items bases.new.items) }
        ensures found { IsHouse (house_of self.now.house.now) → AreGradedAll self.now.house.now.places.items
            → IfOk result (λ x. x.0 ≡ exact_of (house_of self.now.house.now) (key_of number.now)) }
        ensures beside { IsHouse (house_of self.now.house.now) → AreGradedAll self.now.house.now.places.items
            → IfOk result (λ x. texts_beside x.1 ≡ beside (house_of self.now.house.now) (key_of number.now)) }
    {
        let exact = match number.word {
            Word::OfUser => return Ok(self.summed(Holder::User(number.user), number)?),
            Word::OfFlat => return Ok(self.summed(Holder::Flat(number.flat), number)?),
            Word::OfHouse => return Ok(self.summed(Holder::House, number)?),
            Word::Mean => self.mean(number, bases)?,
            Word::Change => self.change(number)?,
            Word::Weather => self.weather(number)?,
            Word::Carbon => self.priced(number, Fact::Emissions(number.used), 1_000)?,
            Word::Cost => self.priced(number, Fact::Price(number.used, number.unit), 100)?,
            _ => None,
        };
        Ok((exact, Beside::Nothing))
    }
}
