//! A bus as a list of meters, on which a search is run.

ghost use Rattle.std.specs.Prelude.{◌≡◌, ◌<◌, ◌≤◌, ◌+◌, ◌*◌, ◌++◌, ◌∷◌, [], Contains, IfOk, OnOk};
ghost use Rattle.std.specs.Prelude.{Some, None, filter, length, take, min, if◌then◌else◌, nat_le};
ghost use Rattle.dc_address.specs.Identity.{wire_of};
ghost use Rattle.dc_address.specs.Mask.{matches};
ghost use Rattle.dc_search.specs.Answer.{answer_of};
ghost use Rattle.dc_search.specs.Bus.{IsMatching, visited};
ghost use Rattle.dc_search.specs.State.{step_of};
ghost use Rattle.dc_search.specs.Walk.{FindsAll, found_of, shared_of, walk_of};
ghost use Rattle.dc_search.specs.declared.step.Step.TheVariants.{Select};

use crate::fault::SearchFault;
use crate::search::Search;
use crate::step::Step;
use dc_address::{Identity, Mask};
use dc_linkframe::control::{RSP_UD, VARIABLE_DATA};
use dc_linkframe::{ACK, FrameBuf, write_long};
use mbdc_io::NoMemory;
use std::alloc::Allocator;

/// A byte that is no frame, as read when answers collide.
const NOISE: u8 = 0x00;

/// The meters that match a mask: none, one or several.
#[derive(Clone, Copy)]
pub enum Matching {
    /// No meter.
    Nobody,
    /// Exactly this meter.
    One(Identity),
    /// Two or more meters.
    More,
}

/// Finds the meters on a bus that match a mask.
pub fn matches_on(bus: &[Identity], mask: &Mask) -> Matching
    ensures { IsMatching result (filter (matches mask.now) bus.now) }
{
    let mut only = None;
    for meter in bus {
        if mask.matches(meter) {
            if only.is_some() {
                return Matching::More;
            }
            only = Some(*meter);
        }
    }
    match only {
        None => Matching::Nobody,
        Some(meter) => Matching::One(meter),
    }
}

/// Writes a telegram's body: a header without records.
fn body_of(meter: &Identity) -> [u8; 12]
    ensures { result ≡ wire_of meter.now ++ 0 ∷ 0 ∷ 0 ∷ 0 ∷ [] }
{
    let mut body = [0; 12];
    body[..8].copy_from_slice(&meter.wire());
    body
}

/// A meter's answer to a request for data: a telegram with a header and no records.
pub fn telegram_of(meter: &Identity) -> FrameBuf
    ensures { answer_of result ≡ Some meter.now }
{
    let mut frame = FrameBuf::new();
    write_long(RSP_UD, 0, VARIABLE_DATA, &body_of(meter), &mut frame);
    frame
}

/// Performs the selection that is due: silence where no meter matches; else an acknowledgement and,
/// to the request that follows, the one meter's telegram or noise.
fn select<A: Allocator + Copy>(
    search: &mut Search<A>,
    bus: &[Identity],
    mask: &Mask,
) -> Result<(), SearchFault>
    requires { step_of search.old ≡ Select mask.now }
    ensures { OnOk result (search.new ≡ visited (filter (matches mask.now) bus.now) search.old) }
{
    match matches_on(bus, mask) {
        Matching::Nobody => search.heard(&[]),
        Matching::One(meter) => {
            search.heard(&[ACK])?;
            search.heard(telegram_of(&meter).as_slice())
        }
        Matching::More => {
            search.heard(&[ACK])?;
            search.heard(&[NOISE])
        }
    }
}

/// Runs a search on a bus given as the list of its meters. A selection that no meter matches is
/// answered by silence, one that one meter matches by an acknowledgement and then its telegram, any
/// other by an acknowledgement and then bytes that are no frame. Found meters and shared numbers
/// ascend.
pub fn sweep<A: Allocator + Copy>(
    alloc: A,
    bus: &[Identity],
    budget: u32,
) -> Result<Search<A>, NoMemory>
    // It follows the walk, as far as the budget goes.
    ensures found { IfOk result (λ search.
        search.found ≡ found_of (take budget (walk_of bus.now))) }
    ensures shared { IfOk result (λ search.
        search.shared ≡ shared_of (take budget (walk_of bus.now))) }
    ensures selections { IfOk result (λ search.
        search.selections ≡ min budget (length (walk_of bus.now))) }
    ensures step { IfOk result (λ search. step_of search
        ≡ (if nat_le (length (walk_of bus.now)) budget then Step.Done else Step.Budget)) }

    // The whole walk finds every meter and ends.
    ensures whole { IfOk result (λ search. length (walk_of bus.now) ≤ budget
        → FindsAll bus.now search.found search.shared) }
    ensures bound { length (walk_of bus.now) ≤ 1 + 40 * length bus.now }
{
    let mut search = Search::new(alloc, budget);
    while let Step::Select(mask) = search.next() {
        if select(&mut search, bus, &mask).is_err() {
            return Err(NoMemory);
        }
    }
    Ok(search)
}
