//! The bodies of a reading, as a line of a journal has them.

ghost use Rattle.std.specs.Prelude.{◌≡◌, IfOk, codes, map, option_and_then, option_map};
ghost use Rattle.json.specs.Find.{as_array, get};
ghost use Rattle.mbdc_json.specs.Bodies.{all_bodies, bodies_in, body_in, few_bodies};
ghost use Rattle.json.specs.Value.{items_view, value_view};

use json::Value;
use mbdc_io::{NoMemory, decode_hex};
use mbdc_shown::{Bodies, MOST_BODIES};
use std::alloc::Allocator;
use std::marker::Model;

// Maximum number of bytes of a body.
const ROOM: usize = 256;

/// The bodies of a reading's telegrams, in order. Contracts see them as a list.
#[derive(Drop)]
pub struct Kept<A: Allocator> {
    bodies: Vec<Vec<u8, A>, A>,
}

impl<A: Allocator> Model for Kept<A> {
    ghost use Rattle.std.specs.Prelude.{ℕ, List, ◌≤◌, length, map};
    ghost use Rattle.mbdc_change.specs.Fields.{most_parts};

    ghost Value = { List (List ℕ) };

    ghost view = { λ k. map (λ b. b.items) k.bodies.items };

    ghost invariant = { λ k. length k.bodies.items ≤ most_parts };
}

impl<A: Allocator + Copy> Kept<A> {
    /// Those that a line has which is this object; none where it has none.
    pub(crate) fn of(alloc: A, json: &Value<'_, A>) -> Result<Kept<A>, NoMemory>
        ensures { IfOk result (λ kept. kept ≡ bodies_in (value_view json.now)) }
    {
        let found = match array_in(json) {
            Some(items) => all_bodies(alloc, items)?,
            None => None,
        };
        Ok(Kept::few(alloc, found))
    }

    // These, if a readout may have as many.
    #[tactic(auto, using(crate::proofs::Bodies::few_are, crate::proofs::Bodies::too_many))]
    fn few(alloc: A, found: Option<Vec<Vec<u8, A>, A>>) -> Kept<A>
        ensures { result ≡ few_bodies (option_map (λ bs. map (λ b. b.items) bs.items) found) }
    {
        match found {
            Some(bodies) if bodies.len() <= MOST_BODIES => Kept { bodies },
            _ => Kept {
                bodies: Vec::new(alloc),
            },
        }
    }

    /// The bodies.
    pub(crate) fn bodies(&self) -> Bodies<'_>
        ensures { result ≡ self.now }
    {
        let mut bodies = Bodies::none();
        'bodies: for body in &self.bodies {
            bodies.push(body.as_slice());
        }
        bodies
    }
}

// The items of the member `bodies`, if it is an array.
fn array_in<'v, 'a, A: Allocator>(json: &'v Value<'a, A>) -> Option<&'v [Value<'a, A>]>
    ensures { option_map (λ items. items_view items.now) result
        ≡ option_and_then as_array (get (codes "bodies") (value_view json.now)) }
{
    if let Some(Value::Array(items)) = json.get("bodies") {
        Some(items.as_slice())
    } else {
        None
    }
}

// The bodies that are the items of an array, if each is one.
#[tactic(auto, using(crate::proofs::Bodies::all_left, crate::proofs::Bodies::all_before))]
fn all_bodies<A: Allocator + Copy>(
    alloc: A,
    items: &[Value<'_, A>],
) -> Result<Option<Vec<Vec<u8, A>, A>>, NoMemory>
    ensures { IfOk result (λ found. option_map (λ bs. map (λ b. b.items) bs.items) found
        ≡ all_bodies (items_view items.now)) }
{
    let mut bodies = Vec::new(alloc);
    'items: for item in items {
        match body_of(alloc, item)? {
            Some(body) => bodies.push(body)?,
            None => return Ok(None),
        }
    }
    Ok(Some(bodies))
}

// The body that a text is, if it is one of hex digits.
fn body_of<A: Allocator + Copy>(
    alloc: A,
    json: &Value<'_, A>,
) -> Result<Option<Vec<u8, A>>, NoMemory>
    ensures { IfOk result (λ found. option_map (λ b. b.items) found ≡ body_in (value_view json.now)) }
{
    let Some(text) = json.as_str() else {
        return Ok(None);
    };
    if text.len() > 2 * ROOM {
        return Ok(None);
    }
    let mut room = [0u8; ROOM];
    match decode_hex(text.as_bytes(), &mut room) {
        Some(len) => Ok(Some(Vec::from_slice(alloc, &room[..len])?)),
        None => Ok(None),
    }
}
