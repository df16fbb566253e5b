//! The contents of an image that is only read.

ghost use Rattle.std.specs.Prelude.{◌≡◌, ◌<◌, ◌≤◌, ◌+◌, ◌*◌, IfOk, IfErr, IsErr};
ghost use Rattle.dc_sectors.specs.Runs.{OnlyLooked, Counts};
ghost use Rattle.mbdc_log.specs.Halves.{longest_half};
ghost use Rattle.mbdc_log.specs.Refusal.{TellsOfImage};
ghost use Rattle.mbdc_looks.specs.Look.{AreHeld, EndsLook, IsPlaced, IsSeenAs, IsStop};
ghost use Rattle.mbdc_looks.specs.Told.{IsWearOf};

use dc_meters::House;
use dc_roots::{Held, Root, read_slot};
use dc_sectors::{Disk, Failed};
use mbdc_ending::ProgramFault;
use mbdc_log::{Found, Greatest, OpenFault, is_spent, read_chain};
use std::alloc::Allocator;

/// The contents of the two root slots.
#[derive(Clone, Copy)]
pub(crate) struct Slots {
    /// Sector 1.
    pub first: Held,
    /// Sector 2.
    pub second: Held,
}

/// What opening would make of an image that was looked at.
#[derive(Clone, Copy)]
pub struct Outlook {
    /// Why it doesn't open, if it doesn't.
    pub refusal: Option<OpenFault>,
    /// A sector that is ahead of the state that it reads as, if one is: a sector that had been synced was lost.
    pub ahead: Option<u32>,
}

/// The state that an image reads as, and what opening would make of it.
#[derive(Drop)]
pub(crate) struct Look<A: Allocator + Copy> {
    /// The state and its place, if the image reads as one.
    pub found: Option<Found<House<A>>>,
    /// What opening would make of it.
    pub outlook: Outlook,
}

/// Reads both root slots.
pub(crate) fn read_slots<D: Disk>(disk: &mut D) -> Result<Slots, Failed>
    requires { 2 < D.sectors disk.old }
    ensures held { D.keeps disk.new → IfOk result (λ slots. AreHeld (D.reads disk.old) slots) }
    ensures looked { OnlyLooked D.Disk disk.old disk.new }
    ensures counts { Counts D.Disk disk.old disk.new (IsErr result) }
{
    let first = read_slot(disk, 1)?;
    let second = read_slot(disk, 2)?;
    Ok(Slots { first, second })
}

// Sorts a fault of reading: a refusal, which is a fact of the image, or a fault that ends the
// inspection.
fn refusal_of(fault: OpenFault) -> Result<OpenFault, ProgramFault>
    ensures told { IfOk result (λ refusal. (refusal ≡ fault) × TellsOfImage fault) }
    ensures stopped { IfErr result (IsStop fault) }
{
    match fault {
        OpenFault::Device => Err(ProgramFault::Open(OpenFault::Device)),
        OpenFault::NoMemory => Err(ProgramFault::NoMemory),
        OpenFault::NotImage | OpenFault::Damaged(_) | OpenFault::Version | OpenFault::Worn => {
            Ok(fault)
        }
    }
}

// Why an image that reads doesn't open, if it doesn't.
pub(crate) fn wear_of(root: &Root, last: u64) -> Option<OpenFault>
    ensures { IsWearOf root.now last result }
{
    if is_spent(root, last) {
        Some(OpenFault::Worn)
    } else {
        None
    }
}

/// Reads an image's contents, as opening reads them, and compares them with what a scan of the halves found.
pub(crate) fn look_at<A: Allocator + Copy, D: Disk>(
    alloc: A,
    disk: &mut D,
    half_len: u32,
    greatest: &Greatest,
) -> Result<Look<A>, ProgramFault>
    requires most { half_len ≤ longest_half }
    requires fits { 3 + 2 * half_len ≤ D.sectors disk.old }
    ensures seen { D.keeps disk.new → IfOk result (λ look.
        IsSeenAs half_len greatest.now (D.reads disk.old) look.found look.outlook) }
    ensures looked { OnlyLooked D.Disk disk.old disk.new }
    ensures placed { IfOk result (λ look. IsPlaced half_len look.found) }
    ensures ends { EndsLook D.Disk disk.old disk.new result }
{
    match read_chain(alloc, disk, half_len) {
        Ok(found) => {
            let refusal = wear_of(&found.root, found.last);
            let ahead = greatest.ahead_of(found.root.session, found.last);
            Ok(Look {
                found: Some(found),
                outlook: Outlook { refusal, ahead },
            })
        }
        Err(fault) => {
            let refusal = refusal_of(fault)?;
            Ok(Look {
                found: None,
                outlook: Outlook {
                    refusal: Some(refusal),
                    ahead: None,
                },
            })
        }
    }
}
