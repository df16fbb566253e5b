//! The engine of the looks at an image: what is printed of it.

ghost use Rattle.std.specs.Prelude.{◌≡◌, ◌<◌, ◌≤◌, ◌++◌, ◌↔◌, IsOk, IfOk, IfErr, OnOk};
ghost use Rattle.std.specs.Prelude.{IsErrOf, option_map};
ghost use Rattle.mbdc_io.specs.Failures.{HasRisen};
ghost use Rattle.dc_sectors.specs.Runs.{OnlyLooked, Counts};
ghost use Rattle.mbdc_log.specs.Greatest.{IsGreatest};
ghost use Rattle.mbdc_log.specs.Halves.{budget_of, fewest_sectors, half_len_of, half_of, longest_half};
ghost use Rattle.mbdc_log.specs.declared.fault.OpenFault.TheVariants.{Device};
ghost use Rattle.mbdc_looks.specs.Answer.{IsAnswer, IsSeen, contents_text, house_text, seen_house};
ghost use Rattle.mbdc_looks.specs.Answer.{is_silent, small_text, table_text};
ghost use Rattle.mbdc_looks.specs.Look.{EndsLook, IsPlaced, seen_of};
ghost use Rattle.mbdc_looks.specs.Told.{IsOfLook};

use crate::asking::{Asked, Form, Report};
use crate::look::{Look, Outlook, Slots, look_at, read_slots};
use crate::report::{put_due_objects, put_register_objects};
use crate::text::{put_image, put_number_line, put_refused_line};
use dc_meters::House;
use dc_report::{due_table, register_table, rows};
use dc_sectors::{Disk, Failed};
use mbdc_ending::ProgramFault;
use mbdc_io::{Bytes, IoFault, NoMemory, Sink};
use mbdc_json::journal::Journal;
use mbdc_json::latest::put_values;
use mbdc_json::status::{Clock, any_silent, put_status, put_status_objects};
use mbdc_json::{put_overview, put_value_objects};
use mbdc_log::{FEWEST_SECTORS, Greatest, OpenFault, greatest_of, half_len_of};
use std::alloc::Allocator;

/// What is printed of an image, and what the program's status says of it.
#[derive(Drop)]
pub struct Shown<A: Allocator> {
    /// The text, whole.
    pub text: Bytes<A>,
    /// What opening would make of the image.
    pub outlook: Outlook,
    /// Whether a meter is silent, where the status was asked for.
    pub is_silent: bool,
}

// A put into memory fails if memory runs out.
fn kept(put: Result<(), IoFault>) -> Result<(), NoMemory>
    ensures { IsOk result ↔ IsOk put }
{
    match put {
        Ok(()) => Ok(()),
        Err(IoFault) => Err(NoMemory),
    }
}

// Appends a table of a house.
fn add_table<A: Allocator + Copy>(
    alloc: A,
    house: &House<A>,
    report: Report,
    form: Form,
    text: &mut Bytes<A>,
) -> Result<(), NoMemory>
    ensures { OnOk result (text.new.bytes
        ≡ text.old.bytes ++ table_text form report house.now.state) }
{
    match (form, report) {
        (Form::Text, Report::Register) => {
            let table = register_table(alloc, house)?;
            kept(text.put(table.as_slice()))
        }
        (Form::Text, Report::Due(date)) => {
            let table = due_table(alloc, house, date)?;
            kept(text.put(table.as_slice()))
        }
        (Form::Json, Report::Register) => kept(put_register_objects(text, house)),
        (Form::Json, Report::Due(date)) => {
            let rows = rows(alloc, house, date)?;
            kept(put_due_objects(text, date, rows.as_slice()))
        }
    }
}

// Appends what is asked of a house.
fn add_house<A: Allocator + Copy>(
    alloc: A,
    asked: &Asked,
    journal: &Journal<A>,
    house: &House<A>,
    text: &mut Bytes<A>,
) -> Result<(), NoMemory>
    ensures { OnOk result (text.new.bytes
        ≡ text.old.bytes ++ house_text asked.now journal.now house.now) }
{
    match asked {
        Asked::Contents => Ok(()),
        Asked::Values(Form::Text) => kept(put_values(text, house, journal)),
        Asked::Values(Form::Json) => kept(put_value_objects(text, house, journal)),
        Asked::Status(Form::Text, clock) => kept(put_status(text, house, *clock, journal)),
        Asked::Status(Form::Json, clock) => kept(put_status_objects(text, house, *clock, journal)),
        Asked::Overview(clock) => kept(put_overview(text, house, *clock, journal)),
        Asked::Table(report, form) => add_table(alloc, house, *report, *form, text),
    }
}

// Appends what is asked of the image itself.
fn add_contents<A: Allocator + Copy>(
    asked: &Asked,
    sectors: u32,
    slots: &Slots,
    look: &Look<A>,
    text: &mut Bytes<A>,
) -> Result<(), IoFault>
    requires enough { fewest_sectors ≤ sectors }
    requires placed { IsPlaced (half_len_of sectors) look.now.found }
    ensures { OnOk result (text.new.bytes ≡ text.old.bytes
        ++ contents_text asked.now sectors slots.now.first slots.now.second (option_map seen_of look.now.found)
        look.now.outlook) }
{
    match asked {
        Asked::Contents => {
            put_number_line(text, b"DISK", u64::from(sectors))?;
            put_image(text, half_len_of(sectors), slots, look)
        }
        Asked::Values(_) | Asked::Status(..) | Asked::Overview(_) | Asked::Table(..) => Ok(()),
    }
}

// Whether a meter is silent, if the status is asked for.
fn has_silent<A: Allocator + Copy>(asked: &Asked, journal: &Journal<A>, look: &Look<A>) -> bool
    ensures { result ≡ is_silent asked.now journal.now (option_map seen_of look.now.found) }
{
    match (&look.found, asked) {
        (Some(found), Asked::Status(_, clock) | Asked::Overview(clock)) => {
            any_silent(&found.house, *clock, journal)
        }
        (Some(_), Asked::Contents | Asked::Values(_) | Asked::Table(..)) => false,
        (None, _) => false,
    }
}

// What is asked of an image that was looked at.
fn answer_of<A: Allocator + Copy>(
    alloc: A,
    sectors: u32,
    asked: &Asked,
    journal: &Journal<A>,
    slots: &Slots,
    look: &Look<A>,
) -> Result<Bytes<A>, NoMemory>
    requires enough { fewest_sectors ≤ sectors }
    requires placed { IsPlaced (half_len_of sectors) look.now.found }
    ensures { IfOk result (λ text. text.bytes
        ≡ contents_text asked.now sectors slots.now.first slots.now.second (option_map seen_of look.now.found)
        look.now.outlook
        ++ seen_house asked.now journal.now (budget_of (half_len_of sectors)) (option_map seen_of look.now.found)) }
{
    let mut text = Bytes::new(alloc);
    kept(add_contents(asked, sectors, slots, look, &mut text))?;
    match &look.found {
        Some(found) => add_house(alloc, asked, journal, &found.house, &mut text)?,
        None => {}
    }
    Ok(text)
}

// What is asked of a disk that is too small for an image.
#[tactic(auto, using(mbdc_io::proofs::Pieces::written))]
fn answer_small<A: Allocator>(alloc: A, sectors: u32, asked: Asked) -> Result<Bytes<A>, NoMemory>
    ensures { IfOk result (λ text. text.bytes ≡ small_text asked sectors) }
{
    let mut text = Bytes::new(alloc);
    match asked {
        Asked::Contents => {
            kept(put_number_line(&mut text, b"DISK", u64::from(sectors)))?;
            kept(put_refused_line(&mut text, OpenFault::NotImage))?;
        }
        Asked::Values(_) | Asked::Status(..) | Asked::Overview(_) | Asked::Table(..) => {}
    }
    Ok(text)
}

// Looks at an image, and answers what is asked of it.
fn answer_image<A: Allocator + Copy, D: Disk>(
    alloc: A,
    disk: &mut D,
    sectors: u32,
    greatest: &Greatest,
    asked: &Asked,
    journal: &Journal<A>,
) -> Result<Shown<A>, ProgramFault>
    requires sectors { sectors ≡ D.sectors disk.old }
    requires enough { fewest_sectors ≤ sectors }
    ensures told { D.keeps disk.new → IfOk result (λ answer. IsSeen asked.now journal.now sectors greatest.now
        (D.reads disk.old) answer.text.bytes answer.outlook answer.is_silent) }
    ensures looked { OnlyLooked D.Disk disk.old disk.new }
    ensures ends { EndsLook D.Disk disk.old disk.new result }
{
    let slots = match read_slots(disk) {
        Ok(slots) => slots,
        Err(Failed) => return Err(ProgramFault::Open(OpenFault::Device)),
    };
    let look = look_at(alloc, disk, half_len_of(sectors), greatest)?;
    let is_silent = has_silent(asked, journal, &look);
    let outlook = look.outlook;
    match answer_of(alloc, sectors, asked, journal, &slots, &look) {
        Ok(text) => Ok(Shown {
            text,
            outlook,
            is_silent,
        }),
        Err(NoMemory) => Err(ProgramFault::NoMemory),
    }
}

/// Reads both halves of an image once, in no memory, and returns the greatest session and sequence that their sectors
/// carry: what [`answer`] and [`register_of`](crate::register_of) compare the state with that they read. While a store
/// writes the image, a scan before the look finds each sector that is ahead of what the look reads: a store that opened
/// an image that stands writes none.
///
/// # Errors
/// `Open(Device)` if a read of the disk failed.
pub fn scan<D: Disk>(disk: &mut D) -> Result<Greatest, ProgramFault>
    ensures greatest { D.keeps disk.new → fewest_sectors ≤ D.sectors disk.old → IfOk result (λ greatest.
        IsGreatest (half_of D.Disk disk.old) greatest (D.reads disk.old)) }
    ensures looked { OnlyLooked D.Disk disk.old disk.new }
    ensures counts { Counts D.Disk disk.old disk.new (IsErrOf result (ProgramFault.Open Device)) }
    ensures faults { IfErr result (λ fault. fault ≡ ProgramFault.Open Device) }
{
    let sectors = disk.count();
    if sectors < FEWEST_SECTORS {
        return Ok(Greatest::NONE);
    }
    match greatest_of(disk, half_len_of(sectors)) {
        Ok(greatest) => Ok(greatest),
        Err(Failed) => Err(ProgramFault::Open(OpenFault::Device)),
    }
}

/// Looks at an image: reads the root slots and the state that the image reads as, each sector of the chain once, and
/// returns the text of what is asked; of values and status with what the journal says. Nothing is written to the disk
/// and nothing is synced, not even the next root. Of an image that can't be read the text says why, or is empty.
///
/// # Errors
/// `Open(Device)` if a read of the disk failed, and [`ProgramFault::NoMemory`] if memory ran out.
pub fn answer<A: Allocator + Copy, D: Disk>(
    alloc: A,
    disk: &mut D,
    greatest: &Greatest,
    asked: Asked,
    journal: &Journal<A>,
) -> Result<Shown<A>, ProgramFault>
    // The text states what the image reads as and a sector that is ahead of it, or the image's one refusal.
    ensures told { D.keeps disk.new → IfOk result (λ answer. IsAnswer asked journal.now (D.sectors disk.old)
        greatest.now (D.reads disk.old) answer.text.bytes answer.outlook answer.is_silent) }

    // The disk reads as before, and so does what a stop at any moment leaves.
    ensures looked { OnlyLooked D.Disk disk.old disk.new }
    ensures counts { Counts D.Disk disk.old disk.new (IsErrOf result (ProgramFault.Open Device)) }

    // A fault of the disk is returned only if it counted a failure.
    ensures faults { IfErr result (IsOfLook (HasRisen (D.failures disk.old) (D.failures disk.new))) }
{
    let sectors = disk.count();
    if sectors >= FEWEST_SECTORS {
        return answer_image(alloc, disk, sectors, greatest, &asked, journal);
    }
    match answer_small(alloc, sectors, asked) {
        Ok(text) => Ok(Shown {
            text,
            outlook: Outlook {
                refusal: Some(OpenFault::NotImage),
                ahead: None,
            },
            is_silent: false,
        }),
        Err(NoMemory) => Err(ProgramFault::NoMemory),
    }
}
