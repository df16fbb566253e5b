//! The commands `inspect`, `values`, `status` and `report`: an image in a file, which is only read.

use crate::clock::moment;
use crate::table::table_of;
use dc_sectors::snapshot::Sample;
use mbdc_commands::look_ending;
use mbdc_commands::words::Layout;
use mbdc_ending::{Ending, STREAM, ending_of};
use mbdc_files::{Host, LookedAt, Output, ROUNDS, journal_lines, own_lines};
use mbdc_io::{IoFault, NoMemory};
use mbdc_json::journal::{Journal, read_journal};
use mbdc_json::status::Clock as Silence;
use mbdc_log::Greatest;
use mbdc_looks::{Asked, Form, Outlook, Report, Shown, answer, register_of, scan};
use std::alloc::Global;
use std::fs::File;
use std::io;
use std::io::Write;
use std::rt::{Clock, Files};

// Seconds after which a meter is silent where nothing is said of it: the default of `status`.
const SILENT: u64 = 172_800;

// The mistake of a word that names no table.
const NO_TABLE: &str =
    "TABLE is neither 'register' nor a date that exists, as 2024-12-31; try mbdc --help";

/// Where standard output goes.
#[derive(Clone, Copy)]
pub struct Screen {
    /// It is a terminal.
    pub is_terminal: bool,
    /// It is one that takes colours.
    pub is_coloured: bool,
}

/// Prints what is asked of the image in that file, as it stands at one instant; another program may write it. A table
/// for a person may be coloured.
pub fn look_into<'a, R>(
    host: &Host<'_, R>,
    asked: Asked,
    image: &'a str,
    is_coloured: bool,
) -> Ending<'a>
where
    R: Files<File = File> + Clock + Print + Eprint + AllocGlobal,
{
    let journal = match journal_for(host, &asked, image) {
        Ok(journal) => journal,
        Err(ending) => return ending,
    };
    let (shown, is_whole) = match look(host, asked, &journal, image) {
        Ok(looked) => looked,
        Err(ending) => return ending,
    };
    let Outlook { refusal, ahead } = shown.outlook;
    let ending = look_ending(refusal, ahead, is_whole, shown.is_silent);
    // A table is printed only of an image that would be opened.
    if matches!(asked, Asked::Table(..)) && (refusal.is_some() || !is_whole) {
        return ending;
    }
    let text = match asked {
        Asked::Overview(_) => table_of(host.rt.alloc(), shown.text.as_slice(), is_coloured),
        _ => Ok(shown.text),
    };
    let Ok(text) = text else {
        return Ending::Memory;
    };
    let mut out = Output::new(io::writer(host.rt), host, false);
    if out.write_all(text.as_slice()).is_err() || out.flush().is_err() {
        return Ending::File(STREAM);
    }
    ending
}

// What the journal beside the image says, where it is asked for.
fn journal_for<'a, R: Files<File = File> + Clock + Eprint + AllocGlobal>(
    host: &Host<'_, R>,
    asked: &Asked,
    image: &str,
) -> Result<Journal<Global>, Ending<'a>> {
    let alloc = host.rt.alloc();
    let now = match (asked, moment(host.rt)) {
        (Asked::Status(_, clock) | Asked::Overview(clock), _) => clock.now,
        (Asked::Values(_), Some(moment)) => moment.seconds,
        _ => return Ok(Journal::none(alloc)),
    };
    let lines = match journal_lines(host.rt, image) {
        Ok(Some(lines)) => lines,
        Ok(None) => return Ok(Journal::none(alloc)),
        Err(_) => return Err(Ending::Memory),
    };
    // The serial of the image's next reading, which its journal doesn't have; of one that doesn't read, the greatest
    // number.
    let mut next_serial = u64::MAX;
    if let Ok(file) = LookedAt::open(host, image)
        && let Ok(mut disk) = file.disk(image)
        && let Ok((house, _)) = register_of(alloc, &mut disk, &Greatest::NONE)
    {
        next_serial = house.next_serial();
    }
    match read_journal(alloc, own_lines(lines.as_slice(), next_serial), now) {
        Ok(journal) => Ok(journal),
        Err(NoMemory) => Err(Ending::Memory),
    }
}

// What is asked of the image, and whether the drive can read each sector that opening reads.
fn look<'a, R: Files<File = File> + AllocGlobal>(
    host: &Host<'_, R>,
    asked: Asked,
    journal: &Journal<Global>,
    image: &'a str,
) -> Result<(Shown<Global>, bool), Ending<'a>> {
    let file = LookedAt::open(host, image)?;
    let greatest = match scan(&mut file.disk(image)?) {
        Ok(greatest) => greatest,
        Err(fault) => return Err(ending_of(Err(fault), image)),
    };
    // Opening goes on past an unreadable sector that nothing needs. It is still named.
    let is_scanned_whole = !host.why.has_unreadable.get();
    host.why.has_unreadable.set(false);
    host.why.last.set(None);
    for _ in 0..ROUNDS {
        let mut sample = Sample::new(host.rt.alloc(), file.disk(image)?);
        let shown = match answer(host.rt.alloc(), &mut sample, &greatest, asked, journal) {
            Ok(shown) => shown,
            Err(fault) => return Err(ending_of(Err(fault), image)),
        };
        if file.stands(sample, image)? {
            let is_whole = !host.why.has_unreadable.get();
            // One that only the scan came to is named where nothing stops the look.
            let Outlook { refusal, ahead } = shown.outlook;
            if is_whole && refusal.is_none() && ahead.is_none() {
                host.why.has_unreadable.set(!is_scanned_whole);
            }
            return Ok((shown, is_whole));
        }
    }
    Err(file.busy(image))
}

/// Prints the table that the word names.
pub fn report_on<'a, R>(
    host: &Host<'_, R>,
    image: &'a str,
    table: &str,
    is_json: bool,
) -> Ending<'a>
where
    R: Files<File = File> + Clock + Print + Eprint + AllocGlobal,
{
    let Some(report) = Report::parse(table.as_bytes()) else {
        return Ending::Words(NO_TABLE);
    };
    let form = if is_json { Form::Json } else { Form::Text };
    look_into(host, Asked::Table(report, form), image, false)
}

/// Prints when the meters of the image in that file were last heard; one is silent after `silent` seconds. Where that
/// isn't asked, prints what they stand at. At a terminal both are a table.
pub fn tell<'a, R>(
    host: &Host<'_, R>,
    image: &'a str,
    silent: Option<u64>,
    layout: Layout,
    screen: Screen,
) -> Ending<'a>
where
    R: Files<File = File> + Clock + Print + Eprint + AllocGlobal,
{
    let (is_table, form) = match layout {
        Layout::Table => (true, Form::Text),
        Layout::Json => (false, Form::Json),
        Layout::Lines => (false, Form::Text),
        Layout::Default => (screen.is_terminal, Form::Text),
    };
    let clock = match moment(host.rt) {
        Some(moment) => Silence {
            now: moment.seconds,
            patience: silent.unwrap_or(SILENT),
        },
        None if silent.is_none() && !is_table => {
            return look_into(host, Asked::Values(form), image, false);
        }
        None => return Ending::Clock,
    };
    let asked = match silent {
        _ if is_table => Asked::Overview(clock),
        Some(_) => Asked::Status(form, clock),
        None => Asked::Values(form),
    };
    match look_into(host, asked, image, screen.is_coloured) {
        Ending::Faulty if silent.is_none() => Ending::Clean,
        ending => ending,
    }
}
