//! What the words ask for, by what `clap` matched.

use crate::words::fault::{LinkFault, WordsFault};
use crate::words::link::LinkName;
use crate::words::links::Links;
use crate::words::rows::program;
use crate::words::silence::silence_of;
use crate::words::task::{
    BusTask, Call, Engine, Form, Layout, OrderTask, PollTask, RunTask, Task, Turn,
};
use clap::ArgMatches;
use dc_address::Primary;
use dc_meters::named::{Named, identity_of};
use mbdc_change::Flat;
use mbdc_installer::bench::{Listing, MeterName, Scan, Target, Work};
use std::alloc::Global;

// The greatest primary address.
const GREATEST: u8 = 250;

// The word for standard input.
const DASH: &str = "-";

// The word for secondary addressing.
const SECONDARY: &str = "S";

/// What the words ask for. The first word is the program's name.
///
/// # Errors
/// [`WordsFault`]: they name no task. Help and the version are such, too.
pub fn call_of<'a>(alloc: Global, words: &'a [String]) -> Result<Call<'a>, WordsFault> {
    let Ok(program) = program(alloc) else {
        return Err(WordsFault::NoMemory);
    };
    let matches = match program.try_get_matches_from(words) {
        Ok(matches) => matches,
        Err(error) => return Err(WordsFault::Clap(error)),
    };
    let task = match matches.subcommand() {
        None => Ok(Task::Lines {
            engine: Engine::Decode(Form::Text),
            file: None,
        }),
        Some((name, inner)) => match name {
            "audit" if inner.get_str("PAGE").is_some() => {
                match (file_of(inner, "PAGE"), file_of(inner, "FILE")) {
                    (Ok(page), Ok(file)) => Ok(Task::Sheet { page, file }),
                    (Err(fault), _) | (_, Err(fault)) => Err(fault),
                }
            }
            "decode" | "fold" | "audit" => Ok(lines_task(name, inner)),
            "demo" => Ok(Task::Demo),
            "scan" | "read" | "address" => bus_task(name, inner),
            _ => image_task(alloc, name, inner),
        },
    };
    Ok(Call {
        task: task?,
        is_verbose: matches.get_flag("VERBOSE"),
    })
}

// The tasks over lines. Words that the command doesn't have are absent.
fn lines_task<'a>(name: &str, inner: &ArgMatches<'a>) -> Task<'a> {
    let engine = match name {
        "fold" => Engine::Fold,
        "audit" if inner.get_flag("FILL") => Engine::Fill,
        "audit" => Engine::Audit,
        _ if inner.get_flag("JSON") => Engine::Decode(Form::Json),
        _ if inner.get_flag("EXPLAIN") => Engine::Decode(Form::Table),
        _ => Engine::Decode(Form::Text),
    };
    // - and no word are standard input.
    let file = match inner.get_str("FILE") {
        Some(DASH) => None,
        file => file,
    };
    Task::Lines { engine, file }
}

// The name of a file that can't be standard input.
fn file_of<'a>(inner: &ArgMatches<'a>, id: &str) -> Result<&'a str, WordsFault> {
    match inner.get_str(id) {
        Some(DASH) => Err(WordsFault::Dash),
        file => Ok(file.unwrap_or_default()),
    }
}

// The tasks over one bus.
fn bus_task<'a>(name: &str, inner: &ArgMatches<'a>) -> Result<Task<'a>, WordsFault> {
    let link = LinkName::parse(inner.get_str("LINK").unwrap_or_default())?;
    let work = match name {
        "scan" if inner.get_flag("PRIMARY") => Work::Search(Scan::Primary),
        "scan" => Work::Search(Scan::Wildcards(inner.get_one("BUDGET").unwrap_or_default())),
        "address" => {
            let reached = match meter_of(inner.get_str("OLD").unwrap_or_default()) {
                Some(MeterName::Identity(meter)) => Target::Meter(meter),
                Some(MeterName::Address(address)) => Target::Address(address),
                Some(MeterName::Number(_)) | None => return Err(WordsFault::Reached),
            };
            Work::Address(reached, inner.get_one("NEW").unwrap_or_default())
        }
        _ => {
            let meter = inner.get_str("METER").unwrap_or_default();
            Work::Read(meter_of(meter).ok_or(WordsFault::Meter)?)
        }
    };
    Ok(Task::Bus(BusTask {
        link,
        work,
        listing: match inner.get_one("CSV") {
            Some(line) => Listing::Csv(line),
            None if inner.get_flag("JSON") => Listing::Json,
            None => Listing::Text,
        },
        patience: inner.get_one("PATIENCE").unwrap_or_default(),
        trace: inner.get_str("TRACE"),
    }))
}

// The tasks over an image.
fn image_task<'a>(
    alloc: Global,
    name: &str,
    inner: &ArgMatches<'a>,
) -> Result<Task<'a>, WordsFault> {
    let image = file_of(inner, "IMAGE")?;
    match name {
        "format" => Ok(Task::Format {
            image,
            sectors: inner.get_one("SECTORS").unwrap_or_default(),
        }),
        "report" | "inspect" | "values" | "status" => look_task(name, image, inner),
        "fit" => Ok(Task::Fit {
            image,
            list: file_of(inner, "LIST")?,
        }),
        "swap" | "move" | "out" => order_task(name, image, inner),
        "copy" => Ok(Task::Copy {
            image,
            file: file_of(inner, "FILE")?,
        }),
        "rescue" => Ok(Task::Rescue {
            image,
            file: file_of(inner, "FILE")?,
        }),
        "run" => Ok(Task::Run(RunTask {
            image,
            gateway: match inner.get_str("GATEWAY") {
                Some(place) => Some(LinkName::gateway(place)?),
                None => None,
            },
            script: file_of(inner, "SCRIPT")?,
            patience: inner.get_one("PATIENCE").unwrap_or_default(),
        })),
        _ => poll_task(alloc, image, inner),
    }
}

// One command on the register.
fn order_task<'a>(
    name: &str,
    image: &'a str,
    inner: &ArgMatches<'a>,
) -> Result<Task<'a>, WordsFault> {
    let meter = inner.get_str("METER").unwrap_or_default();
    let meter = Named::parse(meter.as_bytes()).ok_or(WordsFault::Meter)?;
    let flat = match inner.get_str("FLAT") {
        Some(word) => Some(Flat::new(word.as_bytes()).ok_or(WordsFault::Flat)?),
        None => None,
    };
    let turn = match (name, flat) {
        ("swap", flat) => {
            let new = inner.get_str("NEWMETER").unwrap_or_default();
            let new = identity_of(new.as_bytes()).ok_or(WordsFault::Meter)?;
            let address = match inner.get_str("ADDRESS").unwrap_or(SECONDARY) {
                SECONDARY => None,
                word => {
                    let number = word.parse::<u8>().ok().ok_or(WordsFault::Address)?;
                    Some(Primary::new(number).ok_or(WordsFault::Address)?)
                }
            };
            Turn::Swap { new, address, flat }
        }
        (_, Some(flat)) => Turn::Move(flat),
        (_, None) => Turn::Out,
    };
    Ok(Task::Order(OrderTask { image, meter, turn }))
}

// The tasks that look at an image.
fn look_task<'a>(
    name: &str,
    image: &'a str,
    inner: &ArgMatches<'a>,
) -> Result<Task<'a>, WordsFault> {
    // How what the meters say is printed: at most one of the options is there.
    let is_json = inner.get_flag("JSON");
    let layout = if is_json {
        Layout::Json
    } else if inner.get_flag("AS_LINES") {
        Layout::Lines
    } else if inner.get_flag("AS_TABLE") {
        Layout::Table
    } else {
        Layout::Default
    };
    match name {
        "report" => Ok(Task::Report {
            image,
            table: inner.get_str("TABLE").unwrap_or_default(),
            is_json,
        }),
        "inspect" => Ok(Task::Inspect { image }),
        "values" => Ok(Task::Values { image, layout }),
        _ => {
            let word = inner.get_str("SILENT").unwrap_or_default();
            Ok(Task::Status {
                image,
                silent: silence_of(word.as_bytes()).ok_or(WordsFault::Silence)?,
                layout,
            })
        }
    }
}

fn poll_task<'a>(
    alloc: Global,
    image: &'a str,
    inner: &ArgMatches<'a>,
) -> Result<Task<'a>, WordsFault> {
    let mut only = Vec::new(alloc);
    for word in inner.get_strs("ONLY").unwrap_or_default() {
        let named = Named::parse(word.as_bytes()).ok_or(WordsFault::Meter)?;
        if only.push(named).is_err() {
            return Err(WordsFault::NoMemory);
        }
    }
    let links = links_of(inner)?;
    if links.is_empty() {
        return Err(WordsFault::NoLink);
    }
    Ok(Task::Poll(PollTask {
        image,
        links,
        only,
        tries: inner.get_one("TRIES").unwrap_or_default(),
        is_json: inner.get_flag("JSON"),
        patience: inner.get_one("PATIENCE"),
        trace: inner.get_str("TRACE"),
    }))
}

fn links_of<'a>(inner: &ArgMatches<'a>) -> Result<Links<'a>, LinkFault> {
    let mut links = Links::none();
    for word in inner.get_strs("LINE").unwrap_or_default() {
        links.add(word)?;
    }
    Ok(links)
}

// An identity, the eight digits of a number, or a primary address.
fn meter_of(word: &str) -> Option<MeterName> {
    match Named::parse(word.as_bytes()) {
        Some(Named::Identity(meter)) => Some(MeterName::Identity(meter)),
        Some(Named::Number(digits)) => Some(MeterName::Number(digits)),
        None => match word.parse::<u8>() {
            Ok(address) if address <= GREATEST => Some(MeterName::Address(address)),
            _ => None,
        },
    }
}
