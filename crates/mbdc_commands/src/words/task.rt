//! What the words ask for.

use crate::words::link::LinkName;
use crate::words::links::Links;
use dc_address::{Identity, Primary};
use dc_meters::named::Named;
use mbdc_change::Flat;
use mbdc_installer::bench::{Listing, Work};
use std::alloc::Global;

/// How the frames of an input are printed.
#[derive(Clone, Copy)]
pub enum Form {
    /// Lines of words, one a fact.
    Text,
    /// JSON Lines: an object a frame or fault.
    Json,
    /// A table for a person.
    Table,
}

/// An engine over lines.
#[derive(Clone, Copy)]
pub enum Engine {
    /// Print each frame.
    Decode(Form),
    /// Answer each telegram and command, and print the register after them.
    Fold,
    /// Check published numbers.
    Audit,
    /// The same, and print the file with the numbers that it asks for.
    Fill,
}

/// What is done on one bus, without an image.
#[derive(Clone, Copy)]
pub struct BusTask<'a> {
    /// The bus.
    pub link: LinkName<'a>,
    /// What is done there.
    pub work: Work,
    /// How meters that are found are printed.
    pub listing: Listing,
    /// The time-out of an answer in milliseconds.
    pub patience: u16,
    /// The file of the trace, if one is written; `-` is standard error.
    pub trace: Option<&'a str>,
}

/// A script over an image, in files.
#[derive(Clone, Copy)]
pub struct RunTask<'a> {
    /// The image's file.
    pub image: &'a str,
    /// The script's file.
    pub script: &'a str,
    /// The link of the gateway, if there is one.
    pub gateway: Option<LinkName<'a>>,
    /// The time-out of an answer in milliseconds.
    pub patience: u16,
}

/// The readout of the registered meters over an image.
#[derive(Drop)]
pub struct PollTask<'a> {
    /// The image's file.
    pub image: &'a str,
    /// The links of the bus lines.
    pub links: Links<'a>,
    /// The meters to read; if empty, all of the connected lines.
    pub only: Vec<Named>,
    /// Maximum number of times that a readout is begun.
    pub tries: u8,
    /// Whether its events are printed as JSON Lines.
    pub is_json: bool,
    /// The time-out of an answer in milliseconds; that of the link where none is given.
    pub patience: Option<u16>,
    /// The file of the trace, if one is written; `-` is standard error.
    pub trace: Option<&'a str>,
}

/// What becomes of a registered meter.
#[derive(Clone, Copy)]
pub enum Turn {
    /// Another meter takes its place.
    Swap {
        /// The new meter.
        new: Identity,
        /// Its primary address; `None` for secondary addressing.
        address: Option<Primary>,
        /// The flat in which the old one has to be, if one is named.
        flat: Option<Flat>,
    },
    /// It gets another flat.
    Move(Flat),
    /// It is removed.
    Out,
}

/// One command on the register of an image.
#[derive(Clone, Copy)]
pub struct OrderTask<'a> {
    /// The image's file.
    pub image: &'a str,
    /// The registered meter.
    pub meter: Named,
    /// What becomes of it.
    pub turn: Turn,
}

/// A call of the program: what it is asked to do, and how much it says.
#[derive(Drop)]
pub struct Call<'a> {
    /// The task.
    pub task: Task<'a>,
    /// Whether it prints on standard error why it failed.
    pub is_verbose: bool,
}

/// How what the meters of an image say is printed.
#[derive(Clone, Copy)]
pub enum Layout {
    /// As a table at a terminal, and else as lines of words.
    Default,
    /// As lines of words.
    Lines,
    /// As JSON Lines.
    Json,
    /// As a table, a line a meter.
    Table,
}

/// The task that the words name.
#[derive(Drop)]
pub enum Task<'a> {
    /// An engine over a file, or over standard input.
    Lines {
        /// The engine.
        engine: Engine,
        /// The file's name.
        file: Option<&'a str>,
    },
    /// A tenant's page beside its audit file.
    Sheet {
        /// The page's file.
        page: &'a str,
        /// The audit file.
        file: &'a str,
    },
    /// An image of an empty register, in a file.
    Format {
        /// The file's name.
        image: &'a str,
        /// Number of sectors.
        sectors: u32,
    },
    /// A script over an image, in files.
    Run(RunTask<'a>),
    /// A table of what an image holds.
    Report {
        /// The image's file.
        image: &'a str,
        /// The word for the table.
        table: &'a str,
        /// Whether its rows are printed as JSON Lines.
        is_json: bool,
    },
    /// What an image holds, without opening it.
    Inspect {
        /// The image's file.
        image: &'a str,
    },
    /// What the meters of an image stand at, without opening it.
    Values {
        /// The image's file.
        image: &'a str,
        /// How it is printed.
        layout: Layout,
    },
    /// When the meters of an image were last heard, without opening it.
    Status {
        /// The image's file.
        image: &'a str,
        /// The number of seconds after which a meter is silent.
        silent: u64,
        /// How it is printed.
        layout: Layout,
    },
    /// The meters of a list, added to the register of an image.
    Fit {
        /// The image's file.
        image: &'a str,
        /// The list's file.
        list: &'a str,
    },
    /// One command on the register of an image.
    Order(OrderTask<'a>),
    /// A copy of an image, in a new file.
    Copy {
        /// The image's file.
        image: &'a str,
        /// The new file.
        file: &'a str,
    },
    /// What an image reads as, or what is left of it, in a new image.
    Rescue {
        /// The image's file.
        image: &'a str,
        /// The new image's file.
        file: &'a str,
    },
    /// The readout of the registered meters over an image.
    Poll(PollTask<'a>),
    /// What is done on one bus, without an image.
    Bus(BusTask<'a>),
    /// A house of one simulated meter, in memory.
    Demo,
}
