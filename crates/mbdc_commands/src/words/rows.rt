//! The commands and their words, as rows, and as `clap` gets them.

use crate::words::help;
use clap::builder::ValueParser;
use clap::{Arg, ArgAction, Command};
use std::alloc::{AllocError, Global};

// The place in help of an option that each command has: after its own.
const LAST: usize = 90;

fn arg_of<'a>(alloc: Global, row: &Row) -> Result<Arg<'a>, AllocError> {
    let arg = Arg::new(alloc, row.id)
        .required(row.is_required)
        .action(row.action)
        .value_parser(row.parser)
        .value_names(row.values)
        .default_values(row.defaults)
        .help(row.help);
    let arg = match row.long {
        Some(long) => arg.long(long),
        None => arg,
    };
    arg.conflicts_with_all(row.others)
}

fn command_of<'a>(alloc: Global, row: &CommandRow) -> Result<Command<'a>, AllocError> {
    let mut args = Vec::new(alloc);
    for row in row.args {
        args.push(arg_of(alloc, row)?)?;
    }
    Command::new(alloc, row.name)
        .about(row.about)
        .after_help(row.after)
        .args(args)
}

/// The program, as `clap` reads its words.
pub(crate) fn program<'a>(alloc: Global) -> Result<Command<'a>, AllocError> {
    let verbose = arg_of(alloc, &VERBOSE)?;
    // It may stand before a command and after it.
    let verbose = verbose.global(true).display_order(LAST);
    let program = Command::new(alloc, "mbdc")
        .version(help::VERSION)
        .override_help(help::PROGRAM)
        .arg(verbose)?;
    let program = with_lines(alloc, program)?;
    let program = with_reading(alloc, program)?;
    let program = with_changes(alloc, program)?;
    let program = with_copies(alloc, program)?;
    let program = with_looks(alloc, program)?;
    with_bus(alloc, program)
}

// The program with these commands.
fn with<'a>(
    alloc: Global,
    program: Command<'a>,
    rows: &[CommandRow],
) -> Result<Command<'a>, AllocError> {
    let mut program = program;
    for row in rows {
        let command = command_of(alloc, row)?;
        program = program.subcommand(command)?;
    }
    Ok(program)
}

// A function for each group: the checker's work at one grows with the cube of its rows.

fn with_lines<'a>(alloc: Global, program: Command<'a>) -> Result<Command<'a>, AllocError> {
    with(alloc, program, LINES)
}

fn with_reading<'a>(alloc: Global, program: Command<'a>) -> Result<Command<'a>, AllocError> {
    with(alloc, program, READING)
}

fn with_changes<'a>(alloc: Global, program: Command<'a>) -> Result<Command<'a>, AllocError> {
    with(alloc, program, CHANGES)
}

fn with_copies<'a>(alloc: Global, program: Command<'a>) -> Result<Command<'a>, AllocError> {
    with(alloc, program, COPIES)
}

fn with_looks<'a>(alloc: Global, program: Command<'a>) -> Result<Command<'a>, AllocError> {
    with(alloc, program, LOOKS)
}

fn with_bus<'a>(alloc: Global, program: Command<'a>) -> Result<Command<'a>, AllocError> {
    with(alloc, program, BUS)
}

// An argument of a command.
#[derive(Clone, Copy)]
struct Row {
    // The name by which it is asked for, and that of its value in help.
    id: &'static str,
    // `--LONG`; a word at its place has none.
    long: Option<&'static str>,
    // The name of an option's value in help.
    values: &'static [&'static str],
    // What a use of it does.
    action: ArgAction,
    // What its value has to be.
    parser: ValueParser<'static>,
    // Whether it has to be there.
    is_required: bool,
    // The value that it has where none is given.
    defaults: &'static [&'static str],
    // The options beside which it can't be.
    others: &'static [&'static str],
    // What help says of it.
    help: &'static str,
}

// A command.
#[derive(Clone, Copy)]
struct CommandRow {
    // Its word.
    name: &'static str,
    // What it does.
    about: &'static str,
    // What follows its words in its help.
    after: &'static str,
    // Its words, in the order of help.
    args: &'static [Row],
}

// A word that has to be there.
const WORD: Row = Row {
    id: "",
    long: None,
    values: &[],
    action: ArgAction::Set,
    parser: ValueParser::String,
    is_required: true,
    defaults: &[],
    others: &[],
    help: "",
};

// An option with a value.
const OPTION: Row = Row {
    is_required: false,
    ..WORD
};

// `--LONG`, which is there or not.
const FLAG: Row = Row {
    action: ArgAction::SetTrue,
    parser: ValueParser::Bool,
    is_required: false,
    ..WORD
};

// ---- words of several commands

const VERBOSE: Row = Row {
    id: "VERBOSE",
    long: Some("verbose"),
    help: "Prints a second line that says why a command failed",
    ..FLAG
};

const IMAGE: Row = Row {
    id: "IMAGE",
    help: "The image's file",
    ..WORD
};

// The file of a command that makes a new image of one.
const NEW_IMAGE: Row = Row {
    id: "FILE",
    help: "The new image's file: nothing has its name yet",
    ..WORD
};

// A meter that is registered.
const METER: Row = Row {
    id: "METER",
    help: "The registered meter, by identity or number",
    ..WORD
};

const LINK: Row = Row {
    id: "LINK",
    help: "The bus: tcp://HOST:PORT, serial:PATH or blocks://HOST:PORT",
    ..WORD
};

// `--line N=LINK`, as often as there are lines.
const LINE: Row = Row {
    id: "LINE",
    long: Some("line"),
    values: &["N=LINK"],
    action: ArgAction::Append,
    help: "The link of bus line N: tcp://HOST:PORT, serial:PATH or blocks://HOST:PORT",
    ..OPTION
};

// `--patience` of `poll`: each link has a default of its own.
const POLL_PATIENCE: Row = Row {
    id: "PATIENCE",
    long: Some("patience"),
    values: &["MS"],
    parser: ValueParser::Signed(1, 60_000),
    help: "Milliseconds without a first byte that are silence, from 1 to 60000 [default: 6000 for tcp://, else 2000]",
    ..OPTION
};

// `--patience` of the other commands.
const PATIENCE: Row = Row {
    defaults: &["2000"],
    help: "Milliseconds without a first byte that are silence, from 1 to 60000",
    ..POLL_PATIENCE
};

const TRACE: Row = Row {
    id: "TRACE",
    long: Some("trace"),
    values: &["FILE"],
    help: "Writes each request and answer to this file; - is standard error",
    ..OPTION
};

const JSON: Row = Row {
    id: "JSON",
    long: Some("json"),
    help: "Prints JSON Lines, an object a meter",
    ..FLAG
};

// `--table` and `--lines` of a command that prints a table at a terminal and lines elsewhere.
const AS_TABLE: Row = Row {
    id: "AS_TABLE",
    long: Some("table"),
    others: &["AS_LINES", "JSON"],
    help: "Prints a table, a line a meter: the default at a terminal",
    ..FLAG
};

const AS_LINES: Row = Row {
    id: "AS_LINES",
    long: Some("lines"),
    others: &["JSON"],
    help: "Prints all that is known, in lines of words: the default in a pipe or file",
    ..FLAG
};

// ---- the commands, in groups

// Commands over lines.
const LINES: &[CommandRow] = &[
    CommandRow {
        name: "decode",
        about: "Prints what each M-Bus frame says: link fields, meter, records, end",
        after: help::DECODE,
        args: &[
            Row {
                help: "Prints JSON Lines, an object a frame or fault",
                ..JSON
            },
            Row {
                id: "EXPLAIN",
                long: Some("explain"),
                others: &["JSON"],
                help: "Prints a table in words",
                ..FLAG
            },
            Row {
                id: "FILE",
                is_required: false,
                help: "Lines of hex digits [default: standard input]",
                ..WORD
            },
        ],
    },
    CommandRow {
        name: "fold",
        about: "Applies telegrams and commands to an empty register, and prints it",
        after: help::FOLD,
        args: &[Row {
            id: "FILE",
            help: "Lines of telegrams and commands",
            ..WORD
        }],
    },
    CommandRow {
        name: "audit",
        about: "Checks published numbers against the telegrams they come from",
        after: help::AUDIT,
        args: &[
            Row {
                id: "FILL",
                long: Some("fill"),
                help: "Prints the file with what holds in the place of each ?",
                ..FLAG
            },
            Row {
                id: "PAGE",
                long: Some("sheet"),
                values: &["PAGE"],
                help: "Also compares this tenant's page with the file",
                others: &["FILL"],
                ..OPTION
            },
            Row {
                id: "FILE",
                help: "Lines of telegrams and published numbers",
                ..WORD
            },
        ],
    },
];

// Commands that make an image and read meters into it.
const READING: &[CommandRow] = &[
    CommandRow {
        name: "format",
        about: "Makes an image that holds an empty register",
        after: help::FORMAT,
        args: &[
            Row {
                help: "The image's file; it is made where it isn't there",
                ..IMAGE
            },
            // The least and the greatest number of sectors: what the file of the largest image holds.
            Row {
                id: "SECTORS",
                parser: ValueParser::Signed(131, 131_075),
                help: "How many sectors of 512 bytes it has, from 131 to 131075",
                ..WORD
            },
        ],
    },
    CommandRow {
        name: "poll",
        about: "Reads the registered meters, all connected lines at once",
        after: help::POLL,
        args: &[
            IMAGE,
            Row {
                is_required: true,
                ..LINE
            },
            Row {
                id: "ONLY",
                long: Some("only"),
                values: &["IDENT"],
                action: ArgAction::Append,
                help: "Reads this meter alone, by identity or number; may be given several times",
                ..OPTION
            },
            Row {
                id: "TRIES",
                long: Some("tries"),
                values: &["T"],
                parser: ValueParser::Signed(1, 9),
                defaults: &["2"],
                help: "How often a readout is begun at most, from 1 to 9",
                ..OPTION
            },
            Row {
                help: "Prints JSON Lines, an object an event",
                ..JSON
            },
            POLL_PATIENCE,
            TRACE,
        ],
    },
    CommandRow {
        name: "run",
        about: "Does the lines of a script on an image, and prints the answers",
        after: help::RUN,
        args: &[
            IMAGE,
            Row {
                id: "SCRIPT",
                help: "Lines: AT, START, ASK, HEAR, COMMIT, OFFICE, POLL, SEARCH",
                ..WORD
            },
            PATIENCE,
            Row {
                id: "GATEWAY",
                long: Some("gateway"),
                values: &["HOST:PORT"],
                help: "The gateway of bus line 1, a TCP stream of blocks",
                ..OPTION
            },
        ],
    },
];

// Commands that change the register of an image.
const CHANGES: &[CommandRow] = &[
    CommandRow {
        name: "fit",
        about: "Adds the meters of a list to an image's register, all of them or none",
        after: help::FIT,
        args: &[
            IMAGE,
            Row {
                id: "LIST",
                help: "The list: lines of meter, line, address and flat",
                ..WORD
            },
        ],
    },
    CommandRow {
        name: "swap",
        about: "Replaces a registered meter by another at the same place",
        after: help::SWAP,
        args: &[
            IMAGE,
            METER,
            Row {
                id: "NEWMETER",
                help: "The meter that replaces it, by its whole identity",
                ..WORD
            },
            Row {
                id: "ADDRESS",
                long: Some("address"),
                values: &["A"],
                defaults: &["S"],
                help: "Its primary address, 1 to 250, or S for secondary addressing",
                ..OPTION
            },
            Row {
                id: "FLAT",
                long: Some("flat"),
                values: &["F"],
                help: "Does nothing where the registered meter isn't in this flat",
                ..OPTION
            },
        ],
    },
    CommandRow {
        name: "move",
        about: "Gives a registered meter another flat",
        after: help::MOVE,
        args: &[
            IMAGE,
            METER,
            Row {
                id: "FLAT",
                help: "Its new flat",
                ..WORD
            },
        ],
    },
    CommandRow {
        name: "out",
        about: "Removes a meter from an image's register",
        after: help::OUT,
        args: &[IMAGE, METER],
    },
];

// Commands that make an image of another one.
const COPIES: &[CommandRow] = &[
    CommandRow {
        name: "copy",
        about: "Copies an image as it is at one instant, also while mbdc writes it",
        after: help::COPY,
        args: &[IMAGE, NEW_IMAGE],
    },
    CommandRow {
        name: "rescue",
        about: "Writes what an image reads as, or what is left of it, to a new image",
        after: help::RESCUE,
        args: &[IMAGE, NEW_IMAGE],
    },
];

// Commands that look at an image.
const LOOKS: &[CommandRow] = &[
    CommandRow {
        name: "report",
        about: "Prints an image's register, or its due-date values for a date",
        after: help::REPORT,
        args: &[
            IMAGE,
            Row {
                help: "Prints JSON Lines, an object a row",
                ..JSON
            },
            Row {
                id: "TABLE",
                help: "register, or a date, as 2024-12-31",
                ..WORD
            },
        ],
    },
    CommandRow {
        name: "values",
        about: "Prints what each meter stands at, and changes nothing",
        after: help::VALUES,
        args: &[IMAGE, AS_TABLE, AS_LINES, JSON],
    },
    CommandRow {
        name: "status",
        about: "Prints when each meter was last heard, and how full the image is",
        after: help::STATUS,
        args: &[
            IMAGE,
            Row {
                id: "SILENT",
                long: Some("silent"),
                values: &["TIME"],
                defaults: &["2d"],
                help: "A meter not heard for longer is silent: days, as 2 or 2d, or hours, as 12h",
                ..OPTION
            },
            AS_TABLE,
            AS_LINES,
            JSON,
        ],
    },
    CommandRow {
        name: "inspect",
        about: "Prints what an image holds, and changes nothing",
        after: help::INSPECT,
        args: &[IMAGE],
    },
];

// Commands without an image, over one bus.
const BUS: &[CommandRow] = &[
    CommandRow {
        name: "scan",
        about: "Searches one bus for meters, without an image",
        after: help::SCAN,
        args: &[
            LINK,
            Row {
                id: "BUDGET",
                long: Some("budget"),
                values: &["N"],
                parser: ValueParser::Signed(0, 4_294_967_295),
                defaults: &["1000"],
                help: "The most selections",
                ..OPTION
            },
            Row {
                id: "PRIMARY",
                long: Some("primary"),
                others: &["BUDGET"],
                help: "Asks each primary address from 1 to 250 in place of the wildcard search",
                ..FLAG
            },
            Row {
                id: "CSV",
                long: Some("csv"),
                values: &["N"],
                parser: ValueParser::Signed(1, 8),
                others: &["JSON"],
                help: "Prints a list of bus line N that fit takes once its flats are filled in",
                ..OPTION
            },
            JSON,
            PATIENCE,
            TRACE,
        ],
    },
    CommandRow {
        name: "read",
        about: "Reads one meter on one bus and prints its telegrams, without an image",
        after: help::READ,
        args: &[
            LINK,
            Row {
                id: "METER",
                help: "Its identity, as 12345678.PAD.01.07, its number, or a primary address",
                ..WORD
            },
            PATIENCE,
            TRACE,
        ],
    },
    CommandRow {
        name: "address",
        about: "Gives one meter on one bus another primary address",
        after: help::ADDRESS,
        args: &[
            LINK,
            Row {
                id: "OLD",
                help: "Its identity, as 12345678.PAD.01.07, or the primary address that it has, 0 to 250",
                ..WORD
            },
            Row {
                id: "NEW",
                parser: ValueParser::Signed(0, 250),
                help: "The one that it gets, 0 to 250: nobody may answer there",
                ..WORD
            },
            PATIENCE,
        ],
    },
    CommandRow {
        name: "demo",
        about: "Reads a simulated meter in this process, and reports its value",
        after: help::DEMO,
        args: &[],
    },
];
