//! A teller that prints the events of a poll.

use crate::events::objects::put_object;
use crate::events::text::put_line;
use crate::{Event, Teller};
use mbdc_io::{IoFault, Sink};

/// The form in which events are printed.
#[derive(Clone, Copy)]
pub enum Form {
    /// A line of text for each.
    Text,
    /// A JSON object (RFC 8259) for each, in a line of its own.
    Json,
}

/// Prints each event.
#[derive(Drop)]
pub struct Printer<W: Sink + Drop> {
    /// Where it prints to.
    pub out: W,
    /// The form.
    pub form: Form,
}

impl<W: Sink + Drop> Teller for Printer<W> {
    ghost use Rattle.mbdc_poll.specs.Printed.{Prints, PrintsSome};

    ghost takes = { λ old event new. Prints W.Sink old event new };

    ghost breaks = { λ old event new. PrintsSome W.Sink old event new };

    ghost failures = { λ printer. W.put_failures printer.out };

    fn tell(&mut self, event: &Event<'_>) -> Result<(), IoFault> {
        match self.form {
            Form::Text => put_line(&mut self.out, event),
            Form::Json => put_object(&mut self.out, event),
        }
    }
}
