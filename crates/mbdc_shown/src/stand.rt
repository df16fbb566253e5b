//! What is shown of a reading: its headline, and its current records.

ghost use Rattle.std.specs.Prelude.{◌≡◌, None, map, option_map};
ghost use Rattle.std.specs.Iterator.{YieldsFirstBy};
ghost use Rattle.mbdc_reading.specs.Sent.{sent_view};
ghost use Rattle.mbdc_reading.specs.Headline.{headline, next_in};
ghost use Rattle.mbdc_shown.specs.Stand.{bodies_sent, is_in, left_after, listed};

use crate::bodies::Bodies;
use mbdc_reading::content::{Key, MOST_TARIFFS, Main, key_of, next_in};
use mbdc_reading::{How, Sent, SentRecords, reading_of};
use std::marker::Model;

/// A list of current records: those of storage number 0 that are instantaneous (EN 13757-3).
#[derive(Clone, Copy)]
pub enum Current {
    /// Those that the due-date table has.
    Values,
    /// Those that are read otherwise.
    Also,
    /// Those that aren't read.
    Unread,
}

// Whether a record is in a list.
fn is_in(list: Current, sent: &Sent<'_>) -> bool
    ensures { result ≡ is_in list (sent_view sent.now) }
{
    if sent.record.storage != 0 || sent.record.function != 0 {
        return false;
    }
    matches!(
        (list, reading_of(&sent.record, sent.len).how),
        (Current::Values, How::Point(_))
            | (Current::Also, How::Plain | How::Qualified)
            | (Current::Unread, How::Other)
    )
}

/// The current records of a list, in the order of the telegrams and of their records. Contracts see the list of those
/// that are still to come.
#[derive(Drop)]
pub struct Listed<'a> {
    list: Current,
    records: SentRecords<'a>,
    bodies: &'a [&'a [u8]],
    // How many of the bodies were begun.
    gone: usize,
}

impl<'a> Model for Listed<'a> {
    ghost use Rattle.std.specs.Prelude.{List, ◌++◌, drop, map};
    ghost use Rattle.mbdc_reading.specs.Sent.{Sent};
    ghost use Rattle.mbdc_shown.specs.Stand.{bodies_sent, listed};

    ghost Value = { List Sent };

    ghost view = { λ l. listed l.list (l.records ++ bodies_sent (map (λ s. s.now) (drop l.gone l.bodies.now))) };
}

impl<'a> Listed<'a> {
    /// Those of telegrams.
    pub fn new(list: Current, bodies: &'a Bodies<'a>) -> Self
        ensures { result ≡ listed list (bodies_sent bodies.now) }
    {
        Listed {
            list,
            records: SentRecords::of_body(&[]),
            bodies: bodies.as_slice(),
            gone: 0,
        }
    }
}

impl<'a> Iterator for Listed<'a> {
    ghost use Rattle.std.specs.Iterator.{YieldsFirstBy, item_count};
    ghost use Rattle.mbdc_reading.specs.Sent.{sent_view};

    type Item = Sent<'a>;

    ghost next_gives = { YieldsFirstBy sent_view (λ l. l) };

    ghost remaining = { item_count (λ l. l) };

    fn next(&mut self) -> Option<Sent<'a>> {
        'bodies: loop {
            if let Some(sent) = next_listed(self.list, &mut self.records) {
                return Some(sent);
            }
            if self.gone >= self.bodies.len() {
                return None;
            }
            self.records = SentRecords::of_body(self.bodies[self.gone]);
            self.gone += 1;
        }
    }
}

// The next of these records that is in a list.
fn next_listed<'a>(list: Current, records: &mut SentRecords<'a>) -> Option<Sent<'a>>
    ensures { YieldsFirstBy sent_view (listed list) records.old result records.new }
{
    while let Some(sent) = records.next() {
        if is_in(list, &sent) {
            return Some(sent);
        }
    }
    None
}

/// The records that a meter stands at. Contracts see the list of those that are still to come.
#[derive(Drop)]
pub struct Headline<'a> {
    main: Option<Main>,
    last: Option<Key>,
    left: u32,
    bodies: &'a [&'a [u8]],
}

impl<'a> Model for Headline<'a> {
    ghost use Rattle.std.specs.Prelude.{List, map};
    ghost use Rattle.mbdc_reading.specs.Sent.{Sent};
    ghost use Rattle.mbdc_shown.specs.Stand.{bodies_sent, headline_left};

    ghost Value = { List Sent };

    ghost view = { λ h. headline_left h.left h.main h.last (bodies_sent (map (λ s. s.now) h.bodies.now)) };
}

impl<'a> Headline<'a> {
    /// What a meter of this device type stands at after telegrams.
    #[tactic(auto, unfolding(mbdc_reading::specs::Headline::headline))]
    pub fn new(kind: u8, bodies: &'a Bodies<'a>) -> Self
        ensures { result ≡ headline kind (bodies_sent bodies.now) }
    {
        Headline {
            main: Main::of(kind),
            last: None,
            left: MOST_TARIFFS,
            bodies: bodies.as_slice(),
        }
    }
}

impl<'a> Iterator for Headline<'a> {
    ghost use Rattle.std.specs.Iterator.{YieldsFirstBy, item_count};
    ghost use Rattle.mbdc_reading.specs.Sent.{sent_view};

    type Item = Sent<'a>;

    ghost next_gives = { YieldsFirstBy sent_view (λ h. h) };

    ghost remaining = { item_count (λ h. h) };

    #[tactic(auto, using(crate::proofs::Sents::next_headline, crate::proofs::Sents::none_next, crate::proofs::Sents::none_left, crate::proofs::Sents::no_main))]
    fn next(&mut self) -> Option<Sent<'a>> {
        if self.left == 0 {
            return None;
        }
        let main = self.main?;
        let sent = next_of(main, self.last, self.bodies)?;
        self.left = left_after(self.left, sent.record.tariff);
        self.last = Some(key_of(&sent));
        Some(sent)
    }
}

// How many records may come after one of this tariff: none after a total.
fn left_after(left: u32, tariff: u32) -> u32
    ensures { result ≡ left_after left tariff }
{
    if tariff == 0 {
        return 0;
    }
    left.saturating_sub(1)
}

// The record that comes next after the last one.
fn next_of<'a>(main: Main, last: Option<Key>, bodies: &'a [&'a [u8]]) -> Option<Sent<'a>>
    ensures { option_map sent_view result ≡ next_in main last None (bodies_sent (map (λ s. s.now) bodies.now)) }
{
    let mut best = None;
    for body in bodies {
        best = next_in(main, last, best, SentRecords::of_body(*body));
    }
    best
}
