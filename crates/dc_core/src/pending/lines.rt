//! The eight bus lines and their sessions.

ghost use Rattle.std.specs.Prelude.{◌≡◌, ◌≤◌, true, Option};
ghost use Rattle.dc_readout.specs.Summary.{Summary};
ghost use Rattle.dc_core.specs.Lines.{is_line, no_sessions, on_line, put_on, settled_on};
ghost use Rattle.dc_core.specs.Lines.{settled_lines, unless_of, lines_without};
ghost use Rattle.dc_core.specs.Lines.{requests_of, NoMoreRequests};

use dc_address::Identity;
use dc_readout::Session;
use std::marker::Model;

// Number of bus lines.
const LINES: u8 = 8;

/// The sessions on the eight lines. A line's number counts from 1.
#[derive(Drop)]
pub struct Lines {
    sessions: [Option<Session>; LINES as usize],
}

impl Model for Lines {
    ghost use Rattle.std.specs.Prelude.{List, Option};
    ghost use Rattle.dc_readout.specs.Summary.{Summary};

    ghost Value = { List (Option Summary) };

    ghost view = { λ l. l.sessions };
}

impl Lines {
    /// Returns lines without sessions.
    pub fn new() -> Lines
        ensures { result ≡ no_sessions }
    {
        Lines {
            sessions: [None; LINES as usize],
        }
    }

    /// The session on that line, which must exist.
    pub fn get(&self, line: u8) -> Option<Session>
        requires { is_line line ≡ true }
        ensures { result ≡ on_line line self.now }
    {
        let place = usize::from(line) - 1;
        self.sessions[place]
    }

    /// Sets or removes the session on that line, which must exist.
    pub fn put(&mut self, line: u8, session: Option<Session>)
        requires { is_line line ≡ true }
        ensures { self.new ≡ put_on line session self.old }
    {
        self.sessions[usize::from(line) - 1] = session;
    }

    /// Ends the session of a meter, if it has one.
    pub fn end(&mut self, meter: &Identity)
        ensures { self.new ≡ lines_without meter.now self.old }
    {
        end_each(&mut self.sessions, meter);
    }

    /// Acknowledges every pending telegram. After the last one of a readout its line has no
    /// session.
    pub fn settle(&mut self)
        ensures exact { self.new ≡ settled_lines self.old }
        ensures no_more { NoMoreRequests self.old self.new }
    {
        settle_each(&mut self.sessions);
    }
}

fn end_each(sessions: &mut [Option<Session>], meter: &Identity)
    ensures { sessions.new ≡ lines_without meter.now sessions.old }
{
    for session in sessions.iter_mut() {
        *session = unless_of(*session, meter);
    }
}

fn unless_of(session: Option<Session>, meter: &Identity) -> Option<Session>
    ensures { result ≡ unless_of meter.now session }
{
    let session = session?;
    if session.meter() == *meter {
        None
    } else {
        Some(session)
    }
}

fn settle_each(sessions: &mut [Option<Session>])
    ensures exact { sessions.new ≡ settled_lines sessions.old }
    ensures no_more { NoMoreRequests sessions.old sessions.new }
{
    for session in sessions.iter_mut() {
        *session = settled(*session);
    }
}

fn settled(session: Option<Session>) -> Option<Session>
    ensures exact { result ≡ settled_on session }
    ensures no_more { requests_of result ≤ requests_of session }
{
    let mut session = session?;
    if !session.is_pending() {
        return Some(session);
    }
    session.settle();
    if session.is_asking() {
        Some(session)
    } else {
        None
    }
}

/// Whether the line of that number exists.
pub fn is_line(line: u8) -> bool
    ensures { result ≡ is_line line }
{
    (1..=LINES).contains(&line)
}
