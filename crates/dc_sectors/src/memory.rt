//! A disk in memory, which can be stopped.

ghost use Rattle.std.specs.Prelude.{◌≡◌, ◌≢◌, ◌⊎◌, ◌<◌, ℕ, Some, None, IfOk, OnOk, OnErr};
ghost use Rattle.std.specs.Prelude.{IsErr, IsErrOf, [], length};
ghost use Rattle.std.specs.List.{AllZip};
ghost use Rattle.dc_sectors.specs.declared.sector.ReadFault.TheVariants.{Failed as ReadFailed};
ghost use Rattle.dc_sectors.specs.Disk.{Answers, Elapses, IsImage, put, added, settled};
ghost use Rattle.dc_sectors.specs.Memory.{blank, pending_of, pending_below, reads_of, choices_of};
ghost use Rattle.dc_sectors.specs.Memory.{IsPickFor, image_picked, picked_from, IsKept, IsRead};
ghost use Rattle.dc_sectors.specs.Memory.{IsWrite, IsSync, MemoryCounts, answer_of};
ghost use Rattle.dc_sectors.specs.Record.{image_of, writes_after, ImageSince};

use crate::calls::Calls;
use crate::event::Event;
use crate::scan::picked;
use crate::{Disk, Failed, Pick, ReadFault, Sector};
use mbdc_io::NoMemory;
use std::alloc::Allocator;
use std::marker::Model;

/// A disk in memory, for tests and demonstrations. It keeps the disk model, records each write and
/// each sync, fails where a test says so, and can crash.
#[derive(Drop)]
pub struct MemoryDisk<A: Allocator + Copy> {
    start: Vec<Sector, A>,
    reads: Vec<Sector, A>,
    writes: Vec<usize, A>,
    events: Vec<Event, A>,
    calls: Calls,
}

impl<A: Allocator + Copy> Model for MemoryDisk<A> {
    ghost use Rattle.std.specs.Prelude.{vec_capacity};
    ghost use Rattle.dc_sectors.specs.Memory.{Memory, IsKept};

    ghost Value = { Memory };

    ghost view = { λ d. record {
      start = d.start.items;
      events = d.events.items;
      capacity = vec_capacity d.events;
      calls = d.calls;
    } };

    ghost invariant = { λ d. IsKept d.start.items d.reads.items d.writes.items d.events.items };
}

impl<A: Allocator + Copy> MemoryDisk<A> {
    /// A disk of that many sectors of zeros, which keeps all that it records in this allocator's memory.
    pub fn new(alloc: A, count: u32) -> Result<MemoryDisk<A>, NoMemory>
        ensures { IfOk result (λ disk. disk ≡ blank count) }
    {
        let zeros = Sector::Bytes([0; 512]);
        let start = vec![in alloc; zeros; count as usize]?;
        let reads = vec![in alloc; zeros; count as usize]?;
        let writes = vec![in alloc; 0; count as usize]?;
        Ok(MemoryDisk {
            start,
            reads,
            writes,
            events: Vec::new(alloc),
            calls: Calls::NONE,
        })
    }

    /// After this many more calls every call fails, until a crash.
    pub fn fuse(&mut self, passes: u64)
        ensures { self.new ≡ record self.old {
          calls = record self.old.calls { fuse = Some passes };
        } }
    {
        self.calls.fuse = Some(passes);
    }

    /// This many calls more pass, and the next one alone fails.
    pub fn fail_once(&mut self, passes: u64)
        ensures { self.new ≡ record self.old {
          calls = record self.old.calls { fails_at = Some passes };
        } }
    {
        self.calls.fails_at = Some(passes);
    }

    /// Number of reads, writes and syncs so far; it saturates at `u64::MAX`.
    pub fn calls(&self) -> u64
        ensures { result ≡ self.now.calls.made }
    {
        self.calls.made
    }

    /// A copy of the disk, which shares nothing with it.
    pub fn copy(&self) -> Result<MemoryDisk<A>, NoMemory>
        ensures { IfOk result (λ disk. disk ≡ record self.now { capacity = disk.capacity }) }
    {
        let alloc = *self.events.allocator();
        Ok(MemoryDisk {
            start: Vec::from_slice(alloc, &self.start)?,
            reads: Vec::from_slice(alloc, &self.reads)?,
            writes: Vec::from_slice(alloc, &self.writes)?,
            events: Vec::from_slice(alloc, &self.events)?,
            calls: self.calls,
        })
    }

    /// The sectors that were written since the last sync that succeeded, ascending, each with its number
    /// of writes.
    pub fn pending(&self) -> Result<Vec<(u32, usize), A>, NoMemory>
        ensures { IfOk result (λ pending. pending.items ≡ pending_of self.now) }
    {
        let mut pending = Vec::new(*self.events.allocator());
        for n in 0..self.writes.len() {
            let writes = self.writes[n];
            if writes > 0 {
                pending.push((n as u32, writes))?;
            }
        }
        Ok(pending)
    }
}

impl<A: Allocator + Copy> MemoryDisk<A> {
    /// Stops the disk, with one pick for each pending sector, ascending. What was picked is what the disk
    /// reads from then on, with no record of what came before, and no failure set.
    pub fn stop(&mut self, picks: &[Pick])
        requires { AllZip IsPickFor (pending_of self.old) picks.now }
        ensures picked { reads_of self.new ≡ image_picked self.old picks.now }
        ensures choice { IsImage (choices_of self.old) (reads_of self.new) }
        ensures only { choices_of self.new ≡ settled (reads_of self.new) }
        ensures rest { self.new ≡ record {
          start = self.new.start;
          events = [];
          capacity = self.new.capacity;
          calls = record self.old.calls { fuse = None; fails_at = None };
        } }
        ensures count { length self.new.start ≡ length self.old.start }
    {
        pick_each(
            &mut self.reads,
            &self.start,
            &self.events,
            &self.writes,
            picks,
        );
        self.start.copy_from_slice(&self.reads);
        self.writes.fill(0);
        self.events.clear();
        self.calls.fuse = None;
        self.calls.fails_at = None;
    }
}

fn pick_each(
    reads: &mut [Sector],
    start: &[Sector],
    events: &[Event],
    writes: &[usize],
    picks: &[Pick],
)
    requires kept { IsKept start.now reads.old writes.now events.now }
    requires picks { length picks.now
        ≡ length (pending_below (writes_after events.now) (length start.now)) }
    ensures { image_of reads.new ≡ picked_from (image_of start.now) events.now picks.now }
{
    let mut next = 0;
    for n in 0..writes.len() {
        if writes[n] > 0 {
            reads[n] = picked(start[n], events, n as u32, picks[next]);
            next += 1;
        }
    }
}

impl<A: Allocator + Copy> Disk for MemoryDisk<A> {
    ghost use Rattle.dc_sectors.specs.Record.{reads_a_choice, counts_now, only_now};

    ghost keeps = { λ _. Unit {0} };

    ghost sectors = { λ disk. length disk.start };

    ghost reads = { reads_of };

    ghost choices = { choices_of };

    ghost moment = { λ disk. length disk.events };

    ghost images_since = { λ disk. ImageSince (image_of disk.start) disk.events };

    ghost failures = { λ disk. disk.calls.failed };

    ghost reads_a_choice = { λ disk. reads_a_choice (image_of disk.start) disk.events };

    ghost counts_now = { λ disk. counts_now (image_of disk.start) disk.events };

    ghost only_now = { λ disk. only_now (image_of disk.start) disk.events };

    fn count(&self) -> u32 {
        self.reads.len() as u32
    }

    fn read(&mut self, n: u32) -> Result<[u8; 512], ReadFault>
        requires { n < length self.old.start }
        ensures exact { IsRead self.old n result self.new }
        ensures answer { Answers (reads_of self.old n) result }
        ensures reads { reads_of self.new ≡ reads_of self.old }
        ensures choices { choices_of self.new ≡ choices_of self.old }
        ensures time { Elapses (length self.old.events) (length self.new.events)
            (ImageSince (image_of self.old.start) self.old.events)
            (ImageSince (image_of self.new.start) self.new.events) (IsImage (choices_of self.old)) }
        ensures counts { MemoryCounts self.old self.new (IsErrOf result ReadFailed) }
    {
        if !self.calls.begin() {
            let _ = self.calls.fail();
            return Err(ReadFault::Failed);
        }
        answer(self.reads[n as usize])
    }

    fn write(&mut self, n: u32, bytes: &[u8; 512]) -> Result<(), Failed>
        requires { n < length self.old.start }
        ensures exact { IsWrite self.old n bytes.now result self.new }
        ensures reads { OnOk result (reads_of self.new ≡ put (reads_of self.old) n bytes.now) }
        ensures elsewhere { (m : ℕ) → m ≢ n → reads_of self.new m ≡ reads_of self.old m }
        ensures choices { OnOk result (choices_of self.new
            ≡ added (choices_of self.old) n bytes.now) }
        ensures choices_err { OnErr result
            ((choices_of self.new ≡ added (choices_of self.old) n bytes.now)
            ⊎ (choices_of self.new ≡ choices_of self.old)) }
        ensures time { Elapses (length self.old.events) (length self.new.events)
            (ImageSince (image_of self.old.start) self.old.events)
            (ImageSince (image_of self.new.start) self.new.events)
            (IsImage (added (choices_of self.old) n bytes.now)) }
        ensures counts { MemoryCounts self.old self.new (IsErr result) }
    {
        let done = self.calls.begin();
        let event = Event::Write {
            at: n,
            bytes: *bytes,
            done,
        };
        if self.events.push(event).is_err() {
            return Err(self.calls.fail());
        }
        self.writes[n as usize] += 1;
        if !done {
            return Err(self.calls.fail());
        }
        self.reads[n as usize] = Sector::Bytes(*bytes);
        Ok(())
    }

    fn sync(&mut self) -> Result<(), Failed>
        ensures exact { IsSync self.old result self.new }
        ensures reads { reads_of self.new ≡ reads_of self.old }
        ensures choices { OnOk result (choices_of self.new ≡ settled (reads_of self.old)) }
        ensures choices_err { OnErr result (choices_of self.new ≡ choices_of self.old) }
        ensures time { Elapses (length self.old.events) (length self.new.events)
            (ImageSince (image_of self.old.start) self.old.events)
            (ImageSince (image_of self.new.start) self.new.events) (IsImage (choices_of self.old)) }
        ensures counts { MemoryCounts self.old self.new (IsErr result) }
    {
        if !self.calls.begin() {
            return Err(self.calls.fail());
        }
        if self.events.push(Event::Sync).is_err() {
            return Err(self.calls.fail());
        }
        self.writes.fill(0);
        Ok(())
    }
}

fn answer(sector: Sector) -> Result<[u8; 512], ReadFault>
    ensures { result ≡ answer_of sector }
{
    match sector {
        Sector::Bytes(bytes) => Ok(bytes),
        Sector::Unreadable => Err(ReadFault::Unreadable),
    }
}
