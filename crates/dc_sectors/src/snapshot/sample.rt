//! A disk over a file that is looked at, which keeps what was read.

ghost use Rattle.std.specs.Prelude.{◌≡◌, ◌≢◌, ◌⊎◌, ◌<◌, ◌≤◌, ◌∷◌, ℕ, None, Some, Option, Ok, true, false, []};
ghost use Rattle.std.specs.Prelude.{IfErr, IsOk, IsErr};
ghost use Rattle.std.specs.List.{All};
ghost use Rattle.mbdc_io.specs.Failures.{HasRisen};
ghost use Rattle.dc_sectors.specs.FileCalls.{Measured};
ghost use Rattle.dc_sectors.specs.Readings.{HasChanged, IsSampled, StandsAgain, given};

use crate::{Disk, DiskOver, Failed, FileCalls, ReadFault, Sector};
use std::alloc::Allocator;

/// Why nothing can be said of what was read.
#[derive(Clone, Copy)]
pub enum SampleFault {
    /// A call of the file failed, or the sample was written.
    Failed,
    /// Out of memory.
    NoMemory,
}

/// A disk over a file which keeps what each sector gave that was read. It is only read: a write or a sync spoils it.
#[derive(Drop)]
pub struct Sample<A: Allocator, C: FileCalls + Drop> {
    disk: DiskOver<C>,
    kept: Vec<(u32, Sector), A>,
    fault: Option<SampleFault>,
    ghost sampled: { fault ≡ None → IsSampled kept.items disk },
}

impl<A: Allocator, C: FileCalls + Drop> Sample<A, C> {
    /// Begins with nothing read, over a disk that was just opened.
    pub fn new(alloc: A, disk: DiskOver<C>) -> Sample<A, C>
        requires { (bytes : Option ℕ) × (disk.calls ≡ Measured bytes ∷ []) }
        ensures disk { result.disk ≡ disk }
        ensures nothing { result.kept.items ≡ [] }
        ensures no_fault { result.fault ≡ None }
    {
        Sample {
            disk,
            kept: Vec::new(alloc),
            fault: None,
        }
    }

    /// Reads each sector again that was read, and returns whether all gave the same. The disk is returned.
    ///
    /// # Errors
    /// [`SampleFault`].
    pub fn stands(self) -> (Result<bool, SampleFault>, DiskOver<C>)
        ensures sampled { IsOk result.0 → IsSampled self.kept.items self.disk }
        ensures stood { result.0 ≡ Ok true → StandsAgain self.kept.items self.disk.calls result.1.calls }
        ensures changed { result.0 ≡ Ok false → HasChanged self.kept.items self.disk.calls result.1.calls }
        ensures fault { IfErr result.0 (λ fault. (self.fault ≡ Some fault)
            ⊎ ((fault ≡ SampleFault.Failed) × HasRisen self.disk.failures result.1.failures)) }
    {
        let mut disk = self.disk;
        if let Some(fault) = self.fault {
            return (Err(fault), disk);
        }
        match read_again(&mut disk, self.kept.as_slice()) {
            Ok(stood) => (Ok(stood), disk),
            Err(Failed) => (Err(SampleFault::Failed), disk),
        }
    }
}

// Reads each of these sectors again, until one gives something else.
fn read_again<C: FileCalls + Drop>(
    disk: &mut DiskOver<C>,
    kept: &[(u32, Sector)],
) -> Result<bool, Failed>
    requires { All (λ reading. reading.0 < disk.old.sectors) kept.now }
    ensures stood { result ≡ Ok true → StandsAgain kept.now disk.old.calls disk.new.calls }
    ensures changed { result ≡ Ok false → HasChanged kept.now disk.old.calls disk.new.calls }
    ensures failed { IsErr result → HasRisen disk.old.failures disk.new.failures }
{
    'readings: for i in 0..kept.len() {
        let (n, was) = kept[i];
        let Some(is) = content_of(disk.read(n)) else {
            return Err(Failed);
        };
        if !is_same(&was, &is) {
            return Ok(false);
        }
    }
    Ok(true)
}

// What a sector gave, unless the disk failed.
fn content_of(answer: Result<[u8; 512], ReadFault>) -> Option<Sector>
    ensures { result ≡ given answer }
{
    match answer {
        Ok(bytes) => Some(Sector::Bytes(bytes)),
        Err(ReadFault::Unreadable) => Some(Sector::Unreadable),
        Err(ReadFault::Failed) => None,
    }
}

fn is_same(one: &Sector, other: &Sector) -> bool
    ensures same { result ≡ true → one.now ≡ other.now }
    ensures other { result ≡ false → one.now ≢ other.now }
{
    match (one, other) {
        (Sector::Bytes(bytes), Sector::Bytes(others)) => bytes.as_slice() == others.as_slice(),
        (Sector::Unreadable, Sector::Unreadable) => true,
        _ => false,
    }
}

impl<A: Allocator, C: FileCalls + Drop> Disk for Sample<A, C> {
    ghost use Rattle.dc_sectors.specs.File.{HasKept, reads_in, choices_in, moment_in, images_in};
    ghost use Rattle.dc_sectors.specs.File.{start_of, events_of};
    ghost use Rattle.dc_sectors.specs.Record.{reads_a_choice, counts_now, only_now};

    ghost keeps = { λ sample. HasKept sample.disk };

    ghost sectors = { λ sample. sample.disk.sectors };

    ghost reads = { λ sample. reads_in sample.disk };

    ghost choices = { λ sample. choices_in sample.disk };

    ghost moment = { λ sample. moment_in sample.disk };

    ghost images_since = { λ sample. images_in sample.disk };

    ghost failures = { λ sample. sample.disk.failures };

    ghost reads_a_choice = { λ sample. reads_a_choice (start_of sample.disk) (events_of sample.disk.calls) };

    ghost counts_now = { λ sample. counts_now (start_of sample.disk) (events_of sample.disk.calls) };

    ghost only_now = { λ sample. only_now (start_of sample.disk) (events_of sample.disk.calls) };

    fn count(&self) -> u32 {
        self.disk.count()
    }

    fn read(&mut self, n: u32) -> Result<[u8; 512], ReadFault> {
        let answer = self.disk.read(n);
        match content_of(answer) {
            Some(content) => {
                if self.kept.push((n, content)).is_err() {
                    self.fault = self.fault.or(Some(SampleFault::NoMemory));
                }
            }
            None => self.fault = self.fault.or(Some(SampleFault::Failed)),
        }
        answer
    }

    fn write(&mut self, n: u32, bytes: &[u8; 512]) -> Result<(), Failed> {
        self.fault = Some(SampleFault::Failed);
        self.disk.write(n, bytes)
    }

    fn sync(&mut self) -> Result<(), Failed> {
        self.fault = Some(SampleFault::Failed);
        self.disk.sync()
    }
}
