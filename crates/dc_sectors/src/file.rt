//! A disk over a file.

ghost use Rattle.std.specs.Prelude.{◌≡◌, ◌≢◌, ◌⊎◌, ◌<◌, ◌≤◌, ◌*◌, ◌/◌, ◌-◌, ◌^◌, ◌==◌, ℕ, []};
ghost use Rattle.std.specs.Prelude.{min, true, false, IfOk, OnOk, OnErr, IsErr, IsErrOf, length};
ghost use Rattle.std.specs.Prelude.{IfSome, ◌≤ℤ◌, pos};
ghost use Rattle.dc_sectors.specs.declared.sector.ReadFault.TheVariants.{Unreadable as CannotRead};
ghost use Rattle.dc_sectors.specs.declared.sector.ReadFault.TheVariants.{Failed as ReadFailed};
ghost use Rattle.dc_sectors.specs.Disk.{Answers, Elapses, IsImage, put, added, settled};
ghost use Rattle.dc_sectors.specs.File.{failed_once_more, IsOpened, IsReadOf, IsWriteOf};
ghost use Rattle.dc_sectors.specs.File.{IsSyncOf, reads_in, choices_in, moment_in, images_in};
ghost use Rattle.dc_sectors.specs.File.{HasKept, FileCounts};

use crate::{Disk, Failed, FileCalls, Logged, ReadFault};
use mbdc_io::one_failure_more;
use std::fs::{OpenFile, OpenOptions};
use std::io;
use std::marker::Model;
use std::os::fd::AsRawFd;
use std::os::unix::fs::FileExt;
use std::path::AsPath;
use std::rt::Files;

/// A disk over a file: sector n is the 512 bytes from byte 512 n on.
///
/// A read, a write or a sync is one call of the file. Each fault of the file is a counted failure,
/// including a short read or a short write. After a sync that failed every call fails. What only
/// looks at an image has a lenient file ([`Logged::new`]).
///
/// That the file keeps the disk model is a hypothesis on its calls so far: `KeepsRule` of
/// specs/File.
#[derive(Drop)]
pub struct DiskOver<C: FileCalls + Drop> {
    file: C,
    count: u32,
    failures: u64,
    lost: bool,
}

/// A disk over a file of std. What the file held before its first call is a value, of which nothing is known.
pub type FileDisk<F> = DiskOver<Logged<F>>;

impl<C: FileCalls + Drop> Model for DiskOver<C> {
    ghost use Rattle.dc_sectors.specs.File.{FileState};

    ghost Value = { FileState };

    ghost view = { λ d. record {
      sectors = d.count;
      failures = d.failures;
      lost = d.lost;
      start = C.start d.file;
      calls = C.history d.file;
    } };
}

impl<F: FileExt + OpenFile + AsRawFd + Drop> DiskOver<Logged<F>> {
    /// Opens the file at that path, which must exist and be readable and writable, as a disk.
    ///
    /// # Errors
    /// It can't be opened, or as of [`DiskOver::new`].
    pub fn open<R: Files<File = F>, P: AsPath>(rt: &R, path: P) -> io::Result<DiskOver<Logged<F>>>
        ensures { IfOk result (λ disk. IsOpened [] disk) }
    {
        Self::new(OpenOptions::new().read(true).write(true).open(rt, path)?)
    }

    /// Returns a disk over an open file, with a sector for each 512 bytes of the file's current
    /// length, and at most `u32::MAX`. Bytes after the last whole sector are left alone.
    ///
    /// # Errors
    /// The file's length can't be asked for, or its descriptor is that of a standard stream (0, 1 or
    /// 2), whose text would be written over its sectors. The file wasn't changed.
    pub fn new(file: F) -> io::Result<DiskOver<Logged<F>>>
        ensures opened { IfOk result (λ disk. IsOpened [] disk) }
        ensures no_stream { IfSome (F.raw_fd file) (λ fd. fd ≤ℤ pos 2 → IsErr result) }
    {
        Self::over(Logged::new(file, false)?)
    }
}

impl<C: FileCalls + Drop> DiskOver<C> {
    /// Returns a disk over a file, with a sector for each 512 bytes of the file's current length,
    /// and at most `u32::MAX`.
    pub fn over(mut file: C) -> io::Result<DiskOver<C>>
        ensures { IfOk result (λ disk. IsOpened (C.history file) disk) }
    {
        let count = whole_sectors(file.measure()?);
        Ok(DiskOver {
            file,
            count,
            failures: 0,
            lost: false,
        })
    }

    fn fail(&mut self) -> Failed
        ensures counted { self.new ≡ failed_once_more self.old }
        ensures later { self.old.failures ≤ self.new.failures }
    {
        self.failures = one_failure_more(self.failures);
        Failed
    }

    fn unread(&mut self) -> ReadFault
        ensures counted { self.new ≡ failed_once_more self.old }
        ensures later { self.old.failures ≤ self.new.failures }
        ensures fault { result ≡ ReadFailed }
    {
        let _ = self.fail();
        ReadFault::Failed
    }

    fn read_sector(&mut self, n: u32) -> Result<[u8; 512], ReadFault>
        ensures made { IsReadOf self.old n result self.new.calls }
        ensures start { self.new.start ≡ self.old.start }
        ensures ok { OnOk result (self.new ≡ record self.old { calls = self.new.calls }) }
        ensures unreadable { IsErrOf result CannotRead
            → self.new ≡ record self.old { calls = self.new.calls } }
        ensures err { IsErrOf result ReadFailed → self.new
            ≡ record (failed_once_more self.old) { calls = self.new.calls } }
        ensures lost { self.old.lost ≡ true → IsErrOf result ReadFailed }
        ensures counts { FileCounts self.old self.new (IsErrOf result ReadFailed) }
    {
        if self.lost {
            return Err(self.unread());
        }
        let mut bytes = [0; 512];
        match self.file.read_some(position(n), &mut bytes) {
            Ok(512) => Ok(bytes),
            Err(ReadFault::Unreadable) => Err(ReadFault::Unreadable),
            Ok(_) | Err(ReadFault::Failed) => Err(self.unread()),
        }
    }

    fn write_sector(&mut self, n: u32, bytes: &[u8; 512]) -> Result<(), Failed>
        ensures made { IsWriteOf self.old n bytes.now result self.new.calls }
        ensures start { self.new.start ≡ self.old.start }
        ensures ok { OnOk result (self.new ≡ record self.old { calls = self.new.calls }) }
        ensures err { OnErr result (self.new
            ≡ record (failed_once_more self.old) { calls = self.new.calls }) }
        ensures lost { self.old.lost ≡ true → IsErr result }
        ensures counts { FileCounts self.old self.new (IsErr result) }
    {
        let is_lost = self.lost;
        if is_lost {
            return Err(self.fail());
        }
        let taken = self.file.write_some(position(n), bytes);
        match taken {
            Ok(512) => Ok(()),
            _ => Err(self.fail()),
        }
    }

    fn sync_sectors(&mut self) -> Result<(), Failed>
        ensures made { IsSyncOf self.old result self.new.calls }
        ensures start { self.new.start ≡ self.old.start }
        ensures ok { OnOk result (self.new ≡ record self.old { calls = self.new.calls }) }
        ensures err { OnErr result (self.new
            ≡ record (failed_once_more self.old) { lost = true; calls = self.new.calls }) }
        ensures lost { self.old.lost ≡ true → IsErr result }
        ensures counts { FileCounts self.old self.new (IsErr result) }
    {
        if self.lost {
            return Err(self.fail());
        }
        if self.file.sync_once().is_err() {
            self.lost = true;
            return Err(self.fail());
        }
        Ok(())
    }
}

fn whole_sectors(length: u64) -> u32
    ensures { result ≡ min (length / 512) (2 ^ 32 - 1) }
{
    (length / 512).min(u64::from(u32::MAX)) as u32
}

fn position(n: u32) -> u64
    ensures { result ≡ 512 * n }
{
    512 * u64::from(n)
}

impl<C: FileCalls + Drop> Disk for DiskOver<C> {
    ghost use Rattle.dc_sectors.specs.File.{start_of, events_of};
    ghost use Rattle.dc_sectors.specs.Record.{reads_a_choice, counts_now, only_now};

    ghost keeps = { HasKept };

    ghost sectors = { λ disk. disk.sectors };

    ghost reads = { reads_in };

    ghost choices = { choices_in };

    ghost moment = { moment_in };

    ghost images_since = { images_in };

    ghost failures = { λ disk. disk.failures };

    ghost reads_a_choice = { λ disk. reads_a_choice (start_of disk) (events_of disk.calls) };

    ghost counts_now = { λ disk. counts_now (start_of disk) (events_of disk.calls) };

    ghost only_now = { λ disk. only_now (start_of disk) (events_of disk.calls) };

    fn count(&self) -> u32 {
        self.count
    }

    fn read(&mut self, n: u32) -> Result<[u8; 512], ReadFault>
        requires { n < self.old.sectors }
        ensures made { IsReadOf self.old n result self.new.calls }
        ensures ok { OnOk result (self.new ≡ record self.old { calls = self.new.calls }) }
        ensures unreadable { IsErrOf result CannotRead
            → self.new ≡ record self.old { calls = self.new.calls } }
        ensures err { IsErrOf result ReadFailed → self.new
            ≡ record (failed_once_more self.old) { calls = self.new.calls } }
        ensures lost { self.old.lost ≡ true → IsErrOf result ReadFailed }
        ensures answer { HasKept self.new
            → Answers (reads_in self.old n) result }
        ensures before { HasKept self.new → HasKept self.old }
        ensures reads { reads_in self.new ≡ reads_in self.old }
        ensures choices { choices_in self.new ≡ choices_in self.old }
        ensures time { Elapses (moment_in self.old) (moment_in self.new)
            (images_in self.old) (images_in self.new)
            (IsImage (choices_in self.old)) }
        ensures counts { FileCounts self.old self.new (IsErrOf result ReadFailed) }
    {
        self.read_sector(n)
    }

    fn write(&mut self, n: u32, bytes: &[u8; 512]) -> Result<(), Failed>
        requires { n < self.old.sectors }
        ensures made { IsWriteOf self.old n bytes.now result self.new.calls }
        ensures ok { OnOk result (self.new ≡ record self.old { calls = self.new.calls }) }
        ensures err { OnErr result (self.new
            ≡ record (failed_once_more self.old) { calls = self.new.calls }) }
        ensures lost { self.old.lost ≡ true → IsErr result }
        ensures before { HasKept self.new → HasKept self.old }
        ensures reads { OnOk result (reads_in self.new
            ≡ put (reads_in self.old) n bytes.now) }
        ensures elsewhere { (m : ℕ) → m ≢ n
            → reads_in self.new m ≡ reads_in self.old m }
        ensures choices { OnOk result (choices_in self.new
            ≡ added (choices_in self.old) n bytes.now) }
        ensures choices_err { OnErr result
            ((choices_in self.new ≡ added (choices_in self.old) n bytes.now)
            ⊎ (choices_in self.new ≡ choices_in self.old)) }
        ensures time { Elapses (moment_in self.old) (moment_in self.new)
            (images_in self.old) (images_in self.new)
            (IsImage (added (choices_in self.old) n bytes.now)) }
        ensures counts { FileCounts self.old self.new (IsErr result) }
    {
        self.write_sector(n, bytes)
    }

    /// `sync_data` is enough: it makes durable all that a later read of the sectors needs, and
    /// omits only the file's times, since the file keeps its length. After a sync that failed every
    /// call fails, since the system may have dropped the written bytes, and reports it only once.
    fn sync(&mut self) -> Result<(), Failed>
        ensures made { IsSyncOf self.old result self.new.calls }
        ensures ok { OnOk result (self.new ≡ record self.old { calls = self.new.calls }) }
        ensures err { OnErr result (self.new
            ≡ record (failed_once_more self.old) { lost = true; calls = self.new.calls }) }
        ensures lost { self.old.lost ≡ true → IsErr result }
        ensures before { HasKept self.new → HasKept self.old }
        ensures reads { reads_in self.new ≡ reads_in self.old }
        ensures choices { OnOk result (choices_in self.new
            ≡ settled (reads_in self.old)) }
        ensures choices_err { OnErr result
            (choices_in self.new ≡ choices_in self.old) }
        ensures time { Elapses (moment_in self.old) (moment_in self.new)
            (images_in self.old) (images_in self.new)
            (IsImage (choices_in self.old)) }
        ensures counts { FileCounts self.old self.new (IsErr result) }
    {
        self.sync_sectors()
    }
}
