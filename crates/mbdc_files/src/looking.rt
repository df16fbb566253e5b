//! The file of an image that is looked at. Another program may write it meanwhile.

ghost use Rattle.std.specs.Prelude.{[], IfErr, IfOk};
ghost use Rattle.mbdc_ending.specs.Outcome.{IsOfFile};
ghost use Rattle.dc_sectors.specs.File.{IsOpened};
ghost use Rattle.mbdc_files.specs.Copied.{IsOfCopy};

use crate::host::Host;
use crate::image::{PAUSE, drop_cached, open_regular};
use crate::image_file::{ImageFile, disk_over};
use crate::why::Why;
use dc_sectors::DiskOver;
use dc_sectors::snapshot::{Sample, SampleFault};
use libc::net::poll;
use libc::types::timespec;
use mbdc_ending::Ending;
use mbdc_log::OpenFault;
use std::alloc::Global;
use std::fs::{File, OpenFile, OpenOptions};
use std::io;
use std::io::ErrorKind;
use std::rt::Files;

/// Maximum number of times that a look is begun, with a pause after each.
pub const ROUNDS: u32 = 100;

// Milliseconds after which no look is begun.
const PATIENCE: i64 = 2000;

/// What a look reads of an image, as a disk.
pub type LookDisk<'h, R> = Sample<Global, ImageFile<'h, 'h, R>>;

/// The file of an image that is looked at.
#[derive(Drop)]
pub struct LookedAt<'h, R> {
    file: File,
    rt: &'h R,
    why: &'h Why,
    begun: i64,
}

impl<'h, R: Files<File = File>> LookedAt<'h, R> {
    /// Opens the file to read, also while another program writes it.
    ///
    /// # Errors
    /// The ending of the command: it is no regular file, or it can't be opened.
    pub fn open<'a>(host: &Host<'h, R>, name: &'a str) -> Result<LookedAt<'h, R>, Ending<'a>>
        ensures { IfErr result (λ ending. IsOfFile ending name.now) }
    {
        let mut options = OpenOptions::new();
        options.read(true);
        match open_regular(host.rt, &options, name) {
            Ok(file) => Ok(LookedAt {
                file,
                rt: host.rt,
                why: host.why,
                begun: milliseconds(),
            }),
            Err(error) => Err(host.why.file(name, error)),
        }
    }

    /// The file as a disk, each read of which comes from the drive, after a sync. What is written meanwhile may be read
    /// or not.
    ///
    /// # Errors
    /// The ending of the command: a call of the file failed.
    pub fn disk<'a>(&self, name: &'a str) -> Result<DiskOver<ImageFile<'h, 'h, R>>, Ending<'a>>
        ensures opened { IfOk result (λ disk. IsOpened [] disk) }
        ensures failed { IfErr result (λ ending. IsOfFile ending name.now) }
    {
        // Where the sync fails, the drive lacks what was written, and the next read shows it.
        let _ = self.file.sync_data();
        let _ = drop_cached(&self.file);
        let file = match self.file.try_clone() {
            Ok(file) => file,
            Err(error) => return Err(self.why.file(name, error)),
        };
        match disk_over(file, true, self.rt, self.why, None) {
            Ok(disk) => Ok(disk),
            Err(error) => Err(self.why.file(name, error)),
        }
    }

    /// Whether what was read stood in the file at one instant, and is durable. If it doesn't, waits, so that the look
    /// may begin anew.
    ///
    /// # Errors
    /// The ending of the command: a call of the file failed, out of memory, or the file changed within each look for
    /// two seconds.
    pub fn stands<'a>(&self, sample: LookDisk<'h, R>, name: &'a str) -> Result<bool, Ending<'a>>
        ensures { IfErr result (λ ending. IsOfCopy ending name.now) }
    {
        let (stood, _disk) = sample.stands();
        let is_same = match stood {
            Ok(is_same) => is_same,
            Err(SampleFault::Failed) => return Err(Ending::Open(OpenFault::Device)),
            Err(SampleFault::NoMemory) => return Err(Ending::Memory),
        };
        // What was written up to now is made durable. A drive that takes no syncs isn't written.
        let stands = is_same
            && match self.file.sync_data() {
                Ok(()) => true,
                Err(error) => error.kind() == ErrorKind::InvalidInput,
            };
        if !stands {
            if milliseconds().saturating_sub(self.begun) >= PATIENCE {
                return Err(self.busy(name));
            }
            poll(&mut [], PAUSE);
        }
        Ok(stands)
    }

    /// The ending of a look in which the file changed each time.
    pub fn busy<'a>(&self, name: &'a str) -> Ending<'a>
        ensures { IsOfFile result name.now }
    {
        let error = io::Error::new(ErrorKind::WouldBlock, "it changed at each reading");
        self.why.file(name, error)
    }
}

// The milliseconds of the system's monotonic clock.
fn milliseconds() -> i64 {
    let mut time = timespec {
        tv_sec: 0,
        tv_nsec: 0,
    };
    libc::clock_gettime(libc::CLOCK_MONOTONIC, &mut time);
    time.tv_sec
        .saturating_mul(1000)
        .saturating_add(time.tv_nsec / 1_000_000)
}
