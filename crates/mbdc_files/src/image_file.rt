//! The file of an image, as a disk reads and writes it.

ghost use Rattle.std.specs.Prelude.{◌≡◌, [], IfOk, IfErr};
ghost use Rattle.dc_sectors.specs.File.{IsOpened};
ghost use Rattle.dc_sectors.specs.Note.{calls_of};
ghost use Rattle.dc_sectors.specs.Over.{IsOver, asked, told, steps_of};
ghost use Rattle.mbdc_ending.specs.Outcome.{IsOfFile};
ghost use Rattle.mbdc_files.specs.Syncs.{counted};

use crate::host::Host;
use crate::image::{is_same_file, open_image};
use crate::why::{DiskReason, Why};
use dc_sectors::call_log::{ANSWERED, CallLog, FAILED, GOT, LOOKED, MEASURED, PUT, REFUSED, TRIED};
use dc_sectors::{DiskOver, FileCalls, Logged, ReadFault};
use libc::EIO;
use mbdc_ending::Ending;
use std::fs::{File, Metadata, OpenFile};
use std::io::ErrorKind;
use std::rt::Files;
use std::{fs, io};

/// The file of an image: std's file, whose failed calls are noted.
///
/// Its history is that of std's file, but for failures and reads for its own use (`IsOver` of dc_sectors).
#[derive(Drop)]
pub struct ImageFile<'h, 'n, R> {
    file: Logged<File>,
    log: CallLog,
    rt: &'h R,
    why: &'h Why,
    // Number of syncs; it saturates at `u32::MAX`.
    syncs: u32,
    // Where the file is written under its name.
    named: Option<Named<'n>>,
    // The history is that of std's file, but for the steps that specs/Over of dc_sectors names.
    pub ghost is_over: { calls_of file.log.notes ≡ asked (steps_of log.notes) },
    pub ghost are_counted: { syncs ≡ counted (told (steps_of log.notes)) },
}

// The file counts as long as its name leads to it: a sync fails once another file has the name, or none. So nothing
// counts as being on the disk that no name leads to. A write and a sync fail, too, once another program wrote over one
// of the two root sectors: what is copied over an open image stays as it is.
#[derive(Drop)]
pub(crate) struct Named<'n> {
    name: &'n str,
    // The file, as it was opened.
    about: io::Result<Metadata>,
    // The root sectors, as they were last read or written; none where that isn't known.
    roots: [Option<[u8; SECTOR]>; 2],
}

// Number of bytes of a sector.
pub(crate) const SECTOR: usize = 512;

// Where the root sectors lie.
const ROOTS: [u64; 2] = [512, 1_024];

// The number of the sync with which opening begins. The look at the image before it begins with the first one.
const OPENS: u32 = 2;

/// Opens the image in that file as a disk, to be written, as [`open_image`] does.
///
/// # Errors
/// The ending of the command: the file can't be opened, or another program holds its lock.
pub fn open_disk<'h, 'n, R: Files<File = File>>(
    host: &Host<'h, R>,
    name: &'n str,
) -> Result<DiskOver<ImageFile<'h, 'n, R>>, Ending<'n>>
    // What the disk's file returned so far is what std's file did, but for failures.
    ensures over { (image : ImageFile R) → IsOver (⟦<ImageFile<'h, 'n, R> as FileCalls>⟧.history image)
        (⟦<Logged<File> as FileCalls>⟧.history image.file) }
    ensures opened { IfOk result (λ disk. IsOpened [] disk) }
    ensures failed { IfErr result (λ ending. IsOfFile ending name.now) }
{
    let file = match open_image(host.rt, name) {
        Ok(file) => file,
        Err(error) => return Err(host.why.file(name, error)),
    };
    let named = Named {
        name,
        about: file.metadata(),
        roots: [None; 2],
    };
    match disk_over(file, true, host.rt, host.why, Some(named)) {
        Ok(disk) => Ok(disk),
        Err(error) => Err(host.why.file(name, error)),
    }
}

// A disk over an image's file.
pub(crate) fn disk_over<'h, 'n, R: Files<File = File>>(
    file: File,
    is_lenient: bool,
    rt: &'h R,
    why: &'h Why,
    named: Option<Named<'n>>,
) -> io::Result<DiskOver<ImageFile<'h, 'n, R>>>
    ensures { IfOk result (λ disk. IsOpened [] disk) }
{
    DiskOver::over(ImageFile {
        file: Logged::new(file, is_lenient)?,
        log: CallLog::new(),
        rt,
        why,
        syncs: 0,
        named,
    })
}

impl<R: Files<File = File>> ImageFile<'_, '_, R> {
    ghost use Rattle.mbdc_files.specs.ImageFile.{HasLooked};

    // Notes a call that failed, with the sector that was read or written.
    fn note(&self, sector: Option<u64>, error: io::Error) {
        self.why.disk.set(Some(DiskReason { sector, error }));
        self.why.note(error);
    }

    // Notes a read or a write at that place that failed. One that transfers less than it was asked to, as at the end of
    // the file or of the room, fails too.
    fn note_unless_whole(&self, answer: io::Result<usize>, asked: usize, at: u64) {
        let sector = Some(at / SECTOR as u64);
        match answer {
            Ok(n) if n < asked => {
                let error = io::Error::new(ErrorKind::WriteZero, "only a part of the sector");
                self.note(sector, error);
            }
            Ok(_) => {}
            Err(error) => self.note(sector, error),
        }
    }

    // Notes a read at that place that failed.
    fn note_read(&self, answer: Result<usize, ReadFault>, asked: usize, at: u64) {
        let answer = match (answer, self.file.error) {
            (Ok(n), _) => Ok(n),
            (Err(_), Some(error)) => Err(error),
            (Err(_), None) => Err(io::Error::from(ErrorKind::Other)),
        };
        if let Err(error) = answer
            && error.raw_os_error() == Some(EIO)
        {
            self.why.has_unreadable.set(true);
        }
        self.note_unless_whole(answer, asked, at);
    }

    // Keeps what a sector has, if it is a root: nothing is known where this isn't a whole sector.
    fn keep(&mut self, sector: &[u8], at: u64)
        ensures log { self.new.log ≡ self.old.log }
        ensures file { self.new.file ≡ self.old.file }
    {
        if let Some(named) = &mut self.named {
            'roots: for (known, place) in named.roots.iter_mut().zip(ROOTS.iter()) {
                if *place == at {
                    *known = sector.try_into().ok();
                }
            }
        }
    }

    // Nothing, unless another program wrote over a root.
    fn unless_overwritten(&mut self) -> io::Result<()>
        ensures steps { HasLooked (steps_of self.old.log.notes) (steps_of self.new.log.notes) }
        ensures start { self.new.file.log.start ≡ self.old.file.log.start }
    {
        'roots: for i in 0..ROOTS.len() {
            let known = match &self.named {
                Some(named) => named.roots[i],
                None => None,
            };
            let Some(known) = known else {
                continue;
            };
            let place = ROOTS[i];
            let mut found = [0; SECTOR];
            let answer = self.file.read_some(place, &mut found);
            match answer {
                Ok(n) => self
                    .log
                    .note(&[LOOKED, place, SECTOR as u64, 1], &found[..n]),
                Err(ReadFault::Unreadable) => self
                    .log
                    .note(&[LOOKED, place, SECTOR as u64, 2], &[]),
                Err(ReadFault::Failed) => self.log.note(&[LOOKED, place, SECTOR as u64, 0], &[]),
            }
            self.note_read(answer, SECTOR, place);
            match answer {
                Ok(SECTOR) if found == known => {}
                Ok(_) => {
                    let error = io::Error::new(ErrorKind::Other, "another program wrote over it");
                    self.note(None, error);
                    return Err(error);
                }
                Err(_) => return Err(io::Error::from(ErrorKind::Other)),
            }
        }
        Ok(())
    }
}

impl<R: Files<File = File>> FileCalls for ImageFile<'_, '_, R> {
    ghost use Rattle.std.specs.Prelude.{◌≤◌, ◌∷◌, length, is_some, is_ok};
    ghost use Rattle.dc_sectors.specs.FileCalls.{Measured, Got, Put, Synced, came, value_of};
    ghost use Rattle.mbdc_files.specs.ImageFile.{Follows, IsReadOf, is_opened};

    ghost history = { λ image. told (steps_of image.log.notes) };

    ghost start = { λ image. image.file.log.start };

    /// Asks std's file for its length.
    fn measure(&mut self) -> io::Result<u64>
        ensures noted { told (steps_of self.new.log.notes)
            ≡ Measured (value_of result) ∷ told (steps_of self.old.log.notes) }
        ensures start { self.new.file.log.start ≡ self.old.file.log.start }
        ensures follows { Follows (steps_of self.old.log.notes) (steps_of self.new.log.notes) }
    {
        let answer = self.file.measure();
        match answer {
            Ok(length) => self.log.note(&[MEASURED, 0, length, 1], &[]),
            Err(_) => self.log.note(&[MEASURED, 0, 0, 0], &[]),
        }
        answer
    }

    /// Reads once from std's file, and returns its result. Once the image is opened, a sector that the drive can't read
    /// is a failure.
    // Opening reads the chain of groups up to where the next one would lie. A sector that the drive can't read is a
    // failure there: a write that a power cut stopped, or what had been synced. Elsewhere it is one that nothing needs.
    fn read_some(&mut self, at: u64, bytes: &mut [u8]) -> Result<usize, ReadFault>
        ensures count { IfOk result (λ n. n ≤ length bytes.old) }
        ensures noted { told (steps_of self.new.log.notes)
            ≡ Got at (length bytes.old) (came result bytes.new) ∷ told (steps_of self.old.log.notes) }
        ensures start { self.new.file.log.start ≡ self.old.file.log.start }
        ensures follows { Follows (steps_of self.old.log.notes) (steps_of self.new.log.notes) }
        ensures read { IsReadOf (is_opened (is_some self.old.named) (told (steps_of self.old.log.notes)))
            at (length bytes.old) (came result bytes.new) (asked (steps_of self.old.log.notes))
            (asked (steps_of self.new.log.notes)) }
    {
        let asked = bytes.len();
        let opens = self.named.is_some() && self.syncs >= OPENS;
        let answer = self.file.read_some(at, bytes);
        match answer {
            Ok(n) => self.log.note(&[GOT, at, asked as u64, 1], &bytes[..n]),
            Err(ReadFault::Unreadable) if opens => self
                .log
                .note(&[FAILED, at, asked as u64, 0], &[]),
            Err(ReadFault::Unreadable) => self.log.note(&[GOT, at, asked as u64, 2], &[]),
            Err(ReadFault::Failed) => self.log.note(&[GOT, at, asked as u64, 0], &[]),
        }
        self.note_read(answer, asked, at);
        match answer {
            Ok(SECTOR) => {
                self.keep(bytes, at);
                Ok(SECTOR)
            }
            Err(ReadFault::Unreadable) if opens => Err(ReadFault::Failed),
            _ => answer,
        }
    }

    /// Writes once to std's file, unless another program wrote over a root: then it fails, and nothing is written.
    fn write_some(&mut self, at: u64, bytes: &[u8]) -> io::Result<usize>
        ensures count { IfOk result (λ n. n ≤ length bytes.now) }
        ensures noted { told (steps_of self.new.log.notes)
            ≡ Put at bytes.now (value_of result) ∷ told (steps_of self.old.log.notes) }
        ensures start { self.new.file.log.start ≡ self.old.file.log.start }
        ensures follows { Follows (steps_of self.old.log.notes) (steps_of self.new.log.notes) }
    {
        if let Err(error) = self.unless_overwritten() {
            self.log.note(&[REFUSED, at, 0, 0], bytes);
            return Err(error);
        }
        // A write that fails may have left any bytes.
        self.keep(&[], at);
        let answer = self.file.write_some(at, bytes);
        match answer {
            Ok(n) => self.log.note(&[PUT, at, n as u64, 1], bytes),
            Err(_) => self.log.note(&[PUT, at, 0, 0], bytes),
        }
        self.note_unless_whole(answer, bytes.len(), at);
        if let Ok(SECTOR) = answer {
            self.keep(bytes, at);
        }
        answer
    }

    /// Syncs std's file once. It fails, too, once another program wrote over a root or the name leads elsewhere.
    fn sync_once(&mut self) -> io::Result<()>
        ensures noted { told (steps_of self.new.log.notes)
            ≡ Synced (is_ok result) ∷ told (steps_of self.old.log.notes) }
        ensures start { self.new.file.log.start ≡ self.old.file.log.start }
        ensures follows { Follows (steps_of self.old.log.notes) (steps_of self.new.log.notes) }
    {
        let tried = self.file.sync_once();
        match tried {
            Ok(()) => self.log.note(&[TRIED, 0, 0, 1], &[]),
            Err(_) => self.log.note(&[TRIED, 0, 0, 0], &[]),
        }
        let answer = match tried {
            Ok(()) => self.unless_overwritten(),
            Err(error) => {
                self.note(None, error);
                tried
            }
        };
        let answer = match (answer, &self.named) {
            (Ok(()), Some(named))
                if !is_same_file(&named.about, &fs::metadata(self.rt, named.name)) => {
                let words = "its name leads to another file now, or to none";
                let error = io::Error::new(ErrorKind::NotFound, words);
                self.note(None, error);
                Err(error)
            }
            (answer, _) => answer,
        };
        match answer {
            Ok(()) => self.log.note(&[ANSWERED, 0, 0, 1], &[]),
            Err(_) => self.log.note(&[ANSWERED, 0, 0, 0], &[]),
        }
        self.syncs = self.syncs.saturating_add(1);
        answer
    }
}
