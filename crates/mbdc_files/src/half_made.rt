//! The files in which images are made, until they are whole.

ghost use Rattle.std.specs.Prelude.{◌≡◌, [], IfErr, IfOk, IfSome};
ghost use Rattle.mbdc_ending.specs.Outcome.{IsOfFile};
ghost use Rattle.mbdc_files.specs.Copied.{IsOfCopy};
ghost use Rattle.mbdc_files.specs.Formatted.{IsUnmade};

use crate::copied::{Copied, read_all};
use crate::host::Host;
use crate::image::{OTHER_LENGTH, TOO_LONG, file_limit, is_same_file, lock, refused};
use crate::image_file::{ImageFile, disk_over};
use crate::looking::{LookedAt, ROUNDS};
use crate::shelf::Shelf;
use crate::zeros::zeros_at;
use dc_roots::{RootFault, choose};
use dc_sectors::snapshot::Sample;
use dc_sectors::{Disk, DiskOver};
use mbdc_ending::Ending;
use mbdc_log::{FEWEST_SECTORS, OpenFault};
use std::fs::{File, OpenFile, OpenOptions};
use std::io::ErrorKind;
use std::os::unix::fs::OpenOptionsExt;
use std::rt::Files;
use std::{fs, io};

// Readable and writable only by its owner: readings are personal data.
const MODE: u32 = 0o600;

// Number of names that are tried. A name that is taken was left by a power cut, or belongs to
// another `format`.
const NAMES: u32 = 100;

// Maximum length of the image's name within the name of its half-made file: file systems of Linux
// take names of 255 bytes.
const LONGEST: usize = 230;

/// A file in which an image is made, open and locked, so that no program runs the image before the command has ended.
#[derive(Drop)]
pub struct HalfMade {
    pub(crate) file: File,
    // The name under which this run created it; none of a file of zeros that had its name before.
    pub(crate) name: Option<String>,
}

impl HalfMade {
    // Gives the file the name `image` as well, and makes that durable: a name is once its folder is synced. Something
    // may have that name, and the file system may have no hard links.
    fn link<R: Files<File = File>>(&self, rt: &R, image: &str) -> io::Result<()> {
        let Some(name) = &self.name else {
            return Ok(());
        };
        if !is_same_file(
            &self.file.metadata(),
            &fs::symlink_metadata(rt, name.as_str()),
        ) {
            return Err(io::Error::from(ErrorKind::NotFound));
        }
        fs::hard_link(rt, name.as_str(), image)?;
        let folder = match image.rsplit_once('/') {
            Some(("", _)) => "/",
            Some((folder, _)) => folder,
            None => ".",
        };
        fs::open(rt, folder)?.sync_all()
    }
}

impl<'h, R: Files<File = File> + AllocGlobal> Shelf for Host<'h, R> {
    ghost use Rattle.std.specs.Prelude.{⊤};

    type Draft = HalfMade;

    type New = DiskOver<ImageFile<'h, 'h, R>>;

    type Old = DiskOver<Copied>;

    // What the system's files hold is in no contract.
    ghost copied = { λ _ _ _. ⊤ };

    ghost named = { λ _ _ _. ⊤ };

    fn copy<'a>(&self, image: &'a str) -> Result<DiskOver<Copied>, Ending<'a>> {
        let looked = LookedAt::open(self, image)?;
        if is_no_image(&looked, image)? {
            return Err(Ending::Open(OpenFault::NotImage));
        }
        for _ in 0..ROUNDS {
            if let Some(copied) = copied_of(self, &looked, image)? {
                return match DiskOver::over(copied) {
                    Ok(disk) => Ok(disk),
                    Err(error) => Err(self.why.file(image, error)),
                };
            }
        }
        Err(looked.busy(image))
    }

    fn begin<'a>(
        &self,
        name: &'a str,
        sectors: u32,
        takes_zeros: bool,
    ) -> Result<(HalfMade, DiskOver<ImageFile<'h, 'h, R>>), Ending<'a>> {
        let length = 512 * u64::from(sectors);
        if file_limit() < length {
            return Err(self.why.file(name, refused(TOO_LONG)));
        }
        let made = match fs::symlink_metadata(self.rt, name) {
            Ok(_) if !takes_zeros => Err(io::Error::from(ErrorKind::AlreadyExists)),
            Ok(seen) => zeros_at(self, name, seen, length),
            Err(error) if error.kind() == ErrorKind::NotFound => Ok(Ok(new_at(
                self, name, length,
            )?)),
            Err(error) => Err(error),
        };
        let draft = match made {
            Ok(Ok(draft)) => draft,
            Ok(Err(fault)) => return Err(Ending::Format(fault)),
            Err(error) => return Err(self.why.file(name, error)),
        };
        let disk = match draft.file.try_clone() {
            Ok(file) => disk_over(file, false, self.rt, self.why, None),
            Err(error) => Err(error),
        };
        let error = match disk {
            Ok(disk) => {
                if disk.count() == sectors {
                    return Ok((draft, disk));
                }
                refused(OTHER_LENGTH)
            }
            Err(error) => error,
        };
        self.give_up(draft);
        Err(self.why.file(name, error))
    }

    fn end<'a>(
        &self,
        draft: HalfMade,
        _made: &DiskOver<ImageFile<'h, 'h, R>>,
        name: &'a str,
    ) -> Result<(), Ending<'a>> {
        let linked = draft.link(self.rt, name);
        self.give_up(draft);
        match linked {
            Ok(()) => Ok(()),
            Err(error) => Err(self.why.file(name, error)),
        }
    }

    // Removes the name under which the file was created, unless another file has it now.
    fn give_up(&self, draft: HalfMade) {
        if let Some(name) = &draft.name
            && is_same_file(
                &draft.file.metadata(),
                &fs::symlink_metadata(self.rt, name.as_str()),
            )
        {
            let _ = fs::remove_file(self.rt, name.as_str());
        }
    }
}

// Whether a file holds no image: it is too small, or both root slots can be read and neither has a root.
fn is_no_image<'a, R: Files<File = File>>(
    looked: &LookedAt<'_, R>,
    image: &'a str,
) -> Result<bool, Ending<'a>>
    ensures { IfErr result (λ ending. IsOfFile ending image.now) }
{
    let mut disk = looked.disk(image)?;
    Ok(disk.count() < FEWEST_SECTORS || matches!(choose(&mut disk), Err(RootFault::NoRoot(None))))
}

// The sectors of an image as they stood at one instant; none where it changed within the look.
fn copied_of<'a, R: Files<File = File> + AllocGlobal>(
    host: &Host<'_, R>,
    looked: &LookedAt<'_, R>,
    image: &'a str,
) -> Result<Option<Copied>, Ending<'a>>
    ensures copied { IfOk result (λ some. IfSome some (λ copied. copied.log.notes ≡ [])) }
    ensures failed { IfErr result (λ ending. IsOfCopy ending image.now) }
{
    let mut sample = Sample::new(host.rt.alloc(), looked.disk(image)?);
    let copied = read_all(host.rt.alloc(), &mut sample)?;
    Ok(if looked.stands(sample, image)? {
        Some(copied)
    } else {
        None
    })
}

// A new file of that length, locked, beside a name that nothing has: `FOLDER/IMAGE.N.half-made`, a name that nothing had
// either.
fn new_at<'a, R: Files<File = File> + AllocGlobal>(
    host: &Host<'_, R>,
    image: &'a str,
    length: u64,
) -> Result<HalfMade, Ending<'a>>
    ensures { IfErr result (λ ending. IsUnmade ending image.now) }
{
    // `format ""` and `format folder/` name no file.
    if image.is_empty() || image.ends_with('/') {
        return Err(host.why.file(image, refused("it is no name of a file")));
    }
    let mut options = OpenOptions::new();
    options.read(true).write(true).create_new(true).mode(MODE);
    let (folder, slash, file) = match image.rsplit_once('/') {
        Some((folder, file)) => (folder, "/", file),
        None => ("", "", image),
    };
    let file = file
        .get(..file.floor_char_boundary(LONGEST))
        .unwrap_or(file);
    for n in 0..NAMES {
        let Ok(name) = format!(in host.rt.alloc(); "{folder}{slash}{file}.{n}.half-made") else {
            return Err(Ending::Memory);
        };
        let file = match options.open(host.rt, name.as_str()) {
            Ok(file) => file,
            Err(error) if error.kind() == ErrorKind::AlreadyExists => continue,
            Err(error) if error.kind() == ErrorKind::OutOfMemory => return Err(Ending::Memory),
            Err(error) => return Err(host.why.file(image, error)),
        };
        let prepared = match lock(&file) {
            Ok(()) => file.set_len(length),
            Err(error) => Err(error),
        };
        let draft = HalfMade {
            file,
            name: Some(name),
        };
        return match prepared {
            Ok(()) => Ok(draft),
            Err(error) => {
                host.give_up(draft);
                Err(host.why.file(image, error))
            }
        };
    }
    Err(
        host.why
            .file(image, io::Error::from(ErrorKind::AlreadyExists)),
    )
}
