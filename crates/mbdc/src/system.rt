//! What the engines over lines read and the images that commands write, beside the files in which images are made.

ghost use Rattle.std.specs.Prelude.{ℕ, List, IfOk, IfErr};
ghost use Rattle.mbdc_ending.specs.Outcome.{IsOfFile};

use crate::pointed::{Opened, Pointed};
use dc_sectors::{Disk, DiskOver};
use mbdc_ending::{Ending, STREAM};
use mbdc_files::{Host, ImageFile, Noted, Shelf, open_disk};
use mbdc_io::{ReadSource, Source};
use std::fs;
use std::fs::File;
use std::rt::Files;

/// The inputs and the files of images, which have names of this lifetime.
pub trait System<'n>: Shelf {
    /// An input.
    type Lines: Source + Drop;
    /// An image that a command writes.
    type Image: Disk + Drop;

    // The file of that name was opened as this input; - is standard input.
    ghost opened: { Self → List ℕ → Self.Lines → Type 0 };

    // The image of that name was opened as this disk.
    ghost held: { Self → List ℕ → Self.Image → Type 0 };

    /// Opens the file of that name, or standard input for `-`. Where `is_pointed` says so, standard error names what
    /// makes a line of hex digits a fault.
    ///
    /// # Errors
    /// The ending of the command: it can't be opened.
    fn lines<'a>(&self, name: &'a str, is_pointed: bool) -> Result<Self::Lines, Ending<'a>>
        ensures opened { IfOk result (λ lines. opened self.now name.now lines) }
        ensures failed { IfErr result (λ ending. IsOfFile ending name.now) };

    /// Opens the image in that file, to be written.
    ///
    /// # Errors
    /// The ending of the command: it can't be opened, or another program holds its lock.
    fn image(&self, name: &'n str) -> Result<Self::Image, Ending<'n>>
        ensures held { IfOk result (λ image. held self.now name.now image) }
        ensures failed { IfErr result (λ ending. IsOfFile ending name.now) };
}

impl<'h, R: Files<File = File> + Input + Eprint + AllocGlobal> System<'h> for Host<'h, R> {
    ghost use Rattle.std.specs.Prelude.{⊤};

    type Lines = ReadSource<Pointed<'h, R, R::Reader>>;

    type Image = DiskOver<ImageFile<'h, 'h, R>>;

    // What the system's files hold is in no contract.
    ghost opened = { λ _ _ _. ⊤ };

    ghost held = { λ _ _ _. ⊤ };

    fn lines<'a>(
        &self,
        name: &'a str,
        is_pointed: bool,
    ) -> Result<ReadSource<Pointed<'h, R, R::Reader>>, Ending<'a>> {
        let input = if name == STREAM {
            Opened::Standard(Noted::new(self.rt.reader(), self.why))
        } else {
            match fs::open(self.rt, name) {
                Ok(file) => Opened::File(Noted::new(file, self.why)),
                Err(error) => return Err(self.why.file(name, error)),
            }
        };
        Ok(ReadSource::new(Pointed::new(input, self.rt, is_pointed)))
    }

    fn image(&self, name: &'h str) -> Result<DiskOver<ImageFile<'h, 'h, R>>, Ending<'h>> {
        open_disk(self, name)
    }
}
