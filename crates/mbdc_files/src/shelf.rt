//! Where images are made: what `format`, `copy` and `rescue` ask of the system's files.

ghost use Rattle.std.specs.Prelude.{◌≡◌, ℕ, List, IfErr, IfOk, OnOk};
ghost use Rattle.mbdc_files.specs.Copied.{IsUncopied};
ghost use Rattle.mbdc_files.specs.Formatted.{IsUnmade};

use dc_sectors::Disk;
use mbdc_ending::Ending;

/// The files of images. One that is made gets its name once it is whole.
pub trait Shelf {
    /// A file in which an image is made.
    type Draft: Drop;
    /// That file as a disk.
    type New: Disk + Drop;
    /// A copy of an image as it stood at one instant, as a disk; what is written to it stays in memory.
    type Old: Disk + Drop;

    // The image of that name was copied as this disk.
    ghost copied: { Self → List ℕ → Self.Old → Type 0 };

    // A file with this disk's sectors got that name.
    ghost named: { Self → List ℕ → Self.New → Type 0 };

    /// Copies the image in that file, while another program may write it.
    ///
    /// # Errors
    /// The ending of the command: the file can't be opened or read or holds no image, it changed within each look for
    /// two seconds, or out of memory.
    fn copy<'a>(&self, image: &'a str) -> Result<Self::Old, Ending<'a>>
        ensures copied { IfOk result (λ copy. copied self.now image.now copy) }
        ensures failed { IfErr result (λ ending. IsUncopied ending image.now) };

    /// Begins an image of that many sectors in a file of its own, which has no name yet that an image has. Where
    /// `takes_zeros` says so, a file of that name and length that holds only zeros is taken. Nothing else may have the
    /// name.
    ///
    /// # Errors
    /// The ending of the command: no file can be made there.
    fn begin<'a>(
        &self,
        name: &'a str,
        sectors: u32,
        takes_zeros: bool,
    ) -> Result<(Self::Draft, Self::New), Ending<'a>>
        ensures size { IfOk result (λ begun. Self.New.sectors begun.1 ≡ sectors) }
        ensures failed { IfErr result (λ ending. IsUnmade ending name.now) };

    /// Gives a whole image its name, durably.
    ///
    /// # Errors
    /// The ending of the command: the name isn't given.
    fn end<'a>(&self, draft: Self::Draft, made: &Self::New, name: &'a str) -> Result<(), Ending<'a>>
        ensures named { OnOk result (named self.now name.now made.now) }
        ensures failed { IfErr result (λ ending. IsUnmade ending name.now) };

    /// Removes a file that gets no name.
    fn give_up(&self, draft: Self::Draft);
}
