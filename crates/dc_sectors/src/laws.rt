//! Theorems about disks over files. The functions have no effect; their contracts state the theorems.

ghost use Rattle.std.specs.Prelude.{◌≡◌, ◌≢◌, ◌<◌, ◌^◌, ◌++◌, ℕ, List, [], length};
ghost use Rattle.dc_sectors.specs.declared.sector.Sector.{Sector};
ghost use Rattle.dc_sectors.specs.Disk.{Image};
ghost use Rattle.dc_sectors.specs.Record.{image_of, ImageSince};
ghost use Rattle.dc_sectors.specs.File.{FileState, opened_on, moment_in, images_in, HasKept, IsOpened};
ghost use Rattle.dc_sectors.specs.File.{KeepsRule, events_of};
ghost use Rattle.dc_sectors.specs.Over.{Step, asked, told};
ghost use Rattle.dc_sectors.specs.Runs.{WasLeft};

use crate::{Disk, DiskOver, FileCalls};

/// Whatever image a power cut may leave of a disk over a file, a disk of the same type, just opened on a file that
/// holds it, has what was left, and its file kept the disk model so far.
pub fn what_is_left_may_be_opened<C: FileCalls + Drop>()
    ensures left { (from to : FileState) (image : Image)
        → images_in to (moment_in from) image
        → (left : List Sector) × (image_of left ≡ image)
        × WasLeft ⟦<DiskOver<C> as Disk>⟧ from to (opened_on from.sectors left)
        × HasKept (opened_on from.sectors left) }
    ensures opened { (sectors : ℕ) (left : List Sector) → sectors < 2 ^ 32
        → IsOpened [] (opened_on sectors left) }
{}

/// There are two disks over files that held different sectors at first, one of which has what a power cut left of the
/// other.
pub fn a_cut_between_two_files<C: FileCalls + Drop>()
    ensures { (from : FileState) × (to : FileState) × (disk : FileState)
        × WasLeft ⟦<DiskOver<C> as Disk>⟧ from to disk × HasKept to × HasKept disk
        × (disk.start ≢ from.start) }
{}

/// Where the inner file of a file over another keeps the disk model, the outer one does. Each image that a crash since
/// some step may leave, by the inner file's calls, is one that it may leave by the outer file's.
pub fn a_file_over_another_keeps_its_rule()
    ensures kept { (start : Image) (steps : List Step) → KeepsRule start (asked steps)
        → KeepsRule start (told steps) }
    ensures left { (start : Image) (before later : List Step) (image : Image)
        → ImageSince start (events_of (asked (later ++ before))) (length (events_of (asked before))) image
        → ImageSince start (events_of (told (later ++ before))) (length (events_of (told before))) image }
{}
