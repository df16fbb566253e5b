//! Theorems about whole runs, and about one life after another. The functions have no effect; their
//! contracts state the theorems.

ghost use Rattle.std.specs.Prelude.{List};
ghost use Rattle.dc_sectors.specs.Disk.{Image};
ghost use Rattle.dc_sectors.specs.File.{FileState, HasKept, moment_in, images_in};
ghost use Rattle.mbdc_change.specs.State.{State};
ghost use Rattle.dc_core.specs.Core.{opened};
ghost use Rattle.dc_sectors.specs.Runs.{IsSettled};
ghost use Rattle.mbdc_log.specs.Halves.{half_of};
ghost use Rattle.dc_core.specs.Headline.{IsOpened, IsOpening, WasStopped, IsStoppedFile};
ghost use Rattle.dc_core.specs.Headline.{HoldsKept};
ghost use Rattle.dc_core.specs.Images.{Machine};
ghost use Rattle.dc_core.specs.Run.{DidAll};
ghost use Rattle.dc_core.specs.Transcript.{Turn, leads};
ghost use Rattle.dc_core.specs.Known.{NoneIsUnknown};
ghost use Rattle.dc_core.specs.Lives.{LivesFollow};
ghost use Rattle.dc_core.specs.Promised.{PromisedIsCommitted};
ghost use Rattle.dc_core.specs.Toggled.{SettlingToggles};
ghost use Rattle.dc_core.specs.Told.{ToldIsKept};

use dc_sectors::{Disk, DiskOver, FileCalls};

/// Of each image that a power cut may leave in a file, within a run or within an opening, the next disk
/// over that file is one that the headline speaks of, and none of its answers has broken the disk model.
pub fn a_stop_of_a_file_is_one_of_the_headline<C: FileCalls + Drop>()
    ensures in_a_run { (state : State) (done more : List Turn) (first now last : Machine FileState)
        (image : Image) → IsOpened ⟦<DiskOver<C> as Disk>⟧ state first → HasKept first.store.disk
        → DidAll ⟦<DiskOver<C> as Disk>⟧ first.store.disk first.house.budget (opened state) done first now
        → DidAll ⟦<DiskOver<C> as Disk>⟧ first.store.disk first.house.budget
        (leads (opened state) done) more now last
        → images_in last.store.disk (moment_in now.store.disk) image
        → IsStoppedFile ⟦<DiskOver<C> as Disk>⟧ state done more now.store.disk.sectors image }
    ensures in_an_opening { (state : State) (done more : List Turn) (from to : FileState)
        (image : Image) → WasStopped ⟦<DiskOver<C> as Disk>⟧ state done more from
        → IsOpening ⟦<DiskOver<C> as Disk>⟧ from to → images_in to (moment_in from) image
        → IsStoppedFile ⟦<DiskOver<C> as Disk>⟧ state done more from.sectors image }
{}

/// What a power cut leaves of a run over one disk, or of an opening of an image that is kept, is kept, on whatever disk
/// it is opened again.
pub fn what_a_power_cut_leaves_is_kept<E: Disk + Drop>()
    ensures in_a_run { (state : State) (done more : List Turn) (first now last : Machine E) (image : Image)
        → IsOpened E.Disk state first → E.keeps first.store.disk
        → DidAll E.Disk first.store.disk first.house.budget (opened state) done first now
        → DidAll E.Disk first.store.disk first.house.budget (leads (opened state) done) more now last
        → E.images_since last.store.disk (E.moment now.store.disk) image
        → HoldsKept (half_of E.Disk now.store.disk) state done more image }
    ensures in_an_opening { (state : State) (done more : List Turn) (from to : E) (image : Image)
        → HoldsKept (half_of E.Disk from) state done more (E.reads from) → IsSettled E.Disk from
        → IsOpening E.Disk from to → E.images_since to (E.moment from) image
        → HoldsKept (half_of E.Disk from) state done more image }
{}

/// What a disk reads as after a crash is kept, by whatever it is read: a table and the text of an inspection are of a
/// state that the image reads as.
pub fn what_is_read_after_a_crash_is_kept<E: Disk + Drop>()
    ensures kept { (state : State) (done more : List Turn) (disk : E)
        → WasStopped E.Disk state done more disk
        → HoldsKept (half_of E.Disk disk) state done more (E.reads disk) }
    ensures settled { (state : State) (done more : List Turn) (disk : E)
        → WasStopped E.Disk state done more disk → IsSettled E.Disk disk }
{}

/// In every chain of steps from a newly opened concentrator, what is committed is the register
/// after a prefix of the accepted changes, which has all that is promised; the rest is pending.
pub fn what_is_promised_is_committed()
    ensures { PromisedIsCommitted }
{}

/// In every such chain the register knows each telegram that is requested. So one is refused as
/// full only if the register is full, or the maximum number of changes is pending.
pub fn no_telegram_asked_for_is_unknown()
    ensures { NoneIsUnknown }
{}

/// The request after an acknowledged telegram has the other frame count bit, and nothing is
/// requested before that.
pub fn a_settled_telegram_toggles_the_bit()
    ensures { SettlingToggles }
{}

/// An image that a crash leaves in one life satisfies the premise of the opening that begins the
/// next, and it reads only as a state that it may stand for.
pub fn an_image_of_a_life_may_be_opened()
    ensures { LivesFollow }
{}

/// Any state that may be found after every such chain, or after a crash within the next event,
/// comes from one that was reported to the office: with the last command's number if a line was
/// answered `OK`, and with what was shown.
pub fn what_the_office_is_told_is_kept()
    ensures { ToldIsKept }
{}
