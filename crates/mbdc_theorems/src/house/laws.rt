//! The theorems about a house. The functions have no effect; their contracts state the theorems.

ghost use Rattle.std.specs.Prelude.{◌++◌, ℕ, List};
ghost use Rattle.mbdc_change.specs.State.{State};
ghost use Rattle.mbdc_log.specs.Halves.{half_of};
ghost use Rattle.dc_core.specs.Headline.{WasStopped};
ghost use Rattle.dc_core.specs.PendingImages.{Reads};
ghost use Rattle.dc_core.specs.Transcript.{Turn};
ghost use Rattle.mbdc_theorems.specs.House.{Buses, House, Sends};
ghost use Rattle.mbdc_theorems.specs.HouseMet.{PremisesAreMet, ThreeAreRead};
ghost use Rattle.mbdc_theorems.specs.HouseTalks.{PollsAreWhole};
ghost use Rattle.mbdc_theorems.specs.House.{LossyLinesAreBuses};
ghost use Rattle.mbdc_theorems.specs.House.{AreWhole, EachReadingIsWhole, MetersGoOnFromCommitted, SpeakForThemselves};

use dc_sectors::Disk;
use mbdc_bus::HalfBus;

/// Each reading of a house is one whole readout of the meter that it names: each body is one that this meter may send
/// in that place, from the first to the first after which no more follow, in order, each once.
///
/// The house was formatted, and has lived in any way since. This holds of each state that a life begins with, and of
/// each state that may be found after a crash at any moment of it. Confirmed readings are gone.
pub fn each_reading_is_whole()
    ensures { EachReadingIsWhole }
{}

/// Each reading of the state that a disk reads as after a crash is one whole readout of the meter that it names.
///
/// The house did all turns, `done` and `more`, before the crash.
pub fn what_is_read_after_a_crash_is_whole<E: Disk + Drop>()
    ensures { (budget : ℕ) (sends : Sends) (state : State) (done more : List Turn) (buses : Buses)
        (disk : E) (held : State) → SpeakForThemselves sends
        → House budget sends state (done ++ more) buses
        → WasStopped E.Disk state done more disk
        → Reads (half_of E.Disk disk) held (E.reads disk) → AreWhole sends held }
{}

/// In every house a request makes the meter of a readout discard a telegram only if the telegrams up to it are
/// committed.
pub fn meters_go_on_from_what_is_committed()
    ensures { MetersGoOnFromCommitted }
{}

/// A house on whose lines a poll talks with the meters goes on as a house, so each reading of it is whole.
///
/// What happened on each line is a talk on its bus (mbdc_poll), in which each request is exchanged with the meters of
/// the line, and the bus gives what was received. The bus may be lost.
pub fn what_a_poll_reads_is_whole<B: HalfBus>()
    ensures { PollsAreWhole B.HalfBus }
{}

/// A house exists for any meter of two telegrams: it is registered and read, though a reply is lost, and the house
/// crashes and reads it anew. So are three meters on two lines, one of them by secondary addressing.
pub fn a_meter_of_a_house_may_be_read()
    ensures { PremisesAreMet × ThreeAreRead }
{}

/// Each outcome of an exchange on the lossy line of dc_readout is an exchange of a house's bus line, and so is anything
/// that is no frame in place of its answer.
pub fn a_lossy_line_is_a_bus_line()
    ensures { LossyLinesAreBuses }
{}
