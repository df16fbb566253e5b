//! Theorems about readouts. The functions have no effect; their contracts state the theorems.

ghost use Rattle.mbdc_theorems.specs.Beside.{ReadoutsEndBesideOthers, ReadoutsOfARunEnd};
ghost use Rattle.mbdc_theorems.specs.Readout.{PremisesAreMet};
ghost use Rattle.mbdc_theorems.specs.Readout.{LinesAreKept, ReadoutsEnd, UndisturbedReadoutsEnd};

/// A readout over a line that loses nothing ends in one whole reading, after as many rounds as it
/// has requests.
///
/// The meter follows the standard, the register has room for it, the disk doesn't fail, and memory
/// is available. Until then another round can be done at any moment.
pub fn an_undisturbed_readout_ends_in_a_reading()
    ensures { UndisturbedReadoutsEnd }
{}

/// A readout over a line that loses requests and replies, but nothing three times in a row, ends in
/// one whole reading.
///
/// It takes at most one round more for each loss, and at most three for each request.
pub fn a_readout_ends_in_a_reading()
    ensures { ReadoutsEnd }
{}

/// A readout beside those of other lines ends in one whole reading, whatever these do meanwhile.
///
/// Between its requests, their answers and the commits, other lines begin, ask and hear in any
/// order. Its own line follows the premises of [`a_readout_ends_in_a_reading`], none of its answers
/// is refused, and no other line reads its meter.
pub fn a_readout_beside_others_ends_in_a_reading()
    ensures { ReadoutsEndBesideOthers }
{}

/// Each readout of a run of several lines ends in one whole reading.
///
/// The concentrator was opened, and lines were read, whatever came of it. From the start of this
/// readout on its line follows the premises of [`a_readout_beside_others_ends_in_a_reading`]. No
/// office line comes before it.
pub fn each_readout_of_a_run_ends_in_a_reading()
    ensures { ReadoutsOfARunEnd }
{}

/// A concentrator has eight lines after every chain of steps.
pub fn a_concentrator_keeps_its_lines()
    ensures { LinesAreKept }
{}

/// The premises of a readout can be met, for each identity, each primary address or none, and each
/// position of the meter.
pub fn a_meter_may_be_read()
    ensures { PremisesAreMet }
{}
