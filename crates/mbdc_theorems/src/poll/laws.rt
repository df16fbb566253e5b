//! The theorems about a poll. The functions have no effect; their contracts state the theorems.

ghost use Rattle.mbdc_theorems.specs.Every.{EveryMeterIsRead};
ghost use Rattle.mbdc_theorems.specs.Met.{IsMet};
ghost use Rattle.mbdc_theorems.specs.Every.{RoomRowSuffices};
ghost use Rattle.mbdc_theorems.specs.Carried.{ReadoutsOfAPollEnd};

use dc_sectors::Disk;
use mbdc_bus::HalfBus;
use mbdc_poll::{Teller, Timer};

/// Each readout of a poll ends in one whole reading, where its line carries the talk on its bus.
///
/// The meters of its line follow the standard, nothing is lost three times in a row, no answer is
/// refused, and no commit fails. What the other lines do is free.
pub fn each_readout_of_a_poll_ends_in_a_reading<B: HalfBus>()
    ensures { ReadoutsOfAPollEnd B.HalfBus }
{}

/// Every meter is read by a poll of an image, and that is committed.
///
/// The meters of its lines are there and follow the standard, each line carries what is said and
/// loses nothing three times in a row, the register has room for one reading of each, no telegram is
/// refused because memory ran out, and no commit fails. Then what is read on each line is its queue,
/// in order, and each meter of it has one reading more than before, whole and in order, whose serial
/// the poll reports. No readout fails, and the counts say so.
///
/// What a [filter](mbdc_poll::Filter) withholds or drops counts as lost: so each meter wasn't silent in the last poll,
/// or answers its first question, sends as many telegrams as in it, isn't busy, and sends no telegram of before; and
/// none that is registered without a primary address is read by one (the laws of mbdc_poll say so of each filter).
pub fn every_meter_is_read<D: Disk + Drop, B: HalfBus + Drop, T: Timer<B>, N: Teller>()
    ensures { EveryMeterIsRead D.Disk B.HalfBus T.tells T.passes T.warns N.takes }
{}

/// A register whose row ROOM (`status`) has at least as many readings as meters are to be
/// read has room for a poll of them.
///
/// The reading of each takes at most what those that are held take on average, as that row counts.
pub fn a_register_has_room_where_the_row_room_suffices<B: HalfBus>()
    ensures { RoomRowSuffices B.HalfBus }
{}

/// All premises of [`every_meter_is_read`] can be met at once: a whole poll of a register with one
/// meter, after which the register and its disk have one reading more.
///
/// The disk keeps the disk model. What is written to it is durable at once. The bus, the clock and
/// the teller may do anything.
pub fn every_meter_may_be_read()
    ensures { IsMet }
{}
