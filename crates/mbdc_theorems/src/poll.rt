//! Theorems: in the poll of a house, each readout of a meter that follows the standard ends in one
//! whole reading, and every meter is read.
//!
//! The contract of `poll_image` in mbdc_poll names what happens in a poll, and the talk on the bus
//! of each line. Where the meters of a line follow the standard, nothing is lost three times in a
//! row, no answer is refused and no commit fails, a readout that was started on it ends in one
//! reading more, whatever the other lines do ([`each_readout_of_a_poll_ends_in_a_reading`]).
//!
//! Where each line is so, from the first start to the end of the poll, the register has room for one
//! reading of each meter of the queues, and memory is never refused, every meter of the queues is
//! read, in order, and that is committed ([`every_meter_is_read`]). That no start and no answer is
//! refused follows. Whether there is room, the row ROOM of `status` says
//! ([`a_register_has_room_where_the_row_room_suffices`]). All premises of this theorem can be met
//! at once ([`every_meter_may_be_read`]).

mod laws;

pub use laws::{
    a_register_has_room_where_the_row_room_suffices, each_readout_of_a_poll_ends_in_a_reading,
    every_meter_is_read, every_meter_may_be_read,
};
