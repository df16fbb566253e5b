//! Theorems: each reading of the register is one whole readout of the meter that it names, in all lives of a
//! concentrator, over lines that lose requests and replies.
//!
//! A house (`specs/House.antt`) is a concentrator that takes the turns that its calls may take, and eight bus lines
//! with meters. It may crash at any moment, office lines come in any order, and calls may be refused. Each reading is
//! whole ([`each_reading_is_whole`]), also on the disk that a crash leaves ([`what_is_read_after_a_crash_is_whole`]),
//! and a meter discards a telegram only after it was committed ([`meters_go_on_from_what_is_committed`]). A poll is a
//! part of such a life ([`what_a_poll_reads_is_whole`]).
//!
//! The one premise is that a telegram that a meter sends carries that meter's identity. What the definitions say of
//! the world: a readout begins anew with a reset or a selection; no meter is restarted or exchanged within a readout;
//! what is taken as a frame is a reply to the last request; an answer is taken once; a request is seen by all meters
//! of its line or by none. The losses of dc_readout's lossy line are among them ([`a_lossy_line_is_a_bus_line`]), and
//! a house with a reading exists ([`a_meter_of_a_house_may_be_read`]).

mod laws;

pub use laws::{
    a_lossy_line_is_a_bus_line, a_meter_of_a_house_may_be_read, each_reading_is_whole,
    meters_go_on_from_what_is_committed, what_a_poll_reads_is_whole,
    what_is_read_after_a_crash_is_whole,
};
