//! Theorems: a line on which answers come late is a bus line of a house.
//!
//! A line (mbdc_raw) sends a request only where nothing but copies of the last answer can be under way, or as the
//! repeat of one that is overdue, or where all that comes is dropped. Within the premises of `specs/Asked.antt`, each
//! of which says what happened on the wire of one run, whatever the line takes for an answer is no frame, or the answer
//! to that very request ([`every_answer_is_to_its_request`]). So it is a bus line of a house
//! ([`a_line_in_time_is_a_bus_line`]), in which each reading is whole ([`house`](crate::house)), whatever a meter's
//! telegrams have at each repeat. The premises can be met at once ([`a_line_may_be_in_time`]).

mod laws;

pub use laws::{
    a_line_in_time_is_a_bus_line, a_line_may_be_in_time, every_answer_is_to_its_request,
};
