//! What a place consumed in any period, from the readings of its meters (this product's rule).
//!
//! A place is a flat's supply point: heat, warm water, cold water or electricity. Its entries, each
//! a moment, a meter and a value, are in order of moment. From one entry to the next the place
//! consumed the difference of the values, if both are of one meter that didn't run backwards, or its
//! size and that where the meter turned over, and nothing else. An exchange of the meter is two entries at one moment,
//! the old meter's last value and the new one's first. Between two entries consumption is taken as even, and rounded
//! down.
//!
//! The place's curve is all that it consumed from its first entry up to a moment. [`consumption`] is
//! what it consumed in a period, a difference of the curve. [`backwards`] counts the steps of a period
//! that are doubtful (the meter ran backwards, or rose by more than it can have counted), and those
//! before and after such a step, since it doesn't say which of its two values is false; [`exchanges`]
//! counts the steps between different meters.
//!
//! Proved: each result is its definition, and an amount is a fault only where it is 2^64 or more.
//! Theorems: the functions of `laws`.

mod between;
mod checked;
mod entry;
mod fault;
mod laws;
mod mark;
mod order;
mod reached;
mod walk;

pub use between::consumption;
pub use entry::Entry;
pub use fault::AmountFault;
pub use laws::{
    a_consumption_depends_on_its_window_alone, a_curve_is_known_between_its_entries,
    a_refuted_value_marks_its_steps, a_turn_is_what_was_counted, an_entry_is_settled_by_the_next,
    an_exchange_neither_loses_nor_invents, an_unmarked_value_changes_at_most_its_two_steps,
    at_entries_of_a_meter_its_values_count, no_consumption_is_negative,
    the_parts_of_a_period_add_up_to_it, the_places_of_a_house_add_up,
    where_nothing_runs_backwards_the_values_count,
};
pub use mark::{backwards, exchanges};
pub use order::is_in_order;
