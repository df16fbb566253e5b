//! A list of meters, or one command that is given at the box, as commands of the billing office: what `mbdc fit`,
//! `swap`, `move` and `out` do.

mod listed;
mod order;
mod plan;
mod row;
mod verdict;
mod wish;

pub use listed::{Column, Listed, Listing, read_list};
pub use order::{Order, plan_for};
pub use plan::{Plan, plan_on};
pub use row::{Row, read_row};
pub use verdict::{Verdict, verdict_on};
pub use wish::{Wish, plan_wish};
