//! Fits the meters of a list, or does one command that is given at the box: the engine of `mbdc fit`, `swap`, `move`
//! and `out`.
//!
//! [`fit_on`] opens an image, plans what is asked on its register ([`plan_wish`](crate::list::plan_wish)), and writes
//! the changes of the plan as one group. Where one row or the command is wrong, nothing is written.
//!
//! Proved: the register is that after the whole list or exactly that command, or as it was, also after a crash at any
//! moment.
#![tactic(auto)]

mod fault;
mod fitting;
pub mod list;

pub use fault::FitFault;
pub use fitting::fit_on;
