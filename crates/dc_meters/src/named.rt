//! How a person names a meter: by its identity, in capitals or small letters, or by its number alone, where one
//! registered meter has it.
//!
//! [`Named`] is such a name as it is spelled. [`resolve`] finds the meter that it means in a register; a number that no
//! meter or more than one has is a [`NameFault`].

mod meaning;
mod name;

pub use meaning::{NameFault, having, resolve, resolve_all};
pub use name::{Named, identity_of};
