//! The names of codes of the standard.

mod codes;
mod fields;
mod media;

pub use fields::{
    CONTROLS, FUNCTIONS, INFORMATIONS, STATES, application_name, ci_name, control_name,
    function_name,
};
pub use media::{MEDIA, medium_name};
