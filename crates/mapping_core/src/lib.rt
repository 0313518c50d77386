//! A whole mapping as text, both ways: its rules with the texts of their constants, or the first fault of the text.
#![tactic(auto)]

pub mod laws;
mod mapping;
mod printing;
mod reading;

pub use mapping::Mapping;
pub use printing::print_mapping;
pub use reading::read_mapping;
