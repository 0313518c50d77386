//! The exchange itself, over numbers of constants: what is loaded, and what comes of it.
#![tactic(auto)]

mod loaded;
mod loading;
mod outcome;
mod solving;
mod tables;
mod unknowns;

pub use loaded::Loaded;
pub use loading::load;
pub use outcome::{Counts, Outcome, Solved};
pub use solving::exchange;
