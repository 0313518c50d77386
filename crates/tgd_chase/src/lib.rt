//! Firing: for each tgd and each list of frontier values, the time in which some match has these values, and the rows of the heads.
#![tactic(auto)]

mod candidates;
mod chase;
pub mod laws;
mod listing;
mod merging;

pub use chase::{Fired, fire};
