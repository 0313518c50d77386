//! Settling: the sides of egds are made equal in the rows of a store, step by step, and what such steps do, at each instant, to the
//! maps into instances in which every egd holds.
#![tactic(auto)]

mod cutting;
mod equality;
mod equating;
pub mod laws;
mod replacing;
mod search;
mod settling;
mod sides;

pub use settling::{Settled, settle};
