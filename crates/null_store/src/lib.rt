//! The rows of a target while it is made. A cell is a constant or a piece, which is an unknown over
//! the span of its rows. The cells that hold a piece are linked.
#![tactic(auto)]

mod firing;
pub mod laws;
mod lists;
mod names;
mod piece;
mod rows;
mod splitting;
mod store;

pub use store::NullStore;
