//! Cuts of a target. A row is cut at an instant together with all rows that are reached from it by
//! sharing pieces, since the rows that hold a piece have one span.
#![tactic(auto)]

mod cutting;
mod sharing;

pub use cutting::{Cut, cut_piece};
pub use sharing::component;
