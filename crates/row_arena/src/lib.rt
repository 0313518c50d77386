//! Rows over spans, and their cells, each under a number that it keeps. Whoever reads or writes the
//! content of a cell takes a step.
#![tactic(auto)]

mod arena;
mod cell;
mod held;

pub use arena::RowArena;
pub use cell::{ArenaRow, Cell};
pub use held::MOST_COLUMNS;
