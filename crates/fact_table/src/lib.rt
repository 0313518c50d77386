//! Facts with the spans over which they hold: one view of every store of them, and a table in order.
#![tactic(auto)]

mod fact;
pub mod laws;
mod source;
mod table;

pub use fact::{Fact, RowHead};
pub use source::FactSource;
pub use table::FactTable;
