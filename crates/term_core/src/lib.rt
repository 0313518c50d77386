//! Lists and texts that contracts see as their contents, constants with their numbers, terms and their order, and the
//! one error that every crate shares: want of memory.
#![tactic(auto)]

mod const_id;
mod items;
pub mod laws;
mod memory;
mod pool;
mod slots;
mod steps;
mod term;
mod text;

pub use const_id::ConstId;
pub use items::Items;
pub use memory::Memory;
pub use pool::{Pool, PoolBuilder};
pub use slots::Slots;
pub use steps::Steps;
pub use term::{Seen, Term, Unknown};
pub use text::Text;
