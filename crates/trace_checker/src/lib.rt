//! Checks a trace against a mapping and a source, step by step. It stands on the definitions alone, and on no
//! part of the chase.
#![tactic(auto)]

mod binding;
mod checking;
mod facts;
mod holders;
pub mod laws;
mod matching;
mod name;
mod numbers;
mod row;
mod rows;
mod state;
mod verdict;

pub use checking::check;
pub use verdict::Verdict;
