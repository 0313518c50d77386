//! Mappings as values, and what they mean: snapshots, matches, solutions, homomorphisms and universal targets.
#![tactic(auto)]

mod atoms;
mod checked;
mod dependencies;
pub mod laws;
pub mod limits;
mod names;
mod queries;
mod rebase;
mod relations;
mod rules;

pub use atoms::occurs;
pub use checked::Rules;
pub use dependencies::frontier;
pub use names::{is_letter, is_name_byte};
pub use rules::{Arg, Atom, Branch, Egd, Place, Query, Relation, Tgd};
