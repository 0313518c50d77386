//! Tgds, egds and queries as text, both ways: each line of them, or its first fault.
#![tactic(auto)]

mod arguments;
mod atoms;
mod egd;
mod follows;
pub mod laws;
mod names;
mod part;
mod printing;
mod query;
mod reading;
mod relations;
mod rule;
mod tgd;
mod variables;

pub use printing::{print_egd, print_query, print_rule, print_tgd};
pub use reading::read_rule;
pub use rule::Rule;
