//! The top call of the program: it reads a mapping and a source, and stores what is certain.
#![tactic(auto)]

mod command;
mod cutting;
mod delivery;
mod ending;
mod exchange_lines;
mod fault_texts;
mod fetching;
mod file;
mod file_names;
mod inputs;
mod judging;
pub mod laws;
mod making;
mod pieces;
mod printing;
mod product;
mod refuting;
mod rendering;
mod reporting;
mod showing;
mod snapshot_words;
mod solving;
mod storing;
mod top;
mod traces;
mod verdict_texts;

pub use ending::{Ending, Finding};
pub use file::FileOut;
pub use product::Product;
pub use rendering::render;
pub use top::{end_without_memory, run};
