//! The tokens of a mapping text, each with its offset, or the first fault; and texts in quotes, both ways.
#![tactic(auto)]

mod declaration;
mod fault;
pub mod laws;
mod parts;
mod printing;
mod quotes;
mod scan;
mod token;

pub use declaration::read_declaration;
pub use fault::{Code, MappingFault, ReadError};
pub use parts::{Name, fault_at, is_word, read_name, read_sign, read_token};
pub use printing::{join, print_declaration};
pub use quotes::{print_quoted, quoted};
pub use scan::{next_token, token_at};
pub use token::{Kind, Token};
