//! Spans of time on the line of all whole numbers, and their ends as texts; instants, numbers with a limit and marks
//! as texts. Either end of a span may be absent, and no span is empty. No call takes memory.
#![tactic(auto)]

pub mod laws;
mod span;
mod text;

pub use span::Span;
pub use text::{
    EndFault, EndText, Side, read_end, read_instant, read_mark, read_positive, write_end,
};
