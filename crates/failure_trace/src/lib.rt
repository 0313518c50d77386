//! What a run leaves to show how it came to its end: firings with the matches that support them, the journal of a
//! settling, and traces.
#![tactic(auto)]

mod binding;
mod fault;
mod firing;
mod front;
mod journal;
pub mod laws;
mod numbering;
mod printing;
mod projection;
mod step_text;
mod trace;
mod trace_text;
mod why;

pub use fault::{TraceCode, TraceError, TraceFault};
pub use firing::{Firing, Support};
pub use journal::{CutNote, JournalStep};
pub use printing::print_trace;
pub use projection::project;
pub use trace::{Bound, StepKind, Trace, TraceStep, Value};
pub use trace_text::read_trace;
pub use why::Why;
