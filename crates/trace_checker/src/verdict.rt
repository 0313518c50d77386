//! What is said of a trace.

use failure_trace::Why;

/// What is said of a trace.
#[derive(Clone, Copy, Debug, PartialEq, Eq)]
pub enum Verdict {
    /// Each step is allowed, the last is a clash, and no other is one.
    Accepted,
    /// This step, counted from 1, is the first that fails, by this part of the table. Where only the clash is missing,
    /// the step is the one behind the last.
    Refused { step: usize, why: Why },
}
