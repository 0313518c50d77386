//! The faults of a trace's text.

use term_core::Memory;

/// The number of a fault of a trace's text.
#[derive(Clone, Copy, Debug, PartialEq, Eq)]
pub enum TraceCode {
    /// The first line isn't `trace 1`, or there is none.
    L1,
    /// The second line isn't `instant ` and an instant within the limit, or there is none.
    L2,
    /// A line doesn't begin with the kind of a step and a space.
    L3,
    /// The name of a rule is wanted, and after it a space or the line's end.
    L4,
    /// A binding is wanted, and after it a space or the line's end.
    L5,
    /// A space follows the 32nd binding.
    L6,
}

/// A fault of a trace's text, and the number of its line, counted from 1.
#[derive(Clone, Copy, Debug, PartialEq, Eq)]
pub struct TraceFault {
    /// The fault's number.
    pub code: TraceCode,
    /// The number of the line at fault.
    pub line: usize,
}

/// Why a trace's text was not read.
#[derive(Clone, Copy, Debug, PartialEq, Eq)]
pub enum TraceError {
    /// The text has a fault.
    Fault(TraceFault),
    /// There was no memory.
    Memory,
}

impl From<Memory> for TraceError {
    ghost use Rattle.std.specs.Prelude.{◌≡◌};
    ghost use Rattle.failure_trace.specs.declared.fault.TraceError.TheVariants as error;

    ghost from_gives = { λ _ e. e ≡ error.Memory };

    fn from(_e: Memory) -> TraceError {
        TraceError::Memory
    }
}

impl From<TraceFault> for TraceError {
    ghost use Rattle.std.specs.Prelude.{◌≡◌};
    ghost use Rattle.failure_trace.specs.declared.fault.TraceError.TheVariants as error;

    ghost from_gives = { λ f e. e ≡ error.Fault f };

    fn from(fault: TraceFault) -> TraceError {
        TraceError::Fault(fault)
    }
}
