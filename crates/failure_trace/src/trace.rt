//! Traces: at one instant, the firings and equalities that lead to two different constants made equal.

use term_core::{Items, Text};

/// What a variable is bound to in a trace.
#[derive(Debug, PartialEq, Eq, Drop)]
pub enum Value {
    /// A constant, by its text.
    Const(Text),
    /// An unknown, by its number.
    Null(u64),
}

/// A variable, by its name, with its value.
#[derive(Debug, PartialEq, Eq, Drop)]
pub struct Bound {
    /// The variable's name.
    pub name: Text,
    /// What it is bound to.
    pub value: Value,
}

/// What a step of a trace does.
#[derive(Clone, Copy, Debug, PartialEq, Eq)]
pub enum StepKind {
    /// A tgd fires.
    Tgd,
    /// An egd makes two terms equal.
    Egd,
    /// An egd asks that two different constants are equal.
    Clash,
}

/// A step of a trace.
#[derive(Debug, PartialEq, Eq, Drop)]
pub struct TraceStep {
    /// What the step does.
    pub kind: StepKind,
    /// The name of the rule.
    pub rule: Text,
    /// The rule's variables, in their order, with their values.
    pub binding: Items<Bound>,
}

/// A trace.
#[derive(Debug, PartialEq, Eq, Drop)]
pub struct Trace {
    /// The instant at which all steps are taken.
    pub instant: i64,
    /// The steps, in their order.
    pub steps: Items<TraceStep>,
}
