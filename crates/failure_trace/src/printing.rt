//! Traces as text, as they are printed.

ghost use Rattle.std.specs.Prelude.{◌≡◌, ◌++◌, ℕ, List, IfOk, OnOk};
ghost use Rattle.std.specs.List.{flat_map};
ghost use Rattle.failure_trace.specs.declared.trace.Value.TheVariants as values;
ghost use Rattle.failure_trace.specs.TraceText.{kind_word};
ghost use Rattle.failure_trace.specs.Printed.{value_text, bound_text, step_text, trace_text};

use crate::{Bound, StepKind, Trace, TraceStep, Value};
use decl_text::print_quoted;
use itoa::Buffer;
use std::alloc::Global;
use term_core::{Memory, Text};

/// The text of a trace: its steps a line each, each line with its line feed.
pub fn print_trace(alloc: Global, trace: &Trace) -> Result<Text, Memory>
    ensures { IfOk result (λ text. text ≡ trace_text trace.now) }
{
    let mut text = Text::from_str(alloc, "trace 1")?;
    text.push_str("\n")?;
    text.push_str("instant ")?;
    text.push_str(Buffer::new().format(trace.instant))?;
    text.push_str("\n")?;
    push_steps(alloc, &mut text, trace.steps.as_slice())?;
    Ok(text)
}

// Adds the lines of steps.
fn push_steps(alloc: Global, text: &mut Text, steps: &[TraceStep]) -> Result<(), Memory>
    ensures { OnOk result (text.new ≡ text.old ++ flat_map step_text steps.now) }
{
    for step in steps {
        push_step(alloc, text, step)?;
    }
    Ok(())
}

// Adds the line of a step.
fn push_step(alloc: Global, text: &mut Text, step: &TraceStep) -> Result<(), Memory>
    ensures { OnOk result (text.new ≡ text.old ++ step_text step.now) }
{
    text.push_str(kind_word(step.kind))?;
    text.push_str(step.rule.as_str())?;
    push_binding(alloc, text, step.binding.as_slice())?;
    text.push_str("\n")
}

// The word of a kind of step, and a space.
fn kind_word(kind: StepKind) -> &'static str
    ensures { result.now ≡ kind_word kind }
{
    match kind {
        StepKind::Tgd => "tgd ",
        StepKind::Egd => "egd ",
        StepKind::Clash => "clash ",
    }
}

// Adds bindings, each behind a space.
fn push_binding(alloc: Global, text: &mut Text, binding: &[Bound]) -> Result<(), Memory>
    ensures { OnOk result (text.new ≡ text.old ++ flat_map bound_text binding.now) }
{
    for bound in binding {
        push_bound(alloc, text, bound)?;
    }
    Ok(())
}

// Adds a binding, behind a space.
fn push_bound(alloc: Global, text: &mut Text, bound: &Bound) -> Result<(), Memory>
    ensures { OnOk result (text.new ≡ text.old ++ bound_text bound.now) }
{
    text.push_str(" ")?;
    text.push_str(bound.name.as_str())?;
    text.push_str("=")?;
    push_value(alloc, text, &bound.value)
}

// Adds a value.
fn push_value(alloc: Global, text: &mut Text, value: &Value) -> Result<(), Memory>
    ensures { OnOk result (text.new ≡ text.old ++ value_text value.now) }
{
    match value {
        Value::Const(constant) => push_constant(alloc, text, constant),
        Value::Null(number) => push_mark(text, *number),
    }
}

// Adds a constant in quotes.
fn push_constant(alloc: Global, text: &mut Text, constant: &Text) -> Result<(), Memory>
    ensures { OnOk result (text.new ≡ text.old ++ value_text (values.Const constant.now)) }
{
    let quoted = print_quoted(alloc, constant.as_str())?;
    text.push_str(quoted.as_str())
}

// Adds the mark of an unknown.
fn push_mark(text: &mut Text, number: u64) -> Result<(), Memory>
    ensures { OnOk result (text.new ≡ text.old ++ value_text (values.Null number)) }
{
    text.push_str("?")?;
    text.push_str(Buffer::new().format(number))
}
