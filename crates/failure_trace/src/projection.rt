//! The trace of one instant: what the firings and the journal of a run come to there.

ghost use Rattle.std.specs.Prelude.{◌≡◌, ◌++◌, ◌<◌, List, Some, IfOk, OnOk, IsSorted, IsSomeAnd, length, map, All, Any, slice_get};
ghost use Rattle.std.specs.List.{AllZip};
ghost use Rattle.time_line.specs.Span.{Has, IsWithinInstants};
ghost use Rattle.term_core.specs.Order.{unknown_cmp};
ghost use Rattle.rule_core.specs.Validity.{IsEgd};
ghost use Rattle.failure_trace.specs.declared.trace.TraceStep.{TraceStep as StepValue};
ghost use Rattle.failure_trace.specs.declared.trace.StepKind.TheVariants.{Egd as EgdStep};
ghost use Rattle.failure_trace.specs.Printed.{IsWritableStep, IsWritable};
ghost use Rattle.failure_trace.specs.Projected.{firings_at, steps_at, TellsFiring, TellsStep, IsProjected, CanTellFiring, CanTellStep};

use crate::binding::{bind_firing, bind_terms};
use crate::numbering::{sorted_unknowns, tgd_at};
use crate::{Firing, JournalStep, StepKind, Trace, TraceStep};
use rule_core::{Egd, Rules};
use std::alloc::Global;
use term_core::{Items, Memory, Pool, Text, Unknown};

/// The trace of an instant: a step for each firing there, then one for each step of the journal there, then the clash.
pub fn project(
    alloc: Global,
    rules: &Rules,
    pool: &Pool,
    firings: &Items<Firing>,
    journal: &Items<JournalStep>,
    last: &JournalStep,
    t: i64,
) -> Result<Trace, Memory>
    requires instant { Has last.now.span t }
    requires firings { All (CanTellFiring rules.now pool.now t) firings.now }
    requires journal { All (CanTellStep rules.now pool.now) journal.now }
    requires last { CanTellStep rules.now pool.now last.now }
    ensures trace { IfOk result (IsProjected rules.now pool.now firings.now journal.now last.now t) }
    ensures writable { IfOk result (λ trace. IsWithinInstants (Some t) → IsWritable trace) }
{
    let unknowns = sorted_unknowns(alloc, rules, firings.as_slice(), t)?;
    let mut steps = firing_steps(alloc, rules, pool, &unknowns, firings.as_slice(), t)?;
    add_journal(
        alloc,
        rules,
        pool,
        &unknowns,
        journal.as_slice(),
        t,
        &mut steps,
    )?;
    steps.push(journal_step(alloc, rules, pool, &unknowns, StepKind::Clash, last)?)?;
    Ok(Trace { instant: t, steps })
}

// A step for each firing at the instant.
fn firing_steps(
    alloc: Global,
    rules: &Rules,
    pool: &Pool,
    unknowns: &[Unknown],
    firings: &[Firing],
    t: i64,
) -> Result<Items<TraceStep>, Memory>
    requires sorted { IsSorted unknown_cmp unknowns.now }
    requires firings { All (CanTellFiring rules.now pool.now t) firings.now }
    ensures told { IfOk result (λ steps.
        AllZip (TellsFiring rules.now pool.now unknowns.now t) (firings_at firings.now t) steps) }
    ensures writable { IfOk result (All IsWritableStep) }
{
    let mut steps = Items::new(alloc);
    for firing in firings {
        if firing.span.has(t) {
            steps.push(firing_step(alloc, rules, pool, unknowns, firing, t)?)?;
        }
    }
    Ok(steps)
}

// The step of a firing.
fn firing_step(
    alloc: Global,
    rules: &Rules,
    pool: &Pool,
    unknowns: &[Unknown],
    firing: &Firing,
    t: i64,
) -> Result<TraceStep, Memory>
    requires sorted { IsSorted unknown_cmp unknowns.now }
    requires firing { CanTellFiring rules.now pool.now t firing.now }
    requires at { Has firing.now.span t }
    ensures told { IfOk result (TellsFiring rules.now pool.now unknowns.now t firing.now) }
    ensures writable { IfOk result IsWritableStep }
{
    let tgd = tgd_at(rules, firing.rule);
    let Some(support) = firing.support_at(t) else {
        unreachable!()
    };
    let rule = Text::from_str(alloc, tgd.name.as_str())?;
    let binding = bind_firing(alloc, pool, unknowns, tgd, firing, support)?;
    Ok(TraceStep {
        kind: StepKind::Tgd,
        rule,
        binding,
    })
}

// Adds a step for each step of the journal at the instant.
fn add_journal(
    alloc: Global,
    rules: &Rules,
    pool: &Pool,
    unknowns: &[Unknown],
    journal: &[JournalStep],
    t: i64,
    steps: &mut Items<TraceStep>,
) -> Result<(), Memory>
    requires sorted { IsSorted unknown_cmp unknowns.now }
    requires journal { All (CanTellStep rules.now pool.now) journal.now }
    ensures told { OnOk result ((settled : List StepValue) × (steps.new ≡ steps.old ++ settled)
        × AllZip (TellsStep rules.now pool.now unknowns.now EgdStep) (steps_at journal.now t) settled) }
    ensures writable { OnOk result (All IsWritableStep steps.old → All IsWritableStep steps.new) }
{
    for step in journal {
        if step.span.has(t) {
            steps.push(journal_step(alloc, rules, pool, unknowns, StepKind::Egd, step)?)?;
        }
    }
    Ok(())
}

// The step of this kind for one of a journal.
fn journal_step(
    alloc: Global,
    rules: &Rules,
    pool: &Pool,
    unknowns: &[Unknown],
    kind: StepKind,
    step: &JournalStep,
) -> Result<TraceStep, Memory>
    requires sorted { IsSorted unknown_cmp unknowns.now }
    requires step { CanTellStep rules.now pool.now step.now }
    ensures told { IfOk result (TellsStep rules.now pool.now unknowns.now kind step.now) }
    ensures writable { IfOk result IsWritableStep }
{
    let egd = egd_at(rules, step.egd);
    let rule = Text::from_str(alloc, egd.name.as_str())?;
    let names = egd.vars.as_slice();
    let binding = bind_terms(alloc, pool, unknowns, names, step.binding.as_slice())?;
    Ok(TraceStep {
        kind,
        rule,
        binding,
    })
}

// The egd at a place.
fn egd_at(rules: &Rules, place: u32) -> &Egd
    requires { place < length rules.now.egds }
    ensures there { slice_get rules.now.egds place ≡ Some result.now }
    ensures valid { IsEgd rules.now.targets result.now }
{
    rules.is_kept();
    &rules.egds().as_slice()[place as usize]
}
