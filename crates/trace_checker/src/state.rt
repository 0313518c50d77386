//! What a checker holds between steps, and what each step comes to.

ghost use Rattle.std.specs.Prelude.{◌≡◌, ◌≢◌, ◌<◌, [], IfOk, IfSome, IfNone, All, Contains, length};
ghost use Rattle.rule_core.specs.Snapshot.{snapshot_at};
ghost use Rattle.failure_trace.specs.TraceRun.{Instance, EquatesSides, tgd_tests, egd_tests, clash_tests, kind_tests};
ghost use Rattle.failure_trace.specs.Projected.{pool_text};
ghost use Rattle.trace_checker.specs.Checked.{source_of, HasConstants};
ghost use Rattle.trace_checker.specs.States.{IsState, ComesTo, CanFire, CanSettle, TgdTests, EgdTests, ClashesSides};

use crate::binding::{
    are_clashing, exists_values, fits_tgd, has_names, replacement_for, side, take_numbers,
};
use crate::facts::{Facts, with_images};
use crate::matching::{matches, matches_at};
use fact_table::FactTable;
use failure_trace::{Bound, StepKind, TraceStep, Why};
use indexmap::IndexSet;
use rule_core::{Egd, Rules, Tgd};
use std::alloc::Global;
use std::marker::Model;
use term_core::{Memory, Pool, Text};

/// The target's facts so far, and the numbers that tgds gave.
#[derive(Drop)]
pub struct State<'a> {
    facts: Facts<'a>,
    used: IndexSet<u64>,
}

impl<'a> Model for State<'a> {
    ghost use Rattle.failure_trace.specs.TraceRun.{Instance};

    ghost Value = { Instance };

    ghost view = { λ s. record { facts = s.facts; used = s.used.keys } };
}

impl<'a> State<'a> {
    /// Where each trace begins.
    pub fn new(alloc: Global) -> State<'a>
        ensures { result ≡ record { facts = []; used = [] } }
    {
        State {
            facts: Facts::new(alloc),
            used: IndexSet::new(alloc),
        }
    }
}

/// What a step comes to.
#[derive(Drop)]
pub enum Next<'a> {
    /// The trace goes on with this state.
    Goes(State<'a>),
    /// The trace has come to a clash.
    Clashes,
    /// The step fails, by this part of the table.
    Stops(Why),
}

/// What a step comes to where the trace goes on.
pub fn take_step<'a>(
    alloc: Global,
    rules: &Rules,
    pool: &'a Pool,
    table: &FactTable,
    t: i64,
    state: State<'a>,
    step: &'a TraceStep,
) -> Result<Next<'a>, Memory>
    requires { HasConstants pool.now rules.now table.now }
    ensures { IfOk result (λ next. (held : Instance) → IsState state.entry held → ComesTo
        (kind_tests (pool_text pool.now) rules.now (snapshot_at (source_of pool.now table.now) t)
        step.now.kind held step.now) next) }
{
    match step.kind {
        StepKind::Tgd => tgd_step(alloc, rules, pool, table, t, state, step),
        StepKind::Egd => egd_step(alloc, rules, pool, table, t, state, step),
        StepKind::Clash => clash_step(alloc, rules, pool, table, t, state, step),
    }
}

// What a step of a tgd comes to.
fn tgd_step<'a>(
    alloc: Global,
    rules: &Rules,
    pool: &'a Pool,
    table: &FactTable,
    t: i64,
    state: State<'a>,
    step: &'a TraceStep,
) -> Result<Next<'a>, Memory>
    requires { HasConstants pool.now rules.now table.now }
    ensures { IfOk result (λ next. (held : Instance) → IsState state.entry held → ComesTo
        (tgd_tests (pool_text pool.now) rules.now (snapshot_at (source_of pool.now table.now) t)
        held step.now) next) }
{
    rules.is_kept();
    let Some(tgd) = tgd_named(rules.tgds().as_slice(), &step.rule) else {
        return Ok(Next::Stops(Why::K1));
    };
    fire(alloc, pool, table, t, tgd, state, step.binding.as_slice())
}

// The tgd with the name.
fn tgd_named<'a>(tgds: &'a [Tgd], name: &Text) -> Option<&'a Tgd>
    ensures found { IfSome result (λ tgd. Contains tgds.now tgd.now × (tgd.now.name ≡ name.now)) }
    ensures none { IfNone result (All (λ tgd. tgd.name ≢ name.now) tgds.now) }
{
    tgds.iter().find(|tgd| tgd.name == *name)
}

// What the tgd comes to with this binding.
fn fire<'a>(
    alloc: Global,
    pool: &'a Pool,
    table: &FactTable,
    t: i64,
    tgd: &Tgd,
    state: State<'a>,
    binding: &'a [Bound],
) -> Result<Next<'a>, Memory>
    requires known { CanFire pool.now tgd.now }
    requires facts { All (λ fact. All (λ c. c.0 < length pool.now) fact.row) table.now }
    ensures { IfOk result (λ next. (held : Instance) → IsState state.entry held → ComesTo
        (TgdTests (pool_text pool.now) tgd.now binding.now (snapshot_at (source_of pool.now table.now) t) held) next) }
{
    if !fits_tgd(tgd, binding) {
        return Ok(Next::Stops(Why::K2));
    }
    let there = matches_at(alloc, pool, table, t, binding, tgd.body.as_slice())?;
    if !there {
        return Ok(Next::Stops(Why::K3));
    }
    let State { facts, mut used } = state;
    let new = take_numbers(&mut used, exists_values(tgd, binding))?;
    if !new {
        return Ok(Next::Stops(Why::K4));
    }
    let facts = with_images(alloc, pool, binding, tgd.head.as_slice(), facts)?;
    Ok(Next::Goes(State { facts, used }))
}

// What a step of an egd comes to.
fn egd_step<'a>(
    alloc: Global,
    rules: &Rules,
    pool: &'a Pool,
    table: &FactTable,
    t: i64,
    state: State<'a>,
    step: &'a TraceStep,
) -> Result<Next<'a>, Memory>
    requires { HasConstants pool.now rules.now table.now }
    ensures { IfOk result (λ next. (held : Instance) → IsState state.entry held → ComesTo
        (egd_tests (pool_text pool.now) rules.now (snapshot_at (source_of pool.now table.now) t)
        held step.now) next) }
{
    rules.is_kept();
    let Some(egd) = egd_named(rules.egds().as_slice(), &step.rule) else {
        return Ok(Next::Stops(Why::K1));
    };
    equate(alloc, pool, egd, state, step.binding.as_slice())
}

// The egd with the name.
fn egd_named<'a>(egds: &'a [Egd], name: &Text) -> Option<&'a Egd>
    ensures found { IfSome result (λ egd. Contains egds.now egd.now × (egd.now.name ≡ name.now)) }
    ensures none { IfNone result (All (λ egd. egd.name ≢ name.now) egds.now) }
{
    egds.iter().find(|egd| egd.name == *name)
}

// What the egd comes to with this binding.
fn equate<'a>(
    alloc: Global,
    pool: &'a Pool,
    egd: &Egd,
    state: State<'a>,
    binding: &'a [Bound],
) -> Result<Next<'a>, Memory>
    requires { CanSettle pool.now egd.now }
    ensures { IfOk result (λ next. (held : Instance) → IsState state.entry held → ComesTo
        (EgdTests (pool_text pool.now) egd.now binding.now held (EquatesSides egd.now binding.now held)) next) }
{
    if !has_names(binding, egd.vars.as_slice()) {
        return Ok(Next::Stops(Why::K2));
    }
    let State { facts, used } = state;
    let there = matches(alloc, pool, binding, egd.body.as_slice(), &facts)?;
    if !there {
        return Ok(Next::Stops(Why::K3));
    }
    let Some(r) = replacement_for(side(binding, egd.left), side(binding, egd.right)) else {
        return Ok(Next::Stops(Why::K5));
    };
    let facts = facts.replaced(alloc, r.gone, r.by)?;
    Ok(Next::Goes(State { facts, used }))
}

// What a clash comes to.
fn clash_step<'a>(
    alloc: Global,
    rules: &Rules,
    pool: &'a Pool,
    table: &FactTable,
    t: i64,
    state: State<'a>,
    step: &'a TraceStep,
) -> Result<Next<'a>, Memory>
    requires { HasConstants pool.now rules.now table.now }
    ensures { IfOk result (λ next. (held : Instance) → IsState state.entry held → ComesTo
        (clash_tests (pool_text pool.now) rules.now (snapshot_at (source_of pool.now table.now) t)
        held step.now) next) }
{
    rules.is_kept();
    let Some(egd) = egd_named(rules.egds().as_slice(), &step.rule) else {
        return Ok(Next::Stops(Why::K1));
    };
    clash(alloc, pool, egd, state, step.binding.as_slice())
}

// What a clash over the egd comes to with this binding.
fn clash<'a>(
    alloc: Global,
    pool: &'a Pool,
    egd: &Egd,
    state: State<'a>,
    binding: &'a [Bound],
) -> Result<Next<'a>, Memory>
    requires { CanSettle pool.now egd.now }
    ensures { IfOk result (λ next. (held : Instance) → IsState state.entry held → ComesTo
        (EgdTests (pool_text pool.now) egd.now binding.now held (ClashesSides egd.now binding.now)) next) }
{
    if !has_names(binding, egd.vars.as_slice()) {
        return Ok(Next::Stops(Why::K2));
    }
    let State { facts, used: _ } = state;
    let there = matches(alloc, pool, binding, egd.body.as_slice(), &facts)?;
    if !there {
        return Ok(Next::Stops(Why::K3));
    }
    if !are_clashing(side(binding, egd.left), side(binding, egd.right)) {
        return Ok(Next::Stops(Why::K6));
    }
    Ok(Next::Clashes)
}
