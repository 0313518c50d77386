//! Checks a trace.

ghost use Rattle.std.specs.Prelude.{◌≡◌, ◌≤◌, IfOk};
ghost use Rattle.failure_trace.specs.Projected.{pool_text};
ghost use Rattle.trace_checker.specs.Checked.{source_of, HasConstants, IsVerdict, Shows};
ghost use Rattle.trace_checker.specs.States.{EndsAt};

use crate::Verdict;
use crate::laws::an_accepted_trace_has_no_solution_at_its_instant;
use crate::state::{Next, State, take_step};
use fact_table::FactTable;
use failure_trace::{Trace, TraceStep, Why};
use rule_core::Rules;
use std::alloc::Global;
use term_core::{Memory, Pool};

/// Whether the trace is accepted on the mapping and the source, and else which step fails first, and why. An accepted
/// trace shows that its instant has no solution.
pub fn check(
    alloc: Global,
    rules: &Rules,
    pool: &Pool,
    table: &FactTable,
    trace: &Trace,
) -> Result<Verdict, Memory>
    requires { HasConstants pool.now rules.now table.now }
    ensures exact { IfOk result
        (IsVerdict (pool_text pool.now) rules.now (source_of pool.now table.now) trace.now) }
    ensures shows { IfOk result
        (Shows (pool_text pool.now) rules.now (source_of pool.now table.now) trace.now) }
{
    an_accepted_trace_has_no_solution_at_its_instant();
    rules.is_kept();
    try_steps(
        alloc,
        rules,
        pool,
        table,
        instant_of(trace),
        trace.steps.as_slice(),
    )
}

// The instant of the trace.
fn instant_of(trace: &Trace) -> i64
    ensures { result ≡ trace.now.instant }
{
    trace.instant
}

// Tries the steps in turn, all at one instant.
fn try_steps(
    alloc: Global,
    rules: &Rules,
    pool: &Pool,
    table: &FactTable,
    t: i64,
    steps: &[TraceStep],
) -> Result<Verdict, Memory>
    requires { HasConstants pool.now rules.now table.now }
    ensures { IfOk result (IsVerdict (pool_text pool.now) rules.now (source_of pool.now table.now)
        (record { instant = t; steps = steps.now })) }
{
    let mut state = State::new(alloc);
    for at in 0..steps.len() {
        match take_step(alloc, rules, pool, table, t, state, &steps[at])? {
            Next::Goes(next) => state = next,
            Next::Stops(why) => return Ok(Verdict::Refused { step: at + 1, why }),
            Next::Clashes => return Ok(end(at + 1, steps.len())),
        }
    }
    Ok(Verdict::Refused {
        step: steps.len() + 1,
        why: Why::K7,
    })
}

// The verdict where so many steps of all have led to a clash.
fn end(done: usize, all: usize) -> Verdict
    requires { done ≤ all }
    ensures { EndsAt done all result }
{
    if done == all {
        Verdict::Accepted
    } else {
        Verdict::Refused {
            step: done + 1,
            why: Why::K8,
        }
    }
}
