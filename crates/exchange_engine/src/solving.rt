//! An exchange: what fires on a source is settled, and told as tables, or as the trace of one instant.

ghost use Rattle.std.specs.Prelude.{◌≡◌, All, IfOk, length, sum_by};
ghost use Rattle.failure_trace.specs.Printed.{IsWritable};
ghost use Rattle.null_store.specs.Store.{facts_in};
ghost use Rattle.exchange_engine.specs.Answered.{AreAnswered};
ghost use Rattle.exchange_engine.specs.Ran.{CountsPieces};
ghost use Rattle.exchange_engine.specs.Solved.{IfSolved, AreCoalesced, AreUniversal, AreTargetTables, AreUnknownsOf, AreWithinPool, IsMadeBy, AreCountsOf, IsRunOf};
ghost use Rattle.exchange_engine.specs.Failed.{IfFailed, HasNoSolution, IsAcceptedOn, CountsFromOne, IsInsideClash};
ghost use Rattle.exchange_engine.specs.Chased.{AreStarted, AreSettledFrom, IsClashFrom, IsSolvedOf, IsFailedOf};

use crate::tables::tables_of;
use crate::unknowns::unknowns_of;
use crate::{Counts, Loaded, Outcome, Solved};
use certain_answers::answers_of;
use egd_chase::laws::projected_traces_are_accepted;
use egd_chase::{Settled, settle};
use fact_table::laws::rows_of_a_table_are_its_facts;
use failure_trace::{Firing, JournalStep, Trace, project};
use normaliser::laws::normalised_tables_keep_what_holds;
use normaliser::normalise;
use null_store::NullStore;
use rule_core::laws::what_is_certain_is_answered_on_a_universal_instance;
use std::alloc::Global;
use std::sync::ledger::Ledger;
use term_core::{Items, Memory, Steps};
use tgd_chase::laws::solutions_are_what_firing_facts_map_into;
use tgd_chase::{Fired, fire};

/// The target of a mapping and its source: a table for each target relation, in their order, the unknowns there, the answers of
/// each query, which are its certain answers, and the run behind them. Where two different constants were to be equal, it is a
/// trace of that instead. A trace is given exactly where some instant has no solution: its instant has none, and a
/// target is a solution at every instant.
pub fn exchange<L: Ledger>(
    alloc: Global,
    loaded: &Loaded,
    steps: &mut Steps<L>,
) -> Result<Outcome, Memory>
    ensures tables { IfOk result (λ o. IfSolved o (λ s. AreTargetTables loaded.now.rules.targets s.tables)) }
    ensures coalesced { IfOk result (λ o. IfSolved o (λ s. AreCoalesced s.tables)) }
    ensures universal { IfOk result (λ o. IfSolved o (λ s. AreUniversal loaded.now s.tables)) }
    ensures nulls { IfOk result (λ o. IfSolved o (λ s. AreUnknownsOf s.tables s.nulls)) }
    ensures made { IfOk result (λ o. IfSolved o (λ s. All (IsMadeBy loaded.now.rules) s.nulls)) }
    ensures within { IfOk result (λ o. IfSolved o (λ s. AreWithinPool loaded.now s.tables)) }
    ensures answers { IfOk result (λ o. IfSolved o (λ s. AreAnswered loaded.now s.answers)) }
    ensures counts { IfOk result (λ o. IfSolved o (AreCountsOf loaded.now)) }
    ensures run { IfOk result (λ o. IfSolved o (IsRunOf loaded.now)) }
    ensures failed { IfOk result (λ o. IfFailed o (HasNoSolution loaded.now)) }
    ensures accepted { IfOk result (λ o. IfFailed o (IsAcceptedOn loaded.now)) }
    ensures writable { IfOk result (λ o. IfFailed o IsWritable) }
    ensures numbers { IfOk result (λ o. IfFailed o CountsFromOne) }
    ensures inside { IfOk result (λ o. IfFailed o (IsInsideClash loaded.now)) }
{
    let Start {
        pieces,
        firings,
        store,
    } = fire_pieces(alloc, loaded, steps)?;
    match settle(alloc, &loaded.rules, store, steps)? {
        Settled::Done(store, journal) => {
            let run = Run {
                pieces,
                firings,
                journal,
            };
            Ok(Outcome::Solved(solved_from(alloc, loaded, run, store, steps)?))
        }
        Settled::Clash(journal, last) => Ok(Outcome::Failed(failed_from(
            alloc, loaded, &firings, &journal, &last,
        )?)),
    }
}

// What is to be settled: the rows of the firings on the normalised table, which has so many pieces.
#[derive(Drop)]
struct Start {
    pieces: usize,
    firings: Items<Firing>,
    store: NullStore,
}

// A run that ended well.
#[derive(Drop)]
struct Run {
    pieces: usize,
    firings: Items<Firing>,
    journal: Items<JournalStep>,
}

// Fires the tgds on the normalised table.
fn fire_pieces<L: Ledger>(
    alloc: Global,
    loaded: &Loaded,
    steps: &mut Steps<L>,
) -> Result<Start, Memory>
    ensures started { IfOk result (λ start. AreStarted loaded.now start.firings (facts_in start.store)) }
    ensures pieces { IfOk result (λ start. CountsPieces loaded.now start.pieces) }
{
    normalised_tables_keep_what_holds();
    let pieces = normalise(alloc, &loaded.table, &loaded.rules, steps)?;
    let Fired { store, firings } = fire(alloc, &loaded.rules, &pieces, steps)?;
    Ok(Start {
        pieces: pieces.facts().len(),
        firings,
        store,
    })
}

// The target that a settled store holds.
fn solved_from<L: Ledger>(
    alloc: Global,
    loaded: &Loaded,
    run: Run,
    store: NullStore,
    steps: &mut Steps<L>,
) -> Result<Solved, Memory>
    requires settled { AreSettledFrom loaded.now run.firings run.journal (facts_in store) }
    requires pieces { CountsPieces loaded.now run.pieces }
    ensures { IfOk result (IsSolvedOf loaded.now) }
{
    loaded.is_kept();
    loaded.rules.is_kept();
    rows_of_a_table_are_its_facts();
    solutions_are_what_firing_facts_map_into();
    what_is_certain_is_answered_on_a_universal_instance();
    let counts = counts_of(&run)?;
    let relations = loaded.rules.targets().len();
    let tables = tables_of(alloc, &store, relations, steps)?;
    drop(store);
    let nulls = unknowns_of(alloc, tables.as_slice())?;
    let queries = loaded.rules.queries().as_slice();
    let answers = answers_of(alloc, queries, tables.as_slice(), nulls.as_slice(), steps)?;
    Ok(Solved {
        tables,
        answers,
        nulls,
        counts,
        firings: run.firings,
        journal: run.journal,
    })
}

// How much was done in a run.
fn counts_of(run: &Run) -> Result<Counts, Memory>
    ensures pieces { IfOk result (λ counts. counts.pieces ≡ run.now.pieces) }
    ensures firings { IfOk result (λ counts. counts.firings ≡ length run.now.firings) }
    ensures steps { IfOk result (λ counts. counts.steps ≡ length run.now.journal) }
    ensures cuts { IfOk result (λ counts. counts.cuts ≡ sum_by (λ step. length step.cuts) run.now.journal) }
{
    Ok(Counts {
        pieces: run.pieces,
        firings: run.firings.len(),
        steps: run.journal.len(),
        cuts: cut_count(run.journal.as_slice())?,
    })
}

// How many cuts the steps note. Where no number tells it, memory could not hold them.
fn cut_count(journal: &[JournalStep]) -> Result<usize, Memory>
    ensures { IfOk result (λ count. count ≡ sum_by (λ step. length step.cuts) journal.now) }
{
    let mut count: usize = 0;
    for step in journal {
        let Some(sum) = count.checked_add(step.cuts.len()) else {
            return Err(Memory);
        };
        count = sum;
    }
    Ok(count)
}

// The trace of an instant of a clash.
fn failed_from(
    alloc: Global,
    loaded: &Loaded,
    firings: &Items<Firing>,
    journal: &Items<JournalStep>,
    last: &JournalStep,
) -> Result<Trace, Memory>
    requires { IsClashFrom loaded.now firings.now journal.now last.now }
    ensures { IfOk result (IsFailedOf loaded.now) }
{
    loaded.is_kept();
    loaded.rules.is_kept();
    let _ = loaded.pool.len();
    last.span.is_kept();
    rows_of_a_table_are_its_facts();
    solutions_are_what_firing_facts_map_into();
    normalised_tables_keep_what_holds();
    projected_traces_are_accepted();
    let t = last.span.inside();
    project(
        alloc,
        &loaded.rules,
        &loaded.pool,
        firings,
        journal,
        last,
        t,
    )
}
