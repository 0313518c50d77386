//! The rows that a mapping's tgds make of a table.

ghost use Rattle.std.specs.Prelude.{◌≡◌, ◌<◌, ◌≤◌, ◌^◌, IfOk, OnOk, IsPermutation, length, sum_by};
ghost use Rattle.time_line.specs.Span.{HasInstant};
ghost use Rattle.rule_core.specs.Firing.{firing_rows};
ghost use Rattle.fact_table.specs.Snapshots.{stamped_facts};
ghost use Rattle.normaliser.specs.Normalised.{IsEqualOrDisjoint};
ghost use Rattle.null_store.specs.Store.{facts_in};
ghost use Rattle.null_store.specs.Changes.{HoldsSame, HasRoom, CanFire, IsFresh, head_cells, exists_count};
ghost use Rattle.failure_trace.specs.Entries.{entries_of};
ghost use Rattle.failure_trace.specs.Firings.{AreFirings};
ghost use Rattle.tgd_chase.specs.Fired.{HaveMatchEnds, HoldFiringFacts};
ghost use Rattle.tgd_chase.specs.Adding.{name_of, FitsRules, AddsRows};

use crate::listing::list_firings;
use fact_table::FactTable;
use failure_trace::Firing;
use null_store::NullStore;
use rule_core::{Atom, Rules, Tgd};
use std::alloc::Global;
use std::sync::ledger::Ledger;
use term_core::{Items, Memory, Steps};

/// A target before its equalities, and the firings that made it.
#[derive(Drop)]
pub struct Fired {
    /// The rows of the firings.
    pub store: NullStore,
    /// The firings, in order of rule, frontier and span.
    pub firings: Items<Firing>,
}

/// Fires each tgd of a mapping on a table, whether or not its head holds already.
pub fn fire<L: Ledger>(
    alloc: Global,
    rules: &Rules,
    table: &FactTable,
    steps: &mut Steps<L>,
) -> Result<Fired, Memory>
    requires { IsEqualOrDisjoint rules.now table.now }
    ensures firings { IfOk result (λ fired.
        AreFirings rules.now (stamped_facts table.now) fired.firings) }
    ensures ends { IfOk result (λ fired. HaveMatchEnds rules.now table.now fired.firings) }
    ensures rows { IfOk result (λ fired.
        IsPermutation (firing_rows (λ c. c) rules.now (entries_of fired.firings)) (facts_in fired.store)) }
    ensures facts { IfOk result (λ fired. HoldFiringFacts rules.now table.now (facts_in fired.store)) }
{
    let firings = list_firings(alloc, rules, table, steps)?;
    let mut store = NullStore::new(alloc);
    reserve_all(rules, firings.as_slice(), &mut store)?;
    for firing in firings.as_slice() {
        has_instant(firing);
        add_rows(rules, firing, &mut store, steps)?;
    }
    Ok(Fired { store, firings })
}

// Takes memory for the rows of all firings at once.
fn reserve_all(rules: &Rules, firings: &[Firing], store: &mut NullStore) -> Result<(), Memory>
    ensures { HoldsSame store.old store.new }
{
    let tgds = rules.tgds().as_slice();
    let mut need = Need {
        rows: 0,
        cells: 0,
        pieces: 0,
    };
    for firing in firings {
        if let Some(tgd) = tgds.get(firing.rule as usize) {
            need.add(tgd);
        }
    }
    store.reserve(need.rows, need.cells, need.pieces)
}

// For how many rows, cells and pieces memory is taken. No clause rests on it.
#[derive(Clone, Copy)]
struct Need {
    rows: usize,
    cells: usize,
    pieces: usize,
}

impl Need {
    // Adds what a firing of a tgd needs.
    fn add(&mut self, tgd: &Tgd) {
        let unknowns = tgd.vars.len().saturating_sub(tgd.body_vars as usize);
        self.pieces = self.pieces.saturating_add(unknowns);
        for atom in tgd.head.as_slice() {
            self.rows = self.rows.saturating_add(1);
            self.cells = self.cells.saturating_add(atom.args.len());
        }
    }
}

// A firing's span has an instant, as its start tells.
fn has_instant(firing: &Firing)
    ensures { HasInstant firing.now.span }
{
    let _start = firing.span.lo();
}

// Adds the rows of a firing, whose unknowns are new over its span. Where there are none, it needs no name.
fn add_rows<L: Ledger>(
    rules: &Rules,
    firing: &Firing,
    store: &mut NullStore,
    steps: &mut Steps<L>,
) -> Result<(), Memory>
    requires fits { FitsRules rules.now firing.now }
    requires fresh { IsFresh store.old (name_of firing.now) firing.now.span }
    ensures { OnOk result (AddsRows rules.now firing.now store.old store.new) }
{
    rules.is_kept();
    let tgd = &rules.tgds().as_slice()[firing.rule as usize];
    reserve_head(tgd, store)?;
    if tgd.vars.len() > tgd.body_vars as usize {
        return add_named(rules, firing, store, steps);
    }
    store.add_plain(rules, firing.rule, &firing.frontier, firing.span, steps);
    Ok(())
}

// Adds the rows of a firing in the spare room, whose unknowns get their name.
fn add_named<L: Ledger>(
    rules: &Rules,
    firing: &Firing,
    store: &mut NullStore,
    steps: &mut Steps<L>,
) -> Result<(), Memory>
    requires fits { CanFire rules.now store.old (name_of firing.now) }
    requires fresh { IsFresh store.old (name_of firing.now) firing.now.span }
    ensures { OnOk result (AddsRows rules.now firing.now store.old store.new) }
{
    let name = store.name(firing.rule, &firing.frontier)?;
    store.add_firing(rules, name, firing.span, steps);
    Ok(())
}

// Takes memory for the rows of a tgd's head.
fn reserve_head(tgd: &Tgd, store: &mut NullStore) -> Result<(), Memory>
    requires cells { sum_by (λ atom. length atom.args) tgd.now.head < 2 ^ 64 }
    requires within { tgd.now.body_vars ≤ length tgd.now.vars }
    ensures same { HoldsSame store.old store.new }
    ensures room { OnOk result
        (HasRoom store.new (length tgd.now.head) (head_cells tgd.now) (exists_count tgd.now)) }
{
    let head = tgd.head.as_slice();
    let unknowns = tgd.vars.len() - tgd.body_vars as usize;
    store.reserve(head.len(), cell_count(head), unknowns)
}

// How many cells the rows of a head have.
fn cell_count(head: &[Atom]) -> usize
    requires { sum_by (λ atom. length atom.args) head.now < 2 ^ 64 }
    ensures { result ≡ sum_by (λ atom. length atom.args) head.now }
{
    head.iter().map(|atom| atom.args.len()).sum()
}
