//! Facts, and what becomes of them where an unknown is replaced.

ghost use Rattle.std.specs.Prelude.{◌≡◌, ◌↔◌, ◌∷◌, [], ℕ, List, IfOk, OnOk, IsTrue, map, Contains};
ghost use Rattle.rule_core.specs.Terms.{FactOf};
ghost use Rattle.rule_core.specs.Renaming.{HoldTheSame};
ghost use Rattle.failure_trace.specs.Equating.{replaced_fact};
ghost use Rattle.failure_trace.specs.TraceRun.{text_cmp};
ghost use Rattle.trace_checker.specs.States.{fact_named, replacement, HoldsAlso};
ghost use Rattle.trace_checker.specs.Listed.{facts_of, AreListed, Moves};

use crate::holders::Holders;
use crate::name::Name;
use crate::row::{Row, replaced_row};
use indexmap::IndexSet;
use std::alloc::Global;
use std::marker::Model;
use term_core::Memory;

/// Facts, each once. Each is listed under its unknowns.
#[derive(Drop)]
pub struct Rows<'a> {
    rows: IndexSet<Row<'a>>,
    holders: Holders<'a>,
}

impl<'a> Model for Rows<'a> {
    ghost use Rattle.std.specs.Prelude.{[], List, ℕ, map};
    ghost use Rattle.rule_core.specs.Terms.{FactOf};
    ghost use Rattle.trace_checker.specs.States.{fact_named};
    ghost use Rattle.trace_checker.specs.Listed.{AreListed};

    ghost Value = { List (FactOf (List ℕ)) };

    ghost view = { λ f. map fact_named f.rows.keys };

    ghost invariant = { λ f. AreListed (map fact_named f.rows.keys) f.holders [] };
}

impl<'a> Rows<'a> {
    /// No fact.
    pub fn new(alloc: Global) -> Rows<'a>
        ensures { result ≡ [] }
    {
        Rows {
            rows: IndexSet::new(alloc),
            holders: Holders::new(alloc),
        }
    }

    /// Whether the fact is there.
    pub fn has(&self, row: &Row<'a>) -> bool
        ensures { IsTrue result ↔ Contains self.now (fact_named row.now) }
    {
        self.rows.contains(row)
    }

    /// How many facts are listed under a number. No clause needs to say it.
    pub fn listed(&self, number: u64) -> usize {
        self.holders.listed(number)
    }

    /// The facts and one more, where it is not there yet.
    pub fn with(self, alloc: Global, row: Row<'a>) -> Result<Rows<'a>, Memory>
        ensures { IfOk result (HoldsAlso self.entry (fact_named row.entry)) }
    {
        let Rows {
            mut rows,
            mut holders,
        } = self;
        add(alloc, &mut rows, &mut holders, row)?;
        Ok(Rows { rows, holders })
    }

    /// The facts with an unknown replaced. It looks at those that are listed under the unknown, and at no other.
    pub fn replaced(self, alloc: Global, gone: u64, by: Name<'a>) -> Result<Rows<'a>, Memory>
        ensures { IfOk result (λ facts.
            HoldTheSame facts (map (replaced_fact text_cmp (replacement gone by.entry)) self.entry)) }
    {
        let Rows {
            mut rows,
            mut holders,
        } = self;
        let listed = holders.take(alloc, gone);
        let before = listed.as_slice();
        for row in before {
            replace(alloc, &mut rows, &mut holders, row, gone, by)?;
        }
        Ok(Rows { rows, holders })
    }
}

// Adds a fact, where it is not there yet, and lists it.
fn add<'a>(
    alloc: Global,
    rows: &mut IndexSet<Row<'a>>,
    holders: &mut Holders<'a>,
    row: Row<'a>,
) -> Result<(), Memory>
    ensures added { OnOk result
        (HoldsAlso (facts_of rows.old.keys) (fact_named row.entry) (facts_of rows.new.keys)) }
    ensures listed { OnOk result ((left : List (FactOf (List ℕ)))
        → AreListed (facts_of rows.old.keys) holders.old left
        → AreListed (facts_of rows.new.keys) holders.new left) }
{
    if rows.contains(&row) {
        return Ok(());
    }
    holders.list(alloc, &row)?;
    rows.insert(row)?;
    Ok(())
}

// Replaces an unknown in a fact, where the fact is still there.
fn replace<'a>(
    alloc: Global,
    rows: &mut IndexSet<Row<'a>>,
    holders: &mut Holders<'a>,
    row: &Row<'a>,
    gone: u64,
    by: Name<'a>,
) -> Result<(), Memory>
    ensures moved { OnOk result (Moves (facts_of rows.old.keys) (fact_named row.now)
        (replaced_fact text_cmp (replacement gone by.entry) (fact_named row.now)) (facts_of rows.new.keys)) }
    ensures listed { OnOk result ((left : List (FactOf (List ℕ)))
        → AreListed (facts_of rows.old.keys) holders.old (fact_named row.now ∷ left)
        → AreListed (facts_of rows.new.keys) holders.new left) }
{
    if rows.swap_remove(row) {
        add(alloc, rows, holders, replaced_row(alloc, row, gone, by)?)?;
    }
    Ok(())
}
