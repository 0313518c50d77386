//! The unknowns of tables.

ghost use Rattle.std.specs.Prelude.{◌≡◌, ◌↔◌, ◌++◌, ◌∷◌, [], AllPairs, Contains, IfOk, OnOk};
ghost use Rattle.std.specs.declared.cmp.Ordering.TheVariants.{Less, Equal};
ghost use Rattle.term_core.specs.Order.{unknown_cmp};
ghost use Rattle.term_core.specs.declared.term.Term.TheVariants.{Null};
ghost use Rattle.term_core.specs.declared.term.Unknown.{Unknown as HeldUnknown};
ghost use Rattle.exchange_engine.specs.Solved.{AreUnknownsOf};
ghost use Rattle.exchange_engine.specs.Grouped.{IsUnknownIn, IsUnknownAmong, AddsUnknowns};

use coalescer::Stamped;
use std::alloc::Global;
use std::cmp::Ordering;
use std::marker::Model;
use term_core::laws::unknowns_have_one_order;
use term_core::{Items, Memory, Term, Unknown};

/// The unknowns of tables, ascending, each once.
pub fn unknowns_of(alloc: Global, tables: &[Items<Stamped>]) -> Result<Items<Unknown>, Memory>
    ensures { IfOk result (AreUnknownsOf tables.now) }
{
    let mut found = Found::new(alloc);
    for table in tables {
        add_of_table(table.as_slice(), &mut found)?;
    }
    Ok(found.in_order())
}

// Unknowns that were found. The rows of a table are in order, and so are most of their unknowns: it is noted whether each came behind
// all before.
#[derive(Drop)]
struct Found {
    alloc: Global,
    unknowns: Vec<Unknown>,
    ascend: bool,
}

impl Model for Found {
    ghost use Rattle.std.specs.Prelude.{List};
    ghost use Rattle.term_core.specs.declared.term.Unknown.{Unknown as HeldUnknown};
    ghost use Rattle.exchange_engine.specs.Grouped.{AscendIf};

    ghost Value = { List HeldUnknown };

    ghost view = { λ f. f.unknowns.items };

    ghost invariant = { λ f. AscendIf f.ascend f.unknowns.items };
}

impl Found {
    // No unknown yet.
    fn new(alloc: Global) -> Found
        ensures { result ≡ [] }
    {
        Found {
            alloc,
            unknowns: Vec::new(alloc),
            ascend: true,
        }
    }

    // Adds an unknown, unless it is the last one.
    fn add(&mut self, unknown: &Unknown) -> Result<(), Memory>
        ensures { OnOk result (AddsUnknowns (λ u. unknown.now ≡ u) self.old self.new) }
    {
        let order = last_to(self.unknowns.as_slice(), unknown);
        if order.is_eq() {
            return Ok(());
        }
        let copy = unknown.copy(self.alloc)?;
        self.ascend = self.ascend && order.is_lt();
        self.unknowns.push(copy)?;
        Ok(())
    }

    // All of them, ascending, each once.
    fn in_order(self) -> Items<Unknown>
        ensures same { (u : HeldUnknown) → Contains result u ↔ Contains self u }
        ensures ascending { AllPairs (λ u w. unknown_cmp u w ≡ Less) result }
    {
        let Found {
            alloc: _,
            mut unknowns,
            ascend,
        } = self;
        if ascend {
            return Items::from_vec(unknowns);
        }
        unknowns.sort_unstable();
        unknowns.dedup();
        Items::from_vec(unknowns)
    }
}

// How the last of some unknowns stands to another one. Where there is none, the other one comes first.
fn last_to(unknowns: &[Unknown], unknown: &Unknown) -> Ordering
    ensures equal { result ≡ Equal → Contains unknowns.now unknown.now }
    ensures less { result ≡ Less → AllPairs (λ u w. unknown_cmp u w ≡ Less) unknowns.now
        → AllPairs (λ u w. unknown_cmp u w ≡ Less) (unknowns.now ++ unknown.now ∷ []) }
{
    unknowns_have_one_order();
    match unknowns.last() {
        Some(last) => last.cmp(unknown),
        None => Ordering::Less,
    }
}

// Adds the unknowns of a table.
fn add_of_table(table: &[Stamped], found: &mut Found) -> Result<(), Memory>
    ensures { OnOk result (AddsUnknowns (IsUnknownAmong table.now) found.old found.new) }
{
    for entry in table {
        add_of_row(entry.row.as_slice(), found)?;
    }
    Ok(())
}

// Adds the unknowns of a row.
fn add_of_row(row: &[Term], found: &mut Found) -> Result<(), Memory>
    ensures { OnOk result (AddsUnknowns (IsUnknownIn row.now) found.old found.new) }
{
    for term in row {
        add_of_term(term, found)?;
    }
    Ok(())
}

// Adds the unknown that a term is, if it is one.
fn add_of_term(term: &Term, found: &mut Found) -> Result<(), Memory>
    ensures { OnOk result (AddsUnknowns (λ u. term.now ≡ Null u) found.old found.new) }
{
    if let Term::Null(unknown) = term {
        found.add(unknown)?;
    }
    Ok(())
}
