//! A table of facts in order.

ghost use Rattle.std.specs.Prelude.{◌≡◌, ◌↔◌, Some, Any, Contains, IsTrue, IfOk};
ghost use Rattle.time_line.specs.Span.{Has};
ghost use Rattle.fact_table.specs.declared.fact.Fact.{Fact};
ghost use Rattle.fact_table.specs.Facts.{IsTable, HasAt, key_cmp};
ghost use Rattle.fact_table.specs.Rows.{HasCell, cell_at, rows_of};

use crate::{Fact, FactSource, RowHead};
use std::alloc::Global;
use std::cmp::Ordering;
use std::marker::Model;
use std::sync::ledger::Ledger;
use term_core::{ConstId, Items, Memory, Seen, Steps};

/// Facts in order, each once. The number of a fact is its place.
#[derive(Debug, Drop)]
pub struct FactTable {
    facts: Items<Fact>,
}

impl Model for FactTable {
    ghost use Rattle.std.specs.Prelude.{List};
    ghost use Rattle.time_line.specs.Span.{Has};
    ghost use Rattle.fact_table.specs.declared.fact.Fact.{Fact};
    ghost use Rattle.fact_table.specs.Facts.{IsTable};

    ghost Value = { List Fact };

    ghost view = { λ t. t.facts };

    ghost invariant = { λ t. IsTable t.facts };
}

impl FactTable {
    /// The table of the facts of a list.
    pub fn make(_alloc: Global, facts: Items<Fact>) -> Result<FactTable, Memory>
        ensures same { IfOk result (λ table. (fact : Fact)
            → Contains table fact ↔ Contains facts fact) }
        ensures table { IfOk result IsTable }
    {
        let mut facts = facts.into_vec();
        facts.sort_unstable();
        facts.dedup();
        Ok(FactTable {
            facts: Items::from_vec(facts),
        })
    }

    /// The facts, in order.
    pub fn facts(&self) -> &Items<Fact>
        ensures value { result.now ≡ self.now }
        ensures table { IsTable self.now }
    {
        &self.facts
    }

    /// Whether a fact of the table has the relation, the row and a span with the instant.
    pub fn has_at(&self, relation: u32, row: &Items<ConstId>, t: i64) -> bool
        ensures { IsTrue result ↔ HasAt self.now relation row.now t }
    {
        some_has(facts_of(self.facts.as_slice(), relation, row), t)
    }
}

// Whether a span of the facts has the instant.
fn some_has(facts: &[Fact], t: i64) -> bool
    ensures { IsTrue result ↔ Any (λ fact. Has fact.span t) facts.now }
{
    facts.iter().any(|fact| fact.span.has(t))
}

// The facts of a table that have the relation and the row, which stand one after the other.
fn facts_of<'a>(facts: &'a [Fact], relation: u32, row: &Items<ConstId>) -> &'a [Fact]
    requires { IsTable facts.now }
    ensures { (fact : Fact) → Contains result.now fact
        ↔ (Contains facts.now fact × (fact.relation ≡ relation) × (fact.row ≡ row.now)) }
{
    let first = facts.partition_point(|fact| key_order(fact, relation, row).is_lt());
    let from = &facts[first..];
    let end = from.partition_point(|fact| key_order(fact, relation, row).is_eq());
    &from[..end]
}

// How the relation and the row of a fact stand to these.
fn key_order(fact: &Fact, relation: u32, row: &Items<ConstId>) -> Ordering
    ensures { result ≡ key_cmp fact.now relation row.now }
{
    fact.relation.cmp(&relation).then_with(|| fact.row.cmp(row))
}

impl FactSource for FactTable {
    ghost rows = { rows_of };

    fn bound(&self) -> usize {
        self.facts.len()
    }

    fn head(&self, row: usize) -> Option<RowHead> {
        let fact = self.facts.get(row)?;
        Some(RowHead {
            relation: fact.relation,
            arity: fact.row.len(),
            span: fact.span,
        })
    }

    fn cell<L: Ledger>(&self, row: usize, column: usize, _steps: &mut Steps<L>) -> Seen
        requires { HasCell (rows_of self.now) row column }
        ensures value { cell_at (rows_of self.now) row column ≡ Some result }
        ensures steps { _steps.new ≡ _steps.old }
    {
        Seen::Const(self.facts.as_slice()[row].row.as_slice()[column])
    }
}
