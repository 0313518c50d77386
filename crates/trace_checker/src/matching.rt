//! Whether the body of a rule matches under a binding, in the source or in a state.

ghost use Rattle.std.specs.Prelude.{◌≡◌, ◌≢◌, ◌↔◌, ◌<◌, ℕ, List, IfOk, IfSome, IfNone, IsTrue, map, All, Contains, length};
ghost use Rattle.term_core.specs.declared.const_id.ConstId.{ConstId as Id};
ghost use Rattle.rule_core.specs.Terms.{constant};
ghost use Rattle.rule_core.specs.Match.{Matches};
ghost use Rattle.rule_core.specs.Snapshot.{snapshot_at};
ghost use Rattle.failure_trace.specs.Equating.{bound_to};
ghost use Rattle.failure_trace.specs.Trace.{terms_in};
ghost use Rattle.failure_trace.specs.Projected.{pool_text};
ghost use Rattle.trace_checker.specs.Checked.{source_of};
ghost use Rattle.trace_checker.specs.Names.{term_named, AreKnown};
ghost use Rattle.trace_checker.specs.States.{fact_named, NameThem};

use crate::facts::Facts;
use crate::name::Name;
use crate::row::{Row, image_row};
use fact_table::FactTable;
use failure_trace::Bound;
use rule_core::Atom;
use std::alloc::Global;
use term_core::{ConstId, Items, Memory, Pool};

/// Whether the images of the atoms are among the facts.
pub fn matches<'a>(
    alloc: Global,
    pool: &'a Pool,
    binding: &'a [Bound],
    atoms: &[Atom],
    facts: &Facts<'a>,
) -> Result<bool, Memory>
    requires { AreKnown pool.now (length binding.now) atoms.now }
    ensures { IfOk result (λ yes. IsTrue yes
        ↔ Matches (pool_text pool.now) (bound_to (terms_in binding.now)) atoms.now facts.now) }
{
    for atom in atoms {
        let row = image_row(alloc, pool, binding, atom)?;
        let there = facts.has(alloc, &row)?;
        if !there {
            return Ok(false);
        }
    }
    Ok(true)
}

/// Whether the images of the atoms are in the source at an instant.
pub fn matches_at(
    alloc: Global,
    pool: &Pool,
    table: &FactTable,
    t: i64,
    binding: &[Bound],
    atoms: &[Atom],
) -> Result<bool, Memory>
    requires known { AreKnown pool.now (length binding.now) atoms.now }
    requires facts { All (λ fact. All (λ c. c.0 < length pool.now) fact.row) table.now }
    ensures { IfOk result (λ yes. IsTrue yes ↔ Matches (pool_text pool.now)
        (bound_to (terms_in binding.now)) atoms.now (snapshot_at (source_of pool.now table.now) t)) }
{
    for atom in atoms {
        let row = image_row(alloc, pool, binding, atom)?;
        let there = holds_at(alloc, pool, table, t, &row)?;
        if !there {
            return Ok(false);
        }
    }
    Ok(true)
}

// Whether the fact is in the source at an instant.
fn holds_at<'a>(
    alloc: Global,
    pool: &Pool,
    table: &FactTable,
    t: i64,
    row: &Row<'a>,
) -> Result<bool, Memory>
    requires { All (λ fact. All (λ c. c.0 < length pool.now) fact.row) table.now }
    ensures { IfOk result (λ yes. IsTrue yes
        ↔ Contains (snapshot_at (source_of pool.now table.now) t) (fact_named row.now)) }
{
    let _ = pool.len();
    match ids_of(alloc, pool, row.names.as_slice())? {
        Some(ids) => Ok(table.has_at(row.relation, &ids, t)),
        None => Ok(false),
    }
}

// The numbers of constants, where the pool has each term as one.
fn ids_of<'a>(
    alloc: Global,
    pool: &Pool,
    names: &[Name<'a>],
) -> Result<Option<Items<ConstId>>, Memory>
    ensures found { IfOk result (λ found. IfSome found (λ ids. NameThem pool.now ids names.now)) }
    ensures none { IfOk result (λ found. IfNone found
        ((ids : List Id) → ¬ (NameThem pool.now ids names.now))) }
{
    let mut ids = Items::new(alloc);
    for name in names {
        let Some(id) = id_of(pool, *name) else {
            return Ok(None);
        };
        ids.push(id)?;
    }
    Ok(Some(ids))
}

// The number of a constant that the pool has.
fn id_of(pool: &Pool, name: Name<'_>) -> Option<ConstId>
    ensures found { IfSome result (λ id. (id.0 < length pool.now)
        × (constant (pool_text pool.now id) ≡ term_named name.entry)) }
    ensures none { IfNone result ((id : Id) → id.0 < length pool.now
        → constant (pool_text pool.now id) ≢ term_named name.entry) }
{
    match name {
        Name::Text(text) => pool.id_of(text),
        Name::Number(_) => None,
    }
}
