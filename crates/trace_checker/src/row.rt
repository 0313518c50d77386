//! Facts as rows of terms.

ghost use Rattle.std.specs.Prelude.{◌≡◌, IfOk, length};
ghost use Rattle.rule_core.specs.Homomorphism.{term_image};
ghost use Rattle.rule_core.specs.Match.{image};
ghost use Rattle.failure_trace.specs.Equating.{bound_to, becomes, replaced_fact};
ghost use Rattle.failure_trace.specs.Trace.{terms_in};
ghost use Rattle.failure_trace.specs.TraceRun.{text_cmp};
ghost use Rattle.failure_trace.specs.Projected.{pool_text};
ghost use Rattle.trace_checker.specs.Names.{term_named, IsKnown};
ghost use Rattle.trace_checker.specs.States.{fact_named, replacement};

use crate::name::{Name, image_names};
use failure_trace::Bound;
use rule_core::Atom;
use std::alloc::Global;
use term_core::{Memory, Pool};

/// A fact.
#[derive(PartialEq, Eq, Hash, Drop)]
pub struct Row<'a> {
    /// The place of the relation.
    pub relation: u32,
    /// A term for each column.
    pub names: Vec<Name<'a>>,
}

/// The same fact.
pub fn copied_row<'a>(alloc: Global, row: &Row<'a>) -> Result<Row<'a>, Memory>
    ensures { IfOk result (λ copy. fact_named copy ≡ fact_named row.now) }
{
    let before = row.names.as_slice();
    let mut names = Vec::with_capacity(alloc, before.len())?;
    names.extend_from_slice(before)?;
    Ok(Row {
        relation: row.relation,
        names,
    })
}

/// The fact with an unknown replaced.
pub fn replaced_row<'a>(
    alloc: Global,
    row: &Row<'a>,
    gone: u64,
    by: Name<'a>,
) -> Result<Row<'a>, Memory>
    ensures { IfOk result (λ after.
        fact_named after ≡ replaced_fact text_cmp (replacement gone by.entry) (fact_named row.now)) }
{
    let before = row.names.as_slice();
    let mut names = Vec::with_capacity(alloc, before.len())?;
    for name in before {
        names.push(replaced_name(name, gone, by))?;
    }
    Ok(Row {
        relation: row.relation,
        names,
    })
}

// The term with an unknown replaced.
fn replaced_name<'a>(name: &Name<'a>, gone: u64, by: Name<'a>) -> Name<'a>
    ensures { term_named result ≡ term_image (becomes text_cmp (replacement gone by.entry)) (term_named name.now) }
{
    match name {
        Name::Number(number) if *number == gone => by,
        other => *other,
    }
}

/// The fact that an atom becomes under a binding.
pub fn image_row<'a>(
    alloc: Global,
    pool: &'a Pool,
    binding: &'a [Bound],
    atom: &Atom,
) -> Result<Row<'a>, Memory>
    requires { IsKnown pool.now (length binding.now) atom.now }
    ensures { IfOk result (λ row.
        fact_named row ≡ image (pool_text pool.now) (bound_to (terms_in binding.now)) atom.now) }
{
    let names = image_names(alloc, pool, binding, atom)?;
    Ok(Row {
        relation: atom.relation,
        names,
    })
}
