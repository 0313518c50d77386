//! The facts of a state.

ghost use Rattle.std.specs.Prelude.{◌≡◌, ◌↔◌, ◌++◌, [], ℕ, List, IfOk, IsTrue, map, Contains, length};
ghost use Rattle.rule_core.specs.Terms.{FactOf};
ghost use Rattle.rule_core.specs.Match.{image};
ghost use Rattle.rule_core.specs.Renaming.{HoldTheSame};
ghost use Rattle.failure_trace.specs.Equating.{bound_to, replaced_fact};
ghost use Rattle.failure_trace.specs.Trace.{terms_in};
ghost use Rattle.failure_trace.specs.TraceRun.{text_cmp};
ghost use Rattle.failure_trace.specs.Projected.{pool_text};
ghost use Rattle.trace_checker.specs.Names.{AreKnown};
ghost use Rattle.trace_checker.specs.States.{fact_named, replacement, HoldsAlso};
ghost use Rattle.trace_checker.specs.Numbered.{AreOwn, HaveInner, Replaces};
ghost use Rattle.trace_checker.specs.declared.name.Name.TheVariants.{Text, Number};

use crate::name::Name;
use crate::numbers::Numbers;
use crate::row::{Row, image_row};
use crate::rows::Rows;
use failure_trace::Bound;
use rule_core::Atom;
use std::alloc::Global;
use std::marker::Model;
use term_core::{Memory, Pool};

/// Facts, each once. Their rows have inner numbers for the unknowns of a trace.
#[derive(Drop)]
pub struct Facts<'a> {
    rows: Rows<'a>,
    numbers: Numbers,
}

impl<'a> Model for Facts<'a> {
    ghost use Rattle.std.specs.Prelude.{List, ℕ, map};
    ghost use Rattle.rule_core.specs.Terms.{FactOf};
    ghost use Rattle.trace_checker.specs.Numbered.{outward, renumbered, AreOwn, HaveInner};

    ghost Value = { List (FactOf (List ℕ)) };

    ghost view = { λ f. map (renumbered (outward f.numbers)) f.rows };

    ghost invariant = { λ f. AreOwn f.numbers × HaveInner f.numbers f.rows };
}

impl<'a> Facts<'a> {
    /// No fact.
    pub fn new(alloc: Global) -> Facts<'a>
        ensures { result ≡ [] }
    {
        Facts {
            rows: Rows::new(alloc),
            numbers: Numbers::new(alloc),
        }
    }

    /// Whether the fact is there.
    pub fn has(&self, alloc: Global, row: &Row<'a>) -> Result<bool, Memory>
        ensures { IfOk result (λ yes. IsTrue yes ↔ Contains self.now (fact_named row.now)) }
    {
        let inner = self.numbers.inner_row(alloc, row)?;
        Ok(self.rows.has(&inner))
    }

    /// The facts and one more, where it is not there yet.
    pub fn with(self, alloc: Global, row: Row<'a>) -> Result<Facts<'a>, Memory>
        ensures { IfOk result (HoldsAlso self.entry (fact_named row.entry)) }
    {
        let Facts { rows, mut numbers } = self;
        numbers.take_in(&row)?;
        let inner = numbers.inner_row(alloc, &row)?;
        let rows = rows.with(alloc, inner)?;
        Ok(Facts { rows, numbers })
    }

    /// The facts with an unknown replaced. It looks at those that are listed under the unknown, or under the one that
    /// it becomes, and at no other.
    pub fn replaced(self, alloc: Global, gone: u64, by: Name<'a>) -> Result<Facts<'a>, Memory>
        ensures { IfOk result (λ facts.
            HoldTheSame facts (map (replaced_fact text_cmp (replacement gone by.entry)) self.entry)) }
    {
        let Facts { rows, mut numbers } = self;
        let rows = replace(alloc, rows, &mut numbers, gone, by)?;
        Ok(Facts { rows, numbers })
    }
}

// Replaces an unknown.
fn replace<'a>(
    alloc: Global,
    rows: Rows<'a>,
    numbers: &mut Numbers,
    gone: u64,
    by: Name<'a>,
) -> Result<Rows<'a>, Memory>
    requires own { AreOwn numbers.old }
    requires inner { HaveInner numbers.old rows }
    ensures { IfOk result (λ after. Replaces (replacement gone by.entry) numbers.old rows.entry numbers.new after) }
{
    match by {
        Name::Text(text) => by_text(alloc, rows, numbers, gone, text),
        Name::Number(kept) => by_number(alloc, rows, numbers, gone, kept),
    }
}

// Replaces an unknown by a constant.
fn by_text<'a>(
    alloc: Global,
    rows: Rows<'a>,
    numbers: &mut Numbers,
    gone: u64,
    text: &'a str,
) -> Result<Rows<'a>, Memory>
    requires own { AreOwn numbers.old }
    requires inner { HaveInner numbers.old rows }
    ensures { IfOk result (λ after. Replaces (replacement gone (Text text.entry)) numbers.old rows.entry numbers.new after) }
{
    let inner = numbers.give(gone)?;
    rows.replaced(alloc, inner, Name::Text(text))
}

// Replaces an unknown by another. The inner number under which fewer facts are listed becomes the other.
fn by_number<'a>(
    alloc: Global,
    rows: Rows<'a>,
    numbers: &mut Numbers,
    gone: u64,
    kept: u64,
) -> Result<Rows<'a>, Memory>
    requires own { AreOwn numbers.old }
    requires inner { HaveInner numbers.old rows }
    ensures { IfOk result (λ after. Replaces (replacement gone (Number kept)) numbers.old rows.entry numbers.new after) }
{
    let gone_inner = numbers.give(gone)?;
    let kept_inner = numbers.give(kept)?;
    if gone == kept || rows.listed(gone_inner) <= rows.listed(kept_inner) {
        return rows.replaced(alloc, gone_inner, Name::Number(kept_inner));
    }
    let after = rows.replaced(alloc, kept_inner, Name::Number(gone_inner))?;
    numbers.rename(gone, kept, gone_inner)?;
    Ok(after)
}

/// The facts with the images of atoms under a binding.
pub fn with_images<'a>(
    alloc: Global,
    pool: &'a Pool,
    binding: &'a [Bound],
    atoms: &[Atom],
    facts: Facts<'a>,
) -> Result<Facts<'a>, Memory>
    requires { AreKnown pool.now (length binding.now) atoms.now }
    ensures { IfOk result (λ after. HoldTheSame after
        (facts.entry ++ map (image (pool_text pool.now) (bound_to (terms_in binding.now))) atoms.now)) }
{
    let mut after = facts;
    for atom in atoms {
        after = after.with(alloc, image_row(alloc, pool, binding, atom)?)?;
    }
    Ok(after)
}
