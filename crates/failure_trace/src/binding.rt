//! What the variables of a step are bound to, by texts and numbers.

ghost use Rattle.std.specs.Prelude.{◌≡◌, ◌+◌, ◌-◌, ◌++◌, ◌<◌, ◌≤◌, List, [], ◌∷◌, IfOk, OnOk, IsSorted, length, map, All};
ghost use Rattle.std.specs.List.{range_with_len};
ghost use Rattle.term_core.specs.Order.{unknown_cmp};
ghost use Rattle.rule_core.specs.Names.{IsName};
ghost use Rattle.failure_trace.specs.declared.trace.Value.{Value as ValueValue};
ghost use Rattle.failure_trace.specs.declared.trace.Value.TheVariants as values;
ghost use Rattle.failure_trace.specs.Printed.{IsWritableValue};
ghost use Rattle.failure_trace.specs.Projected.{pool_text, told_value, number_among, exists_unknowns, firing_values, AreInPool, IsInPool, FitsBody, BindsFirst};

use crate::numbering::{exists_count, number_of};
use crate::{Bound, Firing, Support, Value};
use rule_core::Tgd;
use std::alloc::Global;
use term_core::{ConstId, Items, Memory, Pool, Term, Text, Unknown};

/// The terms of a journal's step, for the names of its variables.
pub(crate) fn bind_terms(
    alloc: Global,
    pool: &Pool,
    unknowns: &[Unknown],
    names: &[Text],
    terms: &[Term],
) -> Result<Items<Bound>, Memory>
    requires sorted { IsSorted unknown_cmp unknowns.now }
    requires names { All IsName names.now }
    requires size { length terms.now ≡ length names.now }
    requires pool { All (IsInPool pool.now) terms.now }
    ensures { IfOk result (BindsFirst names.now (map (told_value pool.now unknowns.now) terms.now)) }
{
    let mut binding = Items::new(alloc);
    for term in terms {
        let value = value_of(alloc, pool, unknowns, term)?;
        push_bound(alloc, names, value, &mut binding)?;
    }
    Ok(binding)
}

/// The constants of a firing's support and the firing's unknowns, for the names of its tgd's variables.
pub(crate) fn bind_firing(
    alloc: Global,
    pool: &Pool,
    unknowns: &[Unknown],
    tgd: &Tgd,
    firing: &Firing,
    support: &Support,
) -> Result<Items<Bound>, Memory>
    requires sorted { IsSorted unknown_cmp unknowns.now }
    requires names { All IsName tgd.now.vars }
    requires within { tgd.now.body_vars ≤ length tgd.now.vars }
    requires few { length tgd.now.vars ≤ 32 }
    requires fits { FitsBody pool.now tgd.now support.now }
    ensures { IfOk result (BindsFirst tgd.now.vars (firing_values pool.now unknowns.now tgd.now firing.now support.now)) }
{
    let names = tgd.vars.as_slice();
    let mut binding = bind_constants(alloc, pool, names, support.binding.as_slice())?;
    bind_unknowns(alloc, unknowns, tgd, firing, &mut binding)?;
    Ok(binding)
}

// Constants, for the first names.
fn bind_constants(
    alloc: Global,
    pool: &Pool,
    names: &[Text],
    constants: &[ConstId],
) -> Result<Items<Bound>, Memory>
    requires names { All IsName names.now }
    requires size { length constants.now ≤ length names.now }
    requires pool { AreInPool pool.now constants.now }
    ensures { IfOk result (BindsFirst names.now (map (λ c. values.Const (pool_text pool.now c)) constants.now)) }
{
    let mut binding = Items::new(alloc);
    for constant in constants {
        let value = constant_value(alloc, pool, *constant)?;
        push_bound(alloc, names, value, &mut binding)?;
    }
    Ok(binding)
}

// The unknowns of a firing, for the names behind those that are bound.
fn bind_unknowns(
    alloc: Global,
    unknowns: &[Unknown],
    tgd: &Tgd,
    firing: &Firing,
    binding: &mut Items<Bound>,
) -> Result<(), Memory>
    requires sorted { IsSorted unknown_cmp unknowns.now }
    requires names { All IsName tgd.now.vars }
    requires within { tgd.now.body_vars ≤ length tgd.now.vars }
    requires few { length tgd.now.vars ≤ 32 }
    requires size { length binding.old ≡ tgd.now.body_vars }
    ensures { OnOk result ((told : List ValueValue) → BindsFirst tgd.now.vars told binding.old
        → BindsFirst tgd.now.vars (told ++ map (λ u. values.Null (number_among unknowns.now u))
        (exists_unknowns tgd.now firing.now)) binding.new) }
{
    let mut unknown = Unknown {
        rule: firing.rule,
        frontier: firing.frontier.copy(alloc)?,
        var: 0,
    };
    for var in 0..exists_count(tgd) {
        unknown.var = var;
        let value = Value::Null(number_of(unknowns, &unknown));
        push_bound(alloc, tgd.vars.as_slice(), value, binding)?;
    }
    Ok(())
}

// Binds the next name.
fn push_bound(
    alloc: Global,
    names: &[Text],
    value: Value,
    binding: &mut Items<Bound>,
) -> Result<(), Memory>
    requires names { All IsName names.now }
    requires within { length binding.old < length names.now }
    requires value { IsWritableValue value }
    ensures size { OnOk result (length binding.new ≡ length binding.old + 1) }
    ensures bound { OnOk result ((told : List ValueValue) → BindsFirst names.now told binding.old
        → BindsFirst names.now (told ++ value ∷ []) binding.new) }
{
    let name = Text::from_str(alloc, names[binding.len()].as_str())?;
    binding.push(Bound { name, value })?;
    Ok(())
}

// A term by its text or its number.
fn value_of(alloc: Global, pool: &Pool, unknowns: &[Unknown], term: &Term) -> Result<Value, Memory>
    requires sorted { IsSorted unknown_cmp unknowns.now }
    requires pool { IsInPool pool.now term.now }
    ensures told { IfOk result (λ value. value ≡ told_value pool.now unknowns.now term.now) }
    ensures writable { IfOk result IsWritableValue }
{
    match term {
        Term::Const(id) => constant_value(alloc, pool, *id),
        Term::Null(unknown) => Ok(Value::Null(number_of(unknowns, unknown))),
    }
}

// A constant by its text.
fn constant_value(alloc: Global, pool: &Pool, id: ConstId) -> Result<Value, Memory>
    requires { id.0 < length pool.now }
    ensures told { IfOk result (λ value. value ≡ values.Const (pool_text pool.now id)) }
    ensures writable { IfOk result IsWritableValue }
{
    let text = Text::from_str(alloc, pool.text(id))?;
    let _bytes = text.as_bytes();
    Ok(Value::Const(text))
}
