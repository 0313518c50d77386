//! The tests of a binding that ask nothing of facts.

ghost use Rattle.std.specs.Prelude.{◌≡◌, ◌≢◌, ◌↔◌, ◌≤◌, ◌++◌, ◌<◌, IfOk, IsTrue, All, MatchOption, None, Some, length, drop, ℕ};
ghost use Rattle.std.specs.Bool.{OnFalse};
ghost use Rattle.failure_trace.specs.Equating.{AreClashing, replacement_of, bound_to};
ghost use Rattle.failure_trace.specs.Trace.{IsUnknown, names_in, numbers_in, numbers_of, terms_in};
ghost use Rattle.failure_trace.specs.TraceRun.{FitsTgd, AreNew, text_cmp};
ghost use Rattle.trace_checker.specs.Names.{term_named};
ghost use Rattle.trace_checker.specs.declared.name.Name.TheVariants as names;
ghost use Rattle.trace_checker.specs.States.{replacement};

use crate::name::Name;
use failure_trace::{Bound, Value};
use indexmap::IndexSet;
use rule_core::Tgd;
use term_core::{Memory, Text};

/// Whether the names are the variables in their order.
pub fn has_names(binding: &[Bound], vars: &[Text]) -> bool
    ensures { IsTrue result ↔ (names_in binding.now ≡ vars.now) }
{
    if binding.len() != vars.len() {
        return false;
    }
    for at in 0..binding.len() {
        if !has_name(&binding[at], &vars[at]) {
            return false;
        }
    }
    true
}

// Whether the name is the variable.
fn has_name(bound: &Bound, var: &Text) -> bool
    ensures { IsTrue result ↔ (bound.now.name ≡ var.now) }
{
    bound.name == *var
}

/// Whether the names are the tgd's variables in their order, with unknowns for its `exists` variables.
pub fn fits_tgd(tgd: &Tgd, binding: &[Bound]) -> bool
    requires { tgd.now.body_vars ≤ length tgd.now.vars }
    ensures { IsTrue result ↔ FitsTgd tgd.now binding.now }
{
    has_names(binding, tgd.vars.as_slice()) && are_unknown(&binding[tgd.body_vars as usize..])
}

// Whether each value is an unknown.
fn are_unknown(binding: &[Bound]) -> bool
    ensures { IsTrue result ↔ All (λ b. IsUnknown b.value) binding.now }
{
    binding.iter().all(|bound| is_unknown(&bound.value))
}

// Whether the value is an unknown.
fn is_unknown(value: &Value) -> bool
    ensures { IsTrue result ↔ IsUnknown value.now }
{
    match value {
        Value::Const(_) => false,
        Value::Null(_) => true,
    }
}

/// What the tgd's `exists` variables are bound to.
pub fn exists_values<'a>(tgd: &Tgd, binding: &'a [Bound]) -> &'a [Bound]
    requires { tgd.now.body_vars ≤ length binding.now }
    ensures { result.now ≡ drop tgd.now.body_vars binding.now }
{
    &binding[tgd.body_vars as usize..]
}

/// Adds the numbers of unknowns to those that are used, and says whether they differ and none was used. Where one was,
/// some may have been added.
pub fn take_numbers(used: &mut IndexSet<u64>, binding: &[Bound]) -> Result<bool, Memory>
    ensures new { IfOk result (λ yes. IsTrue yes → AreNew used.old.keys (numbers_in binding.now)) }
    ensures taken { IfOk result (λ yes. IsTrue yes
        → used.new.keys ≡ used.old.keys ++ numbers_in binding.now) }
    ensures used { IfOk result (λ yes. OnFalse yes (¬ (AreNew used.old.keys (numbers_in binding.now)))) }
{
    for bound in binding {
        let new = take_number(used, &bound.value)?;
        if !new {
            return Ok(false);
        }
    }
    Ok(true)
}

// Adds the number of a value to those that are used, where it is an unknown, and says whether it was new.
fn take_number(used: &mut IndexSet<u64>, value: &Value) -> Result<bool, Memory>
    ensures new { IfOk result (λ yes. IsTrue yes → AreNew used.old.keys (numbers_of value.now)) }
    ensures taken { IfOk result (λ yes. IsTrue yes
        → used.new.keys ≡ used.old.keys ++ numbers_of value.now) }
    ensures used { IfOk result (λ yes. OnFalse yes (¬ (AreNew used.old.keys (numbers_of value.now)))) }
{
    match value {
        Value::Const(_) => Ok(true),
        Value::Null(number) => Ok(used.insert(*number)?),
    }
}

/// An unknown that is to be replaced, and the term that it becomes.
#[derive(Clone, Copy)]
pub struct Replaced<'a> {
    /// The number of the unknown.
    pub gone: u64,
    /// What it becomes.
    pub by: Name<'a>,
}

/// What is replaced to make two terms equal: an unknown beside a constant, else the greater of two unknowns.
pub fn replacement_for<'a>(left: Name<'a>, right: Name<'a>) -> Option<Replaced<'a>>
    ensures { MatchOption result
        (replacement_of text_cmp (term_named left.entry) (term_named right.entry) ≡ None)
        (λ r. replacement_of text_cmp (term_named left.entry) (term_named right.entry)
        ≡ Some (replacement r.gone r.by)) }
{
    match (left, right) {
        (Name::Text(_), Name::Text(_)) => None,
        (Name::Text(_), Name::Number(gone)) => Some(Replaced { gone, by: left }),
        (Name::Number(gone), Name::Text(_)) => Some(Replaced { gone, by: right }),
        (Name::Number(first), Name::Number(second)) => greater(first, second),
    }
}

// The greater of two unknowns is replaced by the lesser, where they differ.
fn greater<'a>(first: u64, second: u64) -> Option<Replaced<'a>>
    ensures { MatchOption result
        (replacement_of text_cmp (term_named (names.Number first)) (term_named (names.Number second)) ≡ None)
        (λ r. replacement_of text_cmp (term_named (names.Number first)) (term_named (names.Number second))
        ≡ Some (replacement r.gone r.by)) }
{
    if first < second {
        Some(Replaced {
            gone: second,
            by: Name::Number(first),
        })
    } else if second < first {
        Some(Replaced {
            gone: first,
            by: Name::Number(second),
        })
    } else {
        None
    }
}

/// Whether the two terms are different constants.
pub fn are_clashing(left: Name<'_>, right: Name<'_>) -> bool
    ensures { IsTrue result ↔ AreClashing (term_named left.entry) (term_named right.entry) }
{
    match (left, right) {
        (Name::Text(first), Name::Text(second)) => first != second,
        _ => false,
    }
}

/// What the variable with the number is bound to.
pub fn side<'a>(binding: &'a [Bound], variable: u32) -> Name<'a>
    requires { variable < length binding.now }
    ensures { term_named result ≡ bound_to (terms_in binding.now) variable }
{
    Name::of(&binding[variable as usize].value)
}
