//! A step of settling: the two sides of an egd are made equal over the common time of a match.

ghost use Rattle.std.specs.Prelude.{◌≡◌, ◌↔◌, ◌<◌, ◌^◌, [], List, Option, Some, Contains, All, IsTrue, IfOk, IfSome, IfNone, length, map, slice_get};
ghost use Rattle.rule_core.specs.declared.rules.Arg.TheVariants.{Var};
ghost use Rattle.rule_core.specs.declared.rules.Relation.{Relation};
ghost use Rattle.rule_core.specs.Validity.{IsEgd};
ghost use Rattle.rule_core.specs.Values.{term_value};
ghost use Rattle.failure_trace.specs.Equating.{bound_to};
ghost use Rattle.failure_trace.specs.JournalRun.{step_terms};
ghost use Rattle.body_match.specs.Matches.{IsMatch};
ghost use Rattle.fact_table.specs.Rows.{SeenRow};
ghost use Rattle.null_store.specs.Store.{Store, term_in};
ghost use Rattle.egd_chase.specs.Sides.{HoldsSide, IsConstantIn, IsHeld, match_terms};

use crate::search::Unequal;
use crate::sides::Side;
use body_match::Match;
use failure_trace::JournalStep;
use null_store::NullStore;
use rule_core::{Arg, Atom, Egd};
use std::alloc::Global;
use term_core::{Items, Memory, Seen, Term};

/// The step of a match, without cuts.
pub fn step_of(
    alloc: Global,
    store: &NullStore,
    egd: &Egd,
    unequal: &Unequal,
) -> Result<JournalStep, Memory>
    requires egd { (relations : List Relation) × IsEgd relations egd.now }
    requires matches { IsMatch egd.now.body (length egd.now.vars) store.now.rows unequal.now.found }
    requires place { unequal.now.egd < 2 ^ 32 }
    ensures egd { IfOk result (λ step. step.egd ≡ unequal.now.egd) }
    ensures terms { IfOk result
        (λ step. step_terms step ≡ match_terms store.now unequal.now.found) }
    ensures span { IfOk result (λ step. step.span ≡ unequal.now.found.span) }
    ensures cuts { IfOk result (λ step. step.cuts ≡ []) }
{
    store.is_kept();
    let binding = terms_of(alloc, store, unequal.found.binding.as_slice())?;
    Ok(JournalStep {
        egd: unequal.egd as u32,
        binding,
        span: unequal.found.span,
        cuts: Items::new(alloc),
    })
}

// The terms of values.
fn terms_of(alloc: Global, store: &NullStore, values: &[Seen]) -> Result<Items<Term>, Memory>
    requires { All (IsHeld store.now) values.now }
    ensures { IfOk result (λ terms. map term_value terms ≡ map (term_in store.now) values.now) }
{
    let mut terms = Items::new(alloc);
    terms.room(values.len())?;
    for value in values {
        terms.push(term_of(store, *value)?)?;
    }
    Ok(terms)
}

// The term of a value.
fn term_of(store: &NullStore, value: Seen) -> Result<Term, Memory>
    requires { IsHeld store.now value }
    ensures { IfOk result (λ term. term_value term ≡ term_in store.now value) }
{
    match value {
        Seen::Const(constant) => Ok(Term::Const(constant)),
        Seen::Piece(piece) => Ok(Term::Null(store.unknown_of(piece)?)),
    }
}

/// Whether both sides of an egd are constants in a match.
pub fn are_constants(egd: &Egd, found: &Match) -> bool
    ensures { IsTrue result
        ↔ (IsConstantIn found.now egd.now.left × IsConstantIn found.now egd.now.right) }
{
    is_constant(found, egd.left) && is_constant(found, egd.right)
}

// Whether a match gives the variable a constant.
fn is_constant(found: &Match, variable: u32) -> bool
    ensures { IsTrue result ↔ IsConstantIn found.now variable }
{
    match found.binding.get(variable as usize) {
        Some(Seen::Const(_)) => true,
        _ => false,
    }
}

/// A cell that holds the value of a variable in a match.
pub fn side_of(egd: &Egd, found: &Match, variable: u32) -> Side
    requires egd { (relations : List Relation) × IsEgd relations egd.now }
    requires variable { variable < length egd.now.vars }
    requires matches { (rows : List (Option SeenRow))
        × IsMatch egd.now.body (length egd.now.vars) rows found.now }
    ensures { (store : Store) → IsMatch egd.now.body (length egd.now.vars) store.rows found.now
        → HoldsSide store (bound_to (match_terms store found.now) variable) found.now.span
        result }
{
    for (at, atom) in egd.body.as_slice().iter().enumerate() {
        if let Some(column) = column_of(atom, variable) {
            return Side {
                row: found.rows.as_slice()[at],
                column,
            };
        }
    }
    unreachable!()
}

// A column in which the variable is an argument of the atom, if there is one.
fn column_of(atom: &Atom, variable: u32) -> Option<usize>
    ensures some { IfSome result
        (λ column. slice_get atom.now.args column ≡ Some (Var variable)) }
    ensures none { IfNone result (¬ (Contains atom.now.args (Var variable))) }
{
    let args = atom.args.as_slice();
    args.iter().position(|arg| *arg == Arg::Var(variable))
}
