//! Where a body looks: at its constants, at two of its variables, and at those that stand in more than one cell. Rows that have the
//! same cells there are alike.

ghost use Rattle.std.specs.Prelude.{◌≡◌, ◌↔◌, ◌<◌, ℕ, Some, Contains, IsTrue, IfOk, length, slice_get};
ghost use Rattle.std.specs.Bool.{OnFalse};
ghost use Rattle.rule_core.specs.Validity.{occurrences};
ghost use Rattle.rule_core.specs.declared.rules.Arg.TheVariants.{Var};
ghost use Rattle.rule_core.specs.declared.rules.Atom.{Atom};
ghost use Rattle.fact_table.specs.Rows.{HasCell, cell_at};
ghost use Rattle.body_match.specs.Equality.{Recurs};
ghost use Rattle.body_match.specs.Choice.{AreAlikeUnder, AreLooked, IsLooked, StandsOnlyAt};

use crate::levels::{has_form, mix};
use crate::places::{Place, first_places};
use fact_table::{FactSource, RowHead};
use rule_core::{Arg, Atom};
use std::alloc::Global;
use std::sync::ledger::Ledger;
use term_core::{Memory, Steps};

/// For each variable of a body, whether it is looked at: it is one of the two, or stands in more than one cell.
pub fn looked_of(
    alloc: Global,
    body: &[Atom],
    vars: u32,
    left: u32,
    right: u32,
) -> Result<Vec<bool>, Memory>
    requires { (v : ℕ) → v < vars → Contains (occurrences body.now) v }
    ensures { IfOk result (λ looked. AreLooked body.now left right looked.items) }
{
    let places = first_places(alloc, body, vars)?;
    let mut looked = Vec::new(alloc);
    for variable in 0..vars {
        looked.push(is_told_apart(body, places.as_slice(), variable, left, right))?;
    }
    Ok(looked)
}

// Whether a variable is one of the two, or may stand in more than one cell.
fn is_told_apart(body: &[Atom], places: &[Place], variable: u32, left: u32, right: u32) -> bool
    ensures { OnFalse result ((variable ≡ left → ⊥) × (variable ≡ right → ⊥) × ¬ (Recurs body.now variable)) }
{
    if variable == left || variable == right {
        return true;
    }
    match places.get(variable as usize) {
        Some(place) => stands_elsewhere(body, variable, place),
        None => true,
    }
}

// Whether a variable stands anywhere but at a place.
fn stands_elsewhere(body: &[Atom], variable: u32, place: &Place) -> bool
    ensures { OnFalse result (StandsOnlyAt body.now variable place.now.atom place.now.column) }
{
    for (at, atom) in body.iter().enumerate() {
        let except = (at == place.atom).then_some(place.column);
        if stands_but(atom, variable, except) {
            return true;
        }
    }
    false
}

// Whether a variable stands in a column of an atom but one.
fn stands_but(atom: &Atom, variable: u32, except: Option<usize>) -> bool
    ensures { OnFalse result ((column : ℕ) → slice_get atom.now.args column ≡ Some (Var variable) → except ≡ Some column) }
{
    for (column, arg) in atom.args.as_slice().iter().enumerate() {
        if *arg == Arg::Var(variable) && except != Some(column) {
            return true;
        }
    }
    false
}

// Whether it is looked at what an argument stands for.
fn is_looked(looked: &[bool], arg: Arg) -> bool
    ensures { IsLooked looked.now arg → IsTrue result }
{
    match arg {
        Arg::Const(_) => true,
        Arg::Var(variable) => looked.get(variable as usize) != Some(&false),
    }
}

/// Whether a row with this head fits an atom of the body.
pub fn fits_some(body: &[Atom], head: &RowHead) -> bool
    ensures { OnFalse result ((atom : Atom) → Contains body.now atom
        → ¬ ((head.now.relation ≡ atom.relation) × (head.now.arity ≡ length atom.args))) }
{
    body.iter().any(|atom| has_form(head, atom))
}

/// A number for what a row has where the body looks.
pub fn looked_key<F: FactSource, L: Ledger>(
    body: &[Atom],
    looked: &[bool],
    source: &F,
    head: &RowHead,
    row: usize,
    steps: &mut Steps<L>,
) -> u64
    requires { (column : ℕ) → column < head.now.arity → HasCell (F.rows source.now) row column }
{
    let mut key = u64::from(head.relation);
    for atom in body {
        if has_form(head, atom) {
            key = key_under(atom, looked, source, row, key, steps);
        }
    }
    key
}

// A key, and what a row has where an atom looks mixed into it. Its upper half goes into the lower one, since a cell may come twice,
// and what tells a piece from a constant would cancel.
fn key_under<F: FactSource, L: Ledger>(
    atom: &Atom,
    looked: &[bool],
    source: &F,
    row: usize,
    key: u64,
    steps: &mut Steps<L>,
) -> u64
    requires { (column : ℕ) → column < length atom.now.args → HasCell (F.rows source.now) row column }
{
    let mut key = key;
    for (column, arg) in atom.args.as_slice().iter().enumerate() {
        if is_looked(looked, *arg) {
            key = mix(key ^ (key >> 32), source.cell(row, column, steps));
        }
    }
    key
}

/// Whether two rows with this relation and so many cells have the same cells wherever the body looks.
pub fn are_alike<F: FactSource, L: Ledger>(
    body: &[Atom],
    looked: &[bool],
    source: &F,
    head: &RowHead,
    row: usize,
    other: usize,
    steps: &mut Steps<L>,
) -> bool
    requires row { (column : ℕ) → column < head.now.arity → HasCell (F.rows source.now) row column }
    requires other { (column : ℕ) → column < head.now.arity → HasCell (F.rows source.now) other column }
    ensures { IsTrue result → (atom : Atom) → Contains body.now atom → head.now.relation ≡ atom.relation
        → head.now.arity ≡ length atom.args → AreAlikeUnder looked.now (F.rows source.now) row other atom }
{
    for atom in body {
        if !are_alike_under(atom, looked, source, head, row, other, steps) {
            return false;
        }
    }
    true
}

// Whether two rows with this relation and so many cells have the same cells where an atom looks, if it is one of theirs.
fn are_alike_under<F: FactSource, L: Ledger>(
    atom: &Atom,
    looked: &[bool],
    source: &F,
    head: &RowHead,
    row: usize,
    other: usize,
    steps: &mut Steps<L>,
) -> bool
    requires row { (column : ℕ) → column < head.now.arity → HasCell (F.rows source.now) row column }
    requires other { (column : ℕ) → column < head.now.arity → HasCell (F.rows source.now) other column }
    ensures { IsTrue result → head.now.relation ≡ atom.now.relation → head.now.arity ≡ length atom.now.args
        → AreAlikeUnder looked.now (F.rows source.now) row other atom.now }
{
    if !has_form(head, atom) {
        return true;
    }
    for (column, arg) in atom.args.as_slice().iter().enumerate() {
        if !agree_in(looked, *arg, source, row, other, column, steps) {
            return false;
        }
    }
    true
}

// Whether two rows have the same cell in a column, or it is not looked at what the argument there stands for.
fn agree_in<F: FactSource, L: Ledger>(
    looked: &[bool],
    arg: Arg,
    source: &F,
    row: usize,
    other: usize,
    column: usize,
    steps: &mut Steps<L>,
) -> bool
    requires row { HasCell (F.rows source.now) row column }
    requires other { HasCell (F.rows source.now) other column }
    ensures { IsTrue result → IsLooked looked.now arg
        → cell_at (F.rows source.now) other column ≡ cell_at (F.rows source.now) row column }
{
    if !is_looked(looked, arg) {
        return true;
    }
    source.cell(other, column, steps) == source.cell(row, column, steps)
}
