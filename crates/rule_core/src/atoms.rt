//! Tests on atoms and their variables.

ghost use Rattle.std.specs.Prelude.{◌↔◌, All, Contains, IsTrue};
ghost use Rattle.rule_core.specs.Frontier.{Occurs};
ghost use Rattle.rule_core.specs.Validity.{AreAtoms, AreNumbered, AreVariables, FitsRelation, IsWithin, occurrences};
ghost use Rattle.rule_core.specs.declared.rules.Arg.TheVariants.{Var};

use crate::limits::{MOST_ATOMS, MOST_VARIABLES};
use crate::names::{are_distinct, are_names};
use crate::{Arg, Atom, Relation};
use term_core::Text;

/// Whether these are some atoms over the relations, and not too many.
pub fn are_atoms(relations: &[Relation], atoms: &[Atom]) -> bool
    ensures { IsTrue result ↔ AreAtoms relations.now atoms.now }
{
    1 <= atoms.len() && atoms.len() <= MOST_ATOMS && atoms.iter().all(|atom| fits(relations, atom))
}

/// Whether these are variables with names of their own, and not too many.
pub fn are_variables(vars: &[Text]) -> bool
    ensures { IsTrue result ↔ AreVariables vars.now }
{
    vars.len() <= MOST_VARIABLES && are_names(vars) && are_distinct(vars)
}

/// Whether the variables of atoms are numbered by first occurrence, and are as many.
pub fn are_numbered(atoms: &[Atom], count: u32) -> bool
    ensures { IsTrue result ↔ AreNumbered count (occurrences atoms.now) }
{
    let mut seen = 0u32;
    for atom in atoms {
        let args = atom.args.as_slice();
        for arg in args {
            if let Arg::Var(v) = *arg {
                if v > seen || v >= count {
                    return false;
                }
                if v == seen {
                    seen += 1;
                }
            }
        }
    }
    seen == count
}

/// Whether every argument of atoms is a constant or one of the first variables.
pub fn are_within(atoms: &[Atom], count: usize) -> bool
    ensures { IsTrue result ↔ All (λ atom. All (IsWithin count) atom.args) atoms.now }
{
    atoms
        .iter()
        .all(|atom| args_within(atom.args.as_slice(), count))
}

/// Whether a variable is among the arguments of atoms.
pub fn occurs(atoms: &[Atom], variable: u32) -> bool
    ensures { IsTrue result ↔ Occurs atoms.now variable }
{
    atoms
        .iter()
        .any(|atom| is_argument(atom.args.as_slice(), variable))
}

fn fits(relations: &[Relation], atom: &Atom) -> bool
    ensures { IsTrue result ↔ FitsRelation relations.now atom.now }
{
    match relations.get(atom.relation as usize) {
        Some(relation) => atom.args.len() == relation.columns.len(),
        None => false,
    }
}

fn args_within(args: &[Arg], count: usize) -> bool
    ensures { IsTrue result ↔ All (IsWithin count) args.now }
{
    args.iter().all(|arg| is_within(*arg, count))
}

fn is_within(arg: Arg, count: usize) -> bool
    ensures { IsTrue result ↔ IsWithin count arg }
{
    match arg {
        Arg::Var(v) => (v as usize) < count,
        Arg::Const(_) => true,
    }
}

fn is_argument(args: &[Arg], variable: u32) -> bool
    ensures { IsTrue result ↔ Contains args.now (Var variable) }
{
    args.contains(&Arg::Var(variable))
}
