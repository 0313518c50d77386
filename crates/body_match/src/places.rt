//! Where the variables of a body occur first.

ghost use Rattle.std.specs.Prelude.{◌≡◌, ◌<◌, ℕ, Some, Contains, slice_get, IfSome, IfNone, IfOk};
ghost use Rattle.rule_core.specs.Validity.{occurrences};
ghost use Rattle.rule_core.specs.declared.rules.Arg.TheVariants.{Var};
ghost use Rattle.body_match.specs.Places.{IsFirstPlace, AreFirstPlaces};

use rule_core::{Arg, Atom};
use std::alloc::Global;
use term_core::Memory;

/// An atom of a body by its place, and one of its columns.
#[derive(Clone, Copy, Debug)]
pub struct Place {
    pub atom: usize,
    pub column: usize,
}

/// For each variable a place in the first atom that has it.
pub fn first_places(alloc: Global, body: &[Atom], vars: u32) -> Result<Vec<Place>, Memory>
    requires { (v : ℕ) → v < vars → Contains (occurrences body.now) v }
    ensures { IfOk result (λ places. AreFirstPlaces body.now vars places.items) }
{
    let mut places = Vec::new(alloc);
    for variable in 0..vars {
        places.push(first_place(body, variable))?;
    }
    Ok(places)
}

// A place in the first atom that has the variable.
fn first_place(body: &[Atom], variable: u32) -> Place
    requires { Contains (occurrences body.now) variable }
    ensures { IsFirstPlace body.now variable result }
{
    for (atom, of) in body.iter().enumerate() {
        if let Some(column) = column_of(of, variable) {
            return Place { atom, column };
        }
    }
    Place { atom: 0, column: 0 }
}

// A column in which the variable is an argument of the atom, if there is one.
fn column_of(atom: &Atom, variable: u32) -> Option<usize>
    ensures some { IfSome result
        (λ column. slice_get atom.now.args column ≡ Some (Var variable)) }
    ensures none { IfNone result (¬ (Contains atom.now.args (Var variable))) }
{
    let args = atom.args.as_slice();
    args.iter().position(|arg| *arg == Arg::Var(variable))
}
