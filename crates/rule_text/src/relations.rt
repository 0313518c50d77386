//! The relation of an atom, by its name.

ghost use Rattle.std.specs.Prelude.{◌≡◌, ℕ, Some, List, length, slice_get, IfOk, IfErr};
ghost use Rattle.rule_core.specs.Adding.{relations_of, IsNamedAt};
ghost use Rattle.rule_core.specs.declared.rules.Relation.{Relation as RelationValue};
ghost use Rattle.rule_text.specs.Frames.{IsFound, IsMissing};

use decl_text::Code;
use rule_core::{Place, Rules};
use term_core::Text;

/// A relation of a side: its number there, and how many columns it has.
#[derive(Clone, Copy)]
pub(crate) struct Found {
    /// Its number.
    pub(crate) number: u32,
    /// How many columns it has.
    pub(crate) width: usize,
}

/// The relation with the name on this side, or why it may not stand in an atom.
pub(crate) fn find_relation(rules: &Rules, side: Place, name: &Text) -> Result<Found, Code>
    ensures found { IfOk result (λ found. IsFound rules.now side name.now found.number found.width) }
    ensures missing { IfErr result (IsMissing rules.now side name.now) }
{
    rules.is_kept();
    let Some((place, number)) = rules.find(name.as_str()) else {
        return Err(Code::U1);
    };
    if place != side {
        return Err(Code::U3);
    }
    let width = width_of(rules, side, number);
    Ok(Found { number, width })
}

// How many columns the relation with this number has.
fn width_of(rules: &Rules, side: Place, number: u32) -> usize
    requires { (name : List ℕ) × IsNamedAt rules.now name side number }
    ensures { (relation : RelationValue) → slice_get (relations_of rules.now side) number ≡ Some relation
        → result ≡ length relation.columns }
{
    let relations = match side {
        Place::Source => rules.sources(),
        Place::Target => rules.targets(),
    };
    match relations.get(number as usize) {
        Some(relation) => relation.columns.len(),
        None => unreachable!(),
    }
}
