//! Tests on relations.

ghost use Rattle.std.specs.Prelude.{◌≡◌, ◌≢◌, ◌↔◌, All, IsTrue, IsSomeAnd, IfSome, IfNone, slice_get};
ghost use Rattle.rule_core.specs.Validity.{IsRelation};
ghost use Rattle.rule_core.specs.Adding.{IsNewRelation};

use crate::limits::{MOST_COLUMNS, MOST_RELATIONS};
use crate::names::{are_distinct, are_names, is_name};
use crate::{Relation, Rules};
use term_core::Text;

/// Whether a relation has a name, and some columns with names of their own.
pub fn is_relation(relation: &Relation) -> bool
    ensures { IsTrue result ↔ IsRelation relation.now }
{
    let columns = relation.columns.as_slice();
    is_name(&relation.name)
        && 1 <= columns.len()
        && columns.len() <= MOST_COLUMNS
        && are_names(columns)
        && are_distinct(columns)
}

/// Whether a relation may be added to these.
pub fn is_new_relation(rules: &Rules, relation: &Relation) -> bool
    ensures { IsTrue result ↔ IsNewRelation rules.now relation.now }
{
    rules.is_kept();
    rules.sources().len() + rules.targets().len() < MOST_RELATIONS
        && is_relation(relation)
        && rules.is_new_relation_name(&relation.name)
}

/// Whether no relation has the name.
pub fn is_new_name(relations: &[Relation], name: &Text) -> bool
    ensures { IsTrue result ↔ All (λ r. r.name ≢ name.now) relations.now }
{
    relations.iter().all(|relation| relation.name != *name)
}

/// The first place of a relation with the name.
pub fn place_of(relations: &[Relation], name: &str) -> Option<usize>
    ensures found { IfSome result
        (λ place. IsSomeAnd (slice_get relations.now place) (λ r. r.name ≡ name.now)) }
    ensures none { IfNone result (All (λ r. r.name ≢ name.now) relations.now) }
{
    for (place, relation) in relations.iter().enumerate() {
        if has_name(relation, name) {
            return Some(place);
        }
    }
    None
}

fn has_name(relation: &Relation, name: &str) -> bool
    ensures { IsTrue result ↔ (relation.now.name ≡ name.now) }
{
    relation.name.as_str() == name
}
