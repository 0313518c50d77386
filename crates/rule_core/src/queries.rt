//! Tests on queries.

ghost use Rattle.std.specs.Prelude.{◌≡◌, ◌≢◌, ◌↔◌, ℕ, ◌<◌, Some, All, IsTrue, length, slice_get, slice_index_or};
ghost use Rattle.rule_core.specs.Adding.{IsNewQuery};
ghost use Rattle.rule_core.specs.Validity.{IsBranch, IsQuery};

use crate::atoms::{are_atoms, are_numbered, are_variables};
use crate::limits::{MOST_DISJUNCTS, MOST_HEAD_VARIABLES, MOST_QUERIES};
use crate::names::{are_distinct, are_names, is_name};
use crate::{Branch, Query, Relation, Rules};
use term_core::Text;

/// Whether a query may be added to these queries.
pub fn is_new_query(rules: &Rules, query: &Query) -> bool
    ensures { IsTrue result ↔ IsNewQuery rules.now query.now }
{
    rules.queries().len() < MOST_QUERIES
        && is_query(rules.targets().as_slice(), query)
        && rules.is_new_query_name(&query.name)
}

// Whether a query meets all tests but those on room and on the newness of its name.
fn is_query(targets: &[Relation], query: &Query) -> bool
    ensures { IsTrue result ↔ IsQuery targets.now query.now }
{
    let head = query.head.as_slice();
    let branches = query.branches.as_slice();
    is_name(&query.name)
        && are_names(head)
        && head.len() <= MOST_HEAD_VARIABLES
        && are_distinct(head)
        && 1 <= branches.len()
        && branches.len() <= MOST_DISJUNCTS
        && branches
            .iter()
            .all(|branch| is_branch(targets, head, branch))
}

// Whether a disjunct may stand in a query with this head.
fn is_branch(targets: &[Relation], head: &[Text], branch: &Branch) -> bool
    ensures { IsTrue result ↔ IsBranch targets.now head.now branch.now }
{
    let vars = branch.vars.as_slice();
    are_variables(vars)
        && are_atoms(targets, branch.body.as_slice())
        && are_numbered(branch.body.as_slice(), vars.len() as u32)
        && branch.columns.len() == head.len()
        && are_columns(vars, head, branch.columns.as_slice())
}

// Whether the columns are the variables of the same names as the head's.
fn are_columns(vars: &[Text], head: &[Text], columns: &[u32]) -> bool
    requires { length columns.now ≡ length head.now }
    ensures { IsTrue result ↔ ((k : ℕ) → k < length head.now
        → slice_get vars.now (slice_index_or columns.now k 0) ≡ slice_get head.now k) }
{
    for (k, name) in head.iter().enumerate() {
        if !is_variable(vars, columns[k], name) {
            return false;
        }
    }
    true
}

// Whether the variable has the name.
fn is_variable(vars: &[Text], variable: u32, name: &Text) -> bool
    ensures { IsTrue result ↔ (slice_get vars.now variable ≡ Some name.now) }
{
    match vars.get(variable as usize) {
        Some(found) => found == name,
        None => false,
    }
}

/// Whether no query has the name.
pub fn is_new_query_name(queries: &[Query], name: &Text) -> bool
    ensures { IsTrue result ↔ All (λ q. q.name ≢ name.now) queries.now }
{
    queries.iter().all(|query| query.name != *name)
}
