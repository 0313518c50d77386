//! What the order of facts gives, and what a table is as facts over terms, at all instants and at one.
ghost use Rattle.std.specs.Prelude.{◌≡◌, ◌↔◌, ℕ, ℤ, List, Contains, map};
ghost use Rattle.std.specs.declared.cmp.Ordering.TheVariants.{Equal};
ghost use Rattle.std.specs.Cmp.{IsTotalOrder};
ghost use Rattle.fact_table.specs.declared.fact.Fact.{Fact};
ghost use Rattle.term_core.specs.declared.const_id.ConstId.{ConstId};
ghost use Rattle.rule_core.specs.Terms.{FactOf};
ghost use Rattle.fact_table.specs.Facts.{HasAt, fact_cmp};
ghost use Rattle.fact_table.specs.Snapshots.{constants_fact, snapshot_of, stamped_facts, with_terms};

use crate::Fact;

/// Facts are compared by relation, then by row, then by span. That is a total order, and tells any two of them apart.
pub fn facts_have_one_order()
    ensures same { (a b : Fact) → ⟦<Fact as Ord>⟧.cmp a b ≡ fact_cmp a b }
    ensures total { IsTotalOrder fact_cmp }
    ensures apart { (a b : Fact) → fact_cmp a b ≡ Equal → a ≡ b }
{}

/// The rows of a table are its facts, in their order: what is said of snapshots of rows is said of its facts.
pub fn rows_of_a_table_are_its_facts()
    ensures { (facts : List Fact) → stamped_facts facts ≡ map with_terms facts }
{}

/// What a table holds at an instant is a fact of constants, and these are the facts of which `FactTable::has_at` answers
/// yes.
pub fn a_snapshot_is_what_the_table_has()
    ensures has { (facts : List Fact) (relation : ℕ) (row : List ConstId) (t : ℤ)
        → HasAt facts relation row t ↔ Contains (snapshot_of facts t) (constants_fact relation row) }
    ensures constants { (facts : List Fact) (t : ℤ) (fact : FactOf ConstId)
        → Contains (snapshot_of facts t) fact
        → (relation : ℕ) × (row : List ConstId) × (fact ≡ constants_fact relation row) }
{}
