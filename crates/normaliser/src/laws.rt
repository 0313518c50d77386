//! What cutting by groups keeps, and what it gives to the rules.
ghost use Rattle.std.specs.Prelude.{◌≡◌, List};
ghost use Rattle.rule_core.specs.Mapping.{RuleSet};
ghost use Rattle.fact_table.specs.declared.fact.Fact.{Fact};
ghost use Rattle.normaliser.specs.Normalised.{HaveSameSnapshots, IsEqualOrDisjoint, IsNormalised};

/// The normalised table holds at every instant what the table holds that it is made from, and in each match of a rule's body its
/// spans are all equal or have no instant in common: so a rule that matches at an instant matches over a whole span.
pub fn normalised_tables_keep_what_holds()
    ensures same { (rules : RuleSet) (table pieces : List Fact) → IsNormalised rules table pieces
        → HaveSameSnapshots table pieces }
    ensures apart { (rules : RuleSet) (table pieces : List Fact) → IsNormalised rules table pieces
        → IsEqualOrDisjoint rules pieces }
    ensures one { (rules : RuleSet) (table a b : List Fact) → IsNormalised rules table a → IsNormalised rules table b
        → a ≡ b }
{}
