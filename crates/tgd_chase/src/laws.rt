//! What firing facts settle.

ghost use Rattle.std.specs.Prelude.{◌↔◌, ℕ, List, All};
ghost use Rattle.term_core.specs.declared.const_id.ConstId.{ConstId};
ghost use Rattle.rule_core.specs.Terms.{FactOf};
ghost use Rattle.rule_core.specs.Mapping.{RuleSet};
ghost use Rattle.rule_core.specs.Validity.{IsValid};
ghost use Rattle.rule_core.specs.Homomorphism.{Homomorphism};
ghost use Rattle.rule_core.specs.Solution.{EgdHolds, IsSolution};
ghost use Rattle.rule_core.specs.Firing.{IsFiringFact};
ghost use Rattle.tgd_chase.specs.Fired.{IsGround};

/// An instance is a solution exactly when every egd holds in it and the firing facts have a homomorphism into it.
pub fn solutions_are_what_firing_facts_map_into()
    ensures numbers { (rules : RuleSet) → IsValid rules → (source target : List (FactOf ConstId)) → IsGround source
        → IsSolution (λ c. c) rules source target
        ↔ (All (λ egd. EgdHolds (λ c. c) egd target) rules.egds
        × Homomorphism (IsFiringFact (λ c. c) rules source) target) }
    ensures texts { (name : ConstId → List ℕ) (rules : RuleSet) → IsValid rules
        → (source target : List (FactOf (List ℕ))) → IsGround source
        → IsSolution name rules source target
        ↔ (All (λ egd. EgdHolds name egd target) rules.egds
        × Homomorphism (IsFiringFact name rules source) target) }
{}
