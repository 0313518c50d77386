//! Laws of the definitions: a text is one mapping, or has one first fault, and mappings are read back.

ghost use Rattle.std.specs.Prelude.{◌≡◌, ◌⊎◌, ℕ, ◌<◌, List, length};
ghost use Rattle.decl_text.specs.declared.fault.MappingFault.{MappingFault as FaultValue};
ghost use Rattle.term_core.specs.Pool.{IsPool};
ghost use Rattle.rule_core.specs.Validity.{IsValid};
ghost use Rattle.mapping_core.specs.Canonical.{mapping_text};
ghost use Rattle.mapping_core.specs.Mapping.{Meaning, HasItsConstants};
ghost use Rattle.mapping_core.specs.Reading.{IsMapping, IsFirstFault};

/// A text is one mapping, or it has one first fault, and not both: so what `read_mapping` answers is all that the
/// definitions allow. That one of the two is so is told of texts no longer than `read_mapping` takes.
pub fn a_mapping_is_one()
    ensures one { (bytes : List ℕ) (a b : Meaning)
        → IsMapping bytes a → IsMapping bytes b → a ≡ b }
    ensures fault { (bytes : List ℕ) (a b : FaultValue)
        → IsFirstFault bytes a → IsFirstFault bytes b → a ≡ b }
    ensures apart { (bytes : List ℕ) (mapping : Meaning) (fault : FaultValue)
        → IsMapping bytes mapping → ¬ (IsFirstFault bytes fault) }
    ensures either { (bytes : List ℕ) → length bytes < 4294967295
        → ((mapping : Meaning) × IsMapping bytes mapping) ⊎ ((fault : FaultValue) × IsFirstFault bytes fault) }
{}

/// The canonical text of a mapping is read as the mapping.
pub fn mappings_are_read_back()
    ensures { (mapping : Meaning) → IsValid mapping.rules → IsPool mapping.pool
        → HasItsConstants mapping.rules mapping.pool → IsMapping (mapping_text mapping) mapping }
{}
