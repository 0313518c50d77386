//! A mapping with the texts of its constants.

ghost use Rattle.mapping_core.specs.Mapping.{HasItsConstants};

use rule_core::Rules;
use std::marker::Model;
use term_core::Pool;

/// A mapping's rules, and the texts of their constants: the pool has exactly the constants of the rules, each of at
/// most 4,096 bytes.
#[derive(Drop)]
pub struct Mapping {
    /// The relations, rules and queries.
    pub rules: Rules,
    /// The texts of the constants.
    pub pool: Pool,
}

impl Model for Mapping {
    ghost use Rattle.mapping_core.specs.Mapping.{Meaning, meaning_of, HasItsConstants};

    ghost Value = { Meaning };

    ghost view = { λ m. meaning_of m.rules m.pool };

    ghost invariant = { λ m. HasItsConstants m.rules m.pool };
}

impl Mapping {
    /// The facts that the type keeps.
    pub fn is_kept(&self)
        ensures constants { HasItsConstants self.now.rules self.now.pool }
    {
        let _ = &self.rules;
    }
}
