//! A mapping and its source, ready for an exchange.

ghost use Rattle.exchange_engine.specs.Loading.{HasEachConstant};

use fact_table::FactTable;
use rule_core::Rules;
use std::marker::Model;
use term_core::Pool;

/// A mapping's rules, the texts of all constants, and the facts of a source. The pool has each constant of the rules and of the facts.
#[derive(Drop)]
pub struct Loaded {
    /// The relations, rules and queries.
    pub rules: Rules,
    /// The texts of the constants, by their numbers.
    pub pool: Pool,
    /// The facts of the source.
    pub table: FactTable,
}

impl Model for Loaded {
    ghost use Rattle.exchange_engine.specs.Loading.{LoadedOf, loaded_of, HasEachConstant};

    ghost Value = { LoadedOf };

    ghost view = { λ l. loaded_of l.rules l.pool l.table };

    ghost invariant = { λ l. HasEachConstant (loaded_of l.rules l.pool l.table) };
}

impl Loaded {
    /// The fact that the type keeps.
    pub fn is_kept(&self)
        ensures { HasEachConstant self.now }
    {
        let _ = &self.rules;
    }
}
