//! The facts of a source table.

use std::marker::Model;
use term_core::{Items, Text};
use time_line::Span;

/// A fact of a source table: the texts of its cells, and the span over which it holds.
#[derive(Debug, PartialEq, Eq, Drop)]
pub struct RawFact {
    pub cells: Items<Text>,
    pub span: Span,
}

impl Model for RawFact {
    ghost use Rattle.std.specs.Prelude.{List, ℕ};
    ghost use Rattle.rule_core.specs.Terms.{StampedOf};

    ghost Value = { StampedOf (List (List ℕ)) };

    ghost view = { λ f. record { row = f.cells; span = f.span } };

    ghost inverse = { λ v. record { cells = v.row; span = v.span } };
}
