//! Rows of terms with spans.

use std::marker::Model;
use term_core::{Items, Term};
use time_line::Span;

/// A row, and a span over which it holds. They are ordered by row, and then by span.
#[derive(Debug, PartialEq, Eq, PartialOrd, Ord, Drop)]
pub struct Stamped {
    /// The terms of the row.
    pub row: Items<Term>,
    /// When the row holds.
    pub span: Span,
}

impl Model for Stamped {
    ghost use Rattle.std.specs.Prelude.{List};
    ghost use Rattle.term_core.specs.declared.term.Term.{Term};
    ghost use Rattle.rule_core.specs.Terms.{StampedOf};

    ghost Value = { StampedOf (List Term) };

    ghost view = { λ s. record { row = s.row; span = s.span } };

    ghost inverse = { λ v. record { row = v.row; span = v.span } };
}
