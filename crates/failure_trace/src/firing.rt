//! Firings of rules, and the matches that support them.

ghost use Rattle.std.specs.Prelude.{All, IfSome, IfNone, Contains};
ghost use Rattle.time_line.specs.Span.{Has};

use term_core::{ConstId, Items};
use time_line::Span;

/// A match of a rule's body over a stretch of a firing.
#[derive(Debug, PartialEq, Eq, PartialOrd, Ord, Drop)]
pub struct Support {
    /// When the match holds.
    pub span: Span,
    /// A constant for each variable of the rule's body.
    pub binding: Items<ConstId>,
}

/// A rule that fires at some values of its frontier, without a break.
#[derive(Debug, PartialEq, Eq, PartialOrd, Ord, Drop)]
pub struct Firing {
    /// The place of the rule.
    pub rule: u32,
    /// The values of its frontier.
    pub frontier: Items<ConstId>,
    /// When it fires.
    pub span: Span,
    /// Matches that make up the span, one after the other.
    pub supports: Items<Support>,
}

impl Firing {
    /// The first support whose span has the instant, if there is one.
    pub fn support_at(&self, t: i64) -> Option<&Support>
        ensures found { IfSome result (λ support. Contains self.now.supports support.now
            × Has support.now.span t) }
        ensures none { IfNone result (All (λ support. ¬ (Has support.span t)) self.now.supports) }
    {
        self.supports
            .as_slice()
            .iter()
            .find(|support| support.span.has(t))
    }
}
