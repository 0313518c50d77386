//! Terms: constants, and unknowns that tell where they came from.

ghost use Rattle.std.specs.Prelude.{◌≡◌, IfOk};

use crate::{ConstId, Items, Memory};
use std::alloc::Global;

/// A value that is not known: the one that a rule wants for one of its `exists` variables, at given values of its
/// frontier.
#[derive(Debug, PartialEq, Eq, PartialOrd, Ord, Drop)]
pub struct Unknown {
    /// The place of the rule.
    pub rule: u32,
    /// The values of the rule's frontier.
    pub frontier: Items<ConstId>,
    /// The place of the variable among the `exists` variables.
    pub var: u32,
}

impl Unknown {
    /// The same unknown in memory of its own, which comes from `alloc`.
    pub fn copy(&self, alloc: Global) -> Result<Unknown, Memory>
        ensures { IfOk result (λ copied. copied ≡ self.now) }
    {
        Ok(Unknown {
            rule: self.rule,
            frontier: self.frontier.copy(alloc)?,
            var: self.var,
        })
    }
}

/// A constant or an unknown. Constants stand before unknowns.
#[derive(Debug, PartialEq, Eq, PartialOrd, Ord, Drop)]
pub enum Term {
    /// A constant.
    Const(ConstId),
    /// An unknown.
    Null(Unknown),
}

impl Term {
    /// The same term, in memory of its own where it is an unknown, which comes from `alloc`.
    pub fn copy(&self, alloc: Global) -> Result<Term, Memory>
        ensures { IfOk result (λ copied. copied ≡ self.now) }
    {
        match self {
            Term::Const(id) => Ok(Term::Const(*id)),
            Term::Null(unknown) => Ok(Term::Null(unknown.copy(alloc)?)),
        }
    }
}

/// A constant, or the place of a piece of an unknown.
#[derive(Clone, Copy, Debug, PartialEq, Eq, PartialOrd, Ord)]
pub enum Seen {
    /// A constant.
    Const(ConstId),
    /// The place of a piece.
    Piece(usize),
}
