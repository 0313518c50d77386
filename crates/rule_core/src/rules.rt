//! The parts of a mapping as plain data.

use term_core::{ConstId, Items, Text};

/// A side of a mapping.
#[derive(Clone, Copy, Debug, PartialEq, Eq)]
pub enum Place {
    Source,
    Target,
}

/// A relation: its name and the names of its columns.
#[derive(Debug, Drop, PartialEq, Eq)]
pub struct Relation {
    pub name: Text,
    pub columns: Items<Text>,
}

/// An argument of an atom: a variable by its place among the rule's variables, or a constant.
#[derive(Clone, Copy, Debug, PartialEq, Eq)]
pub enum Arg {
    Var(u32),
    Const(ConstId),
}

/// An atom: a relation by its place in the list of its side, and one argument for each column.
#[derive(Debug, Drop, PartialEq, Eq)]
pub struct Atom {
    pub relation: u32,
    pub args: Items<Arg>,
}

/// A source to target dependency. Its first `body_vars` variables are those of the body, in order of first
/// occurrence; the others are those of `exists`, in their order.
#[derive(Debug, Drop, PartialEq, Eq)]
pub struct Tgd {
    pub name: Text,
    pub vars: Items<Text>,
    pub body_vars: u32,
    pub body: Items<Atom>,
    pub head: Items<Atom>,
}

/// An equality on the target: where the body matches, the variables `left` and `right` have one value.
#[derive(Debug, Drop, PartialEq, Eq)]
pub struct Egd {
    pub name: Text,
    pub vars: Items<Text>,
    pub body: Items<Atom>,
    pub left: u32,
    pub right: u32,
}

/// A disjunct of a query, and for each head variable the variable of the same name here.
#[derive(Debug, Drop, PartialEq, Eq)]
pub struct Branch {
    pub vars: Items<Text>,
    pub body: Items<Atom>,
    pub columns: Items<u32>,
}

/// A query on the target: the names of its head variables, and its disjuncts.
#[derive(Debug, Drop, PartialEq, Eq)]
pub struct Query {
    pub name: Text,
    pub head: Items<Text>,
    pub branches: Items<Branch>,
}
