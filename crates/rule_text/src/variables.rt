//! The variables of a tgd, an egd or a disjunct.

ghost use Rattle.std.specs.Prelude.{◌≡◌, ◌↔◌, ℕ, ◌<◌, [], ◌∷◌, ◌++◌, length, Contains, IsTrue, IfSome, IfNone, IfOk, OnOk};
ghost use Rattle.rule_core.specs.Limits.{most_variables};
ghost use Rattle.rule_text.specs.RuleLine.{IsFirstAt};

use std::alloc::Global;
use std::marker::Model;
use term_core::{Items, Memory, Text};

/// Names, at most as many as there may be variables, in order of first occurrence.
#[derive(Drop)]
pub(crate) struct Variables {
    names: Items<Text>,
}

impl Model for Variables {
    ghost use Rattle.std.specs.Prelude.{List, ℕ, ◌≤◌, length};
    ghost use Rattle.rule_core.specs.Limits.{most_variables};

    ghost Value = { List (List ℕ) };

    ghost view = { λ v. v.names };

    ghost invariant = { λ v. length v.names ≤ most_variables };
}

impl Variables {
    /// No variable yet.
    pub(crate) fn new(alloc: Global) -> Variables
        ensures { result ≡ [] }
    {
        Variables {
            names: Items::new(alloc),
        }
    }

    /// How many there are.
    pub(crate) fn len(&self) -> usize
        ensures { result ≡ length self.now }
    {
        self.names.len()
    }

    /// Whether one has the name.
    pub(crate) fn contains(&self, name: &Text) -> bool
        ensures { IsTrue result ↔ Contains self.now name.now }
    {
        self.names.as_slice().contains(name)
    }

    /// The number of the variable with the name, if there is one.
    pub(crate) fn find(&self, name: &Text) -> Option<u32>
        ensures found { IfSome result (IsFirstAt self.now name.now) }
        ensures none { IfNone result (¬ Contains self.now name.now) }
    {
        let number = number_of(self.names.as_slice(), name)?;
        Some(number as u32)
    }

    /// Adds a variable as the last, and gives its number.
    pub(crate) fn push(&mut self, name: Text) -> Result<u32, Memory>
        requires { length self.old < most_variables }
        ensures last { OnOk result (self.new ≡ self.old ++ name ∷ []) }
        ensures number { IfOk result (λ number. number ≡ length self.old) }
    {
        let number = self.names.len() as u32;
        self.names.push(name)?;
        Ok(number)
    }

    /// The names as a list.
    pub(crate) fn into_items(self) -> Items<Text>
        ensures { result ≡ self }
    {
        let Variables { names } = self;
        names
    }
}

// The first number of a name.
fn number_of(names: &[Text], name: &Text) -> Option<usize>
    ensures found { IfSome result (IsFirstAt names.now name.now) }
    ensures within { IfSome result (λ number. number < length names.now) }
    ensures none { IfNone result (¬ Contains names.now name.now) }
{
    for (number, other) in names.iter().enumerate() {
        if is_same(other, name) {
            return Some(number);
        }
    }
    None
}

// Whether two names are one.
fn is_same(left: &Text, right: &Text) -> bool
    ensures { IsTrue result ↔ (left.now ≡ right.now) }
{
    left == right
}
