//! The names of unknowns, and their numbers.

ghost use Rattle.std.specs.Prelude.{◌≡◌, ◌<◌, ◌++◌, [], List, Some, IfOk, OnOk, OnErr, length, slice_get};
ghost use Rattle.null_store.specs.Changes.{AddsOnce};
ghost use Rattle.null_store.specs.Layout.{name_of};
ghost use Rattle.null_store.specs.Store.{NameOf, AreDistinct};

use indexmap::IndexSet;
use std::alloc::Global;
use std::marker::Model;
use term_core::{ConstId, Items, Memory};

/// Names of unknowns, each once. The number of a name is its place.
#[derive(Drop)]
pub struct Names {
    names: IndexSet<Name>,
}

/// A rule, and values of its frontier.
#[derive(Debug, PartialEq, Eq, Hash, Drop)]
pub struct Name {
    /// The place of the rule.
    pub rule: u32,
    /// The values of the rule's frontier.
    pub frontier: Vec<ConstId>,
}

impl Model for Names {
    ghost use Rattle.std.specs.Prelude.{List, map};
    ghost use Rattle.null_store.specs.Layout.{name_of};
    ghost use Rattle.null_store.specs.Store.{NameOf};

    ghost Value = { List NameOf };

    ghost view = { λ s. map name_of s.names.keys };
}

impl Names {
    /// No name.
    pub fn new(alloc: Global) -> Names
        ensures { result ≡ [] }
    {
        Names {
            names: IndexSet::new(alloc),
        }
    }

    /// The name with the number.
    pub fn get(&self, number: usize) -> &Name
        requires { number < length self.now }
        ensures { slice_get self.now number ≡ Some (name_of result.now) }
    {
        &self.names[number]
    }

    /// The number of a name, which is added where it is new.
    pub fn number_of(
        &mut self,
        alloc: Global,
        rule: u32,
        frontier: &Items<ConstId>,
    ) -> Result<usize, Memory>
        ensures ok { IfOk result (λ number.
            slice_get self.new number ≡ Some (record { rule = rule; frontier = frontier.now })) }
        ensures once { OnOk result (AddsOnce self.old self.new
            (record { rule = rule; frontier = frontier.now })) }
        ensures keeps { (more : List NameOf) × (self.new ≡ self.old ++ more) }
        ensures distinct { AreDistinct self.old → AreDistinct self.new }
        ensures err { OnErr result (self.new ≡ self.old) }
    {
        let frontier = frontier.as_slice().to_vec(alloc)?;
        let (number, _) = self.names.insert_full(Name { rule, frontier })?;
        Ok(number)
    }
}
