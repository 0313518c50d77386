//! A list with spare room, into which items go without taking memory.

ghost use Rattle.std.specs.Prelude.{◌≡◌, ℕ, ◌+◌, ◌<◌, ◌≤◌, [], ◌∷◌, ◌++◌, OnOk, OnErr};

use crate::{Items, Memory};
use std::alloc::Global;
use std::marker::Model;

/// A list of items, and how many more it has room for. An `Items` has no room that a contract could see,
/// since two lists of the same items are equal whatever their room is.
#[derive(Debug, Drop)]
pub struct Slots<T> {
    items: Vec<T>,
}

impl<T> Model for Slots<T> {
    ghost use Rattle.std.specs.Prelude.{vec_len, vec_capacity, ◌-◌};
    ghost use Rattle.term_core.specs.Slots.{Slotted, slotted_code};

    ghost Value = { Slotted T };

    ghost coded = { slotted_code T.code };

    ghost view = { λ s. record { items = s.items.items; room = vec_capacity s.items - vec_len s.items } };
}

impl<T> Slots<T> {
    /// The items of a list, with whatever room it has.
    pub fn from_items(items: Items<T>) -> Slots<T>
        ensures { result.items ≡ items }
    {
        Slots {
            items: items.into_vec(),
        }
    }

    /// The items alone.
    pub fn into_items(self) -> Items<T>
        ensures { result ≡ self.items }
    {
        let Slots { items } = self;
        Items::from_vec(items)
    }

    /// Takes memory, so that at least so many more items have room.
    pub fn room(&mut self, more: usize) -> Result<(), Memory>
        ensures same { self.new.items ≡ self.old.items }
        ensures ok { OnOk result (more ≤ self.new.room) }
    {
        self.items.reserve(more)?;
        Ok(())
    }

    /// Adds an item at the end, in the spare room.
    pub fn push_within(&mut self, value: T)
        requires { 0 < self.old.room }
        ensures items { self.new.items ≡ self.old.items ++ value ∷ [] }
        ensures room { self.new.room + 1 ≡ self.old.room }
    {
        self.items.push_reserved(value);
    }
}
