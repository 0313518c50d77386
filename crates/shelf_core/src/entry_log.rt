//! The entries of a shelf in memory.
//!
//! Names and bytes stand in one text, and each entry is a place in it. An entry is appended, so it takes no memory where there is
//! room, and the newest place of a name is its entry. Two stores of `a` and one of `bc` may stand as `a12bc3a4`:
//! `a` was 12, `bc` is 3, and `a` is 4.
ghost use Rattle.std.specs.Prelude.{◌≡◌, ◌+◌, ◌≤◌, length, OnOk};
ghost use Rattle.std.specs.Option.{option_copied};
ghost use Rattle.std.specs.FinMap.{empty, get, insert};
ghost use Rattle.shelf_core.specs.Layout.{Fits};

use std::alloc::{AllocError, Global};
use std::collections::VecDeque;
use std::marker::Model;

// Where an entry stands in the text: its name from `start` to `middle`, and its bytes from there to `end`.
#[derive(Clone, Copy)]
struct Place {
    start: usize,
    middle: usize,
    end: usize,
}

/// Entries by their names, with some room.
#[derive(Drop)]
pub(crate) struct EntryLog {
    text: Vec<u8>,
    // The newest first.
    places: VecDeque<Place>,
}

impl Model for EntryLog {
    ghost use Rattle.std.specs.Prelude.{◌-◌, All, length, vec_len, vec_capacity};
    ghost use Rattle.std.specs.VecDeque.{deque_len, deque_capacity};
    ghost use Rattle.shelf_core.specs.Layout.{Entries, IsInText, entries_at, entries_code};

    ghost Value = { Entries };

    ghost coded = { entries_code };

    ghost view = { λ e. record {
      held = entries_at e.text.items e.places.items;
      room = record { entries = deque_capacity e.places - deque_len e.places; bytes = vec_capacity e.text - vec_len e.text };
    } };

    ghost invariant = { λ e. All (IsInText (length e.text.items)) e.places.items };
}

impl EntryLog {
    /// No entry.
    pub(crate) fn new(alloc: Global) -> EntryLog
        ensures { result.held ≡ empty }
    {
        EntryLog {
            text: Vec::new(alloc),
            places: VecDeque::new(alloc),
        }
    }

    /// The entry of that name. Looks from the newest on, so the time grows with the number of stores.
    pub(crate) fn get(&self, name: &[u8]) -> Option<&[u8]>
        ensures { option_copied result ≡ get self.now.held name.now }
    {
        for place in &self.places {
            if name == &self.text[place.start..place.middle] {
                return Some(&self.text[place.middle..place.end]);
            }
        }
        None
    }

    /// Makes room for at least so many more entries and bytes.
    pub(crate) fn reserve(&mut self, entries: usize, bytes: usize) -> Result<(), AllocError>
        ensures same { self.new.held ≡ self.old.held }
        ensures entries { OnOk result (entries ≤ self.new.room.entries) }
        ensures bytes { OnOk result (bytes ≤ self.new.room.bytes) }
        ensures entries_stay { self.old.room.entries ≤ self.new.room.entries }
        ensures bytes_stay { self.old.room.bytes ≤ self.new.room.bytes }
    {
        self.text.reserve(bytes)?;
        self.places.reserve(entries)
    }

    /// Sets the entry of that name, where there is room, and takes no memory.
    pub(crate) fn push(&mut self, name: &[u8], bytes: &[u8])
        requires { Fits self.old.room name.now bytes.now }
        ensures set { self.new.held ≡ insert self.old.held name.now bytes.now }
        ensures entries { self.old.room.entries ≤ self.new.room.entries + 1 }
        ensures bytes { self.old.room.bytes ≤
            self.new.room.bytes + (length name.now + length bytes.now) }
    {
        let start = self.text.len();
        let middle = start + name.len();
        let end = middle + bytes.len();
        self.text.extend_from_slice(name).unwrap();
        self.text.extend_from_slice(bytes).unwrap();
        self.places
            .push_front_reserved(Place { start, middle, end });
    }
}
