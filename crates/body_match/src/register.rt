//! Rows under keys, to which more may come: look-ups, each with at least twice as many entries as the next, and a few entries that
//! came last.

ghost use Rattle.std.specs.Prelude.{◌≡◌, ◌++◌, Contains, IfOk, OnOk};
ghost use Rattle.std.specs.Option.{option_to_list};
ghost use Rattle.body_match.specs.declared.lookup.Entry.{Entry};
ghost use Rattle.body_match.specs.Lookup.{HasSought, Keeps, all_in, entries_in};
ghost use Rattle.body_match.specs.Renewals.{KeepsOthers};

use crate::lookup::{Entry, Lookup, Probe, add_if_sought, others_than};
use std::alloc::Global;
use std::marker::Model;
use std::mem::replace;
use term_core::Memory;

/// How many entries stand beside the look-ups at most.
const FEW: usize = 32;

/// Entries of rows, in no order that callers see.
#[derive(Drop)]
pub struct Register {
    lookups: Vec<Lookup>,
    last: Vec<Entry>,
}

impl Model for Register {
    ghost use Rattle.std.specs.Prelude.{List};
    ghost use Rattle.body_match.specs.declared.lookup.Entry.{Entry};
    ghost use Rattle.body_match.specs.Lookup.{entries_in};

    ghost Value = { List Entry };

    ghost view = { λ r. entries_in r.lookups.items r.last.items };
}

impl Register {
    /// A register of these entries.
    pub fn make(alloc: Global, entries: Vec<Entry>) -> Result<Register, Memory>
        ensures { IfOk result (λ register. (entry : Entry)
            → Contains entries.items entry → Contains register entry) }
    {
        let lookup = Lookup::make(alloc, entries)?;
        let mut lookups = Vec::new(alloc);
        lookups.push(lookup)?;
        Ok(Register {
            lookups,
            last: Vec::new(alloc),
        })
    }

    /// Adds an entry.
    pub fn add(&mut self, alloc: Global, entry: Entry) -> Result<(), Memory>
        ensures kept { OnOk result ((other : Entry)
            → Contains self.old other → Contains self.new other) }
        ensures added { OnOk result (Contains self.new entry) }
    {
        self.last.push(entry)?;
        if self.last.len() < FEW {
            return Ok(());
        }
        self.merge(alloc)
    }

    /// Adds entries.
    pub fn add_all(&mut self, alloc: Global, entries: Vec<Entry>) -> Result<(), Memory>
        ensures kept { OnOk result ((other : Entry)
            → Contains self.old other → Contains self.new other) }
        ensures added { OnOk result ((entry : Entry)
            → Contains entries.items entry → Contains self.new entry) }
    {
        let mut entries = entries;
        self.last.append(&mut entries)?;
        if self.last.len() < FEW {
            return Ok(());
        }
        self.merge(alloc)
    }

    /// Drops the entry of a row, where it is found by its key and its start. The entries of all other rows stay.
    pub fn drop_entry(&mut self, alloc: Global, entry: &Entry) -> Result<(), Memory>
        ensures { OnOk result (KeepsOthers entry.now.row self.old self.new) }
    {
        drop_in(alloc, &mut self.lookups, entry)?;
        if has_row(self.last.as_slice(), entry.row) {
            self.last = others_than(alloc, entry.row, self.last.as_slice())?;
        }
        Ok(())
    }

    // Makes a look-up of the entries that came last, and of those look-ups that have no more than twice as many.
    fn merge(&mut self, alloc: Global) -> Result<(), Memory>
        ensures { OnOk result ((entry : Entry)
            → Contains self.old entry → Contains self.new entry) }
    {
        let mut entries = replace(&mut self.last, Vec::new(alloc));
        take_small(&mut self.lookups, &mut entries)?;
        self.lookups.push(Lookup::make(alloc, entries)?)?;
        Ok(())
    }

    /// Adds at least the rows that are sought.
    pub fn gather(&self, probe: &Probe, rows: &mut Vec<usize>) -> Result<(), Memory>
        ensures { OnOk result (HasSought self.now probe.now rows.new.items) }
    {
        gather_in(self.lookups.as_slice(), probe, rows)?;
        gather_beside(self.last.as_slice(), probe, rows)
    }
}

// Takes the last look-ups away that have no more than twice as many entries, and adds theirs.
fn take_small(lookups: &mut Vec<Lookup>, entries: &mut Vec<Entry>) -> Result<(), Memory>
    ensures { OnOk result ((entry : Entry)
        → Contains (entries_in lookups.old.items entries.old.items) entry
        → Contains (entries_in lookups.new.items entries.new.items) entry) }
{
    let Some(lookup) = pop_small(lookups, entries.len()) else {
        return Ok(());
    };
    entries.append(&mut lookup.into_entries())?;
    take_small(lookups, entries)
}

// Drops the entry of a row from look-ups.
fn drop_in(alloc: Global, lookups: &mut Vec<Lookup>, entry: &Entry) -> Result<(), Memory>
    ensures { OnOk result (KeepsOthers entry.now.row (all_in lookups.old.items) (all_in lookups.new.items)) }
{
    for at in 0..lookups.len() {
        let lookup = &mut lookups[at];
        lookup.drop_entry(alloc, entry)?;
    }
    Ok(())
}

// Whether one of the entries is one of the row.
fn has_row(entries: &[Entry], row: usize) -> bool {
    entries.iter().any(|entry| entry.row == row)
}

// Adds at least the rows that are sought in look-ups.
fn gather_in(lookups: &[Lookup], probe: &Probe, rows: &mut Vec<usize>) -> Result<(), Memory>
    ensures { OnOk result (HasSought (all_in lookups.now) probe.now rows.new.items) }
{
    for lookup in lookups {
        lookup.gather(probe, rows)?;
    }
    Ok(())
}

// Adds at least the rows that are sought among entries.
fn gather_beside(entries: &[Entry], probe: &Probe, rows: &mut Vec<usize>) -> Result<(), Memory>
    ensures sought { OnOk result (HasSought entries.now probe.now rows.new.items) }
    ensures kept { OnOk result (Keeps rows.old.items rows.new.items) }
{
    for entry in entries {
        add_if_sought(*entry, probe, rows)?;
    }
    Ok(())
}

// Takes the last look-up away, if it has no more than twice as many entries.
fn pop_small(lookups: &mut Vec<Lookup>, entries: usize) -> Option<Lookup>
    ensures { lookups.old.items ≡ lookups.new.items ++ option_to_list result }
{
    let last = lookups.last()?;
    if last.len() / 2 > entries {
        return None;
    }
    lookups.pop()
}
