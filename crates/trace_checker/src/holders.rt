//! The facts that have an unknown.

ghost use Rattle.std.specs.Prelude.{OnOk};
ghost use Rattle.trace_checker.specs.Names.{term_named};
ghost use Rattle.trace_checker.specs.States.{fact_named};
ghost use Rattle.trace_checker.specs.Listed.{facts_of, IsListed, IsListedFor, IsListedForAll, KeepsListed, TakesOut};

use crate::name::Name;
use crate::row::{Row, copied_row};
use indexmap::IndexMap;
use std::alloc::Global;
use term_core::Memory;

/// For the number of an unknown the facts that have it, and some that are there no more.
#[derive(Drop)]
pub struct Holders<'a> {
    pub lists: IndexMap<u64, Vec<Row<'a>>>,
}

impl<'a> Holders<'a> {
    /// Nothing is listed.
    pub fn new(alloc: Global) -> Holders<'a> {
        Holders {
            lists: IndexMap::new(alloc),
        }
    }

    /// How many facts are listed under a number. No clause needs to say it.
    pub fn listed(&self, number: u64) -> usize {
        match self.lists.get(&number) {
            Some(list) => list.len(),
            None => 0,
        }
    }

    /// Lists a fact under each of its unknowns.
    pub fn list(&mut self, alloc: Global, row: &Row<'a>) -> Result<(), Memory>
        ensures kept { OnOk result (KeepsListed self.old self.new) }
        ensures there { OnOk result (IsListedForAll self.new (fact_named row.now)) }
    {
        let names = row.names.as_slice();
        for name in names {
            self.list_for(alloc, row, name)?;
        }
        Ok(())
    }

    // Lists a fact under a term, where that is an unknown.
    fn list_for(&mut self, alloc: Global, row: &Row<'a>, name: &Name<'a>) -> Result<(), Memory>
        ensures kept { OnOk result (KeepsListed self.old self.new) }
        ensures there { OnOk result (IsListedFor self.new (fact_named row.now) (term_named name.now)) }
    {
        match name {
            Name::Text(_) => Ok(()),
            Name::Number(number) => self.put(alloc, *number, copied_row(alloc, row)?),
        }
    }

    // Puts a fact behind those that are listed under a number.
    fn put(&mut self, alloc: Global, number: u64, row: Row<'a>) -> Result<(), Memory>
        ensures kept { OnOk result (KeepsListed self.old self.new) }
        ensures there { OnOk result (IsListed self.new number (fact_named row.entry)) }
    {
        let mut list = self.take(alloc, number);
        list.push(row)?;
        self.lists.insert(number, list)?;
        Ok(())
    }

    /// Takes out what is listed under a number.
    pub fn take(&mut self, alloc: Global, number: u64) -> Vec<Row<'a>>
        ensures { TakesOut self.old number (facts_of result.items) self.new }
    {
        match self.lists.swap_remove(&number) {
            Some(list) => list,
            None => Vec::new(alloc),
        }
    }
}
