//! Inner numbers for the unknowns of a trace. An inner number can come to stand for another unknown, and no row that has
//! it need change.

ghost use Rattle.std.specs.Prelude.{◌≡◌, ◌≢◌, Some, IfOk, OnOk, map};
ghost use Rattle.rule_core.specs.Homomorphism.{term_image};
ghost use Rattle.trace_checker.specs.Names.{term_named};
ghost use Rattle.trace_checker.specs.States.{fact_named};
ghost use Rattle.trace_checker.specs.Numbered.{other_number, renumbered, inner_of, inward, AreOwn, AreTaken, IsTakenFor, KeepsInner, Renames};

use crate::name::Name;
use crate::row::Row;
use indexmap::IndexMap;
use std::alloc::Global;
use term_core::Memory;

/// The number that each inner one stands for, and the inner number of each that has one.
#[derive(Drop)]
pub struct Numbers {
    pub outer: Vec<u64>,
    pub inner: IndexMap<u64, u64>,
}

impl Numbers {
    /// No number has an inner one.
    pub fn new(alloc: Global) -> Numbers
        ensures { AreOwn result }
    {
        Numbers {
            outer: Vec::new(alloc),
            inner: IndexMap::new(alloc),
        }
    }

    /// The inner number of a number, a new one where it has none.
    pub fn give(&mut self, number: u64) -> Result<u64, Memory>
        requires { AreOwn self.old }
        ensures own { OnOk result (AreOwn self.new) }
        ensures kept { OnOk result (KeepsInner self.old self.new) }
        ensures given { IfOk result (λ inner. inner_of self.new number ≡ Some inner) }
    {
        if let Some(inner) = self.inner.get(&number) {
            return Ok(*inner);
        }
        let inner = self.outer.len() as u64;
        self.outer.push(number)?;
        self.inner.insert(number, inner)?;
        Ok(inner)
    }

    /// Gives an inner number to each unknown of a fact that has none.
    pub fn take_in(&mut self, row: &Row<'_>) -> Result<(), Memory>
        requires { AreOwn self.old }
        ensures own { OnOk result (AreOwn self.new) }
        ensures kept { OnOk result (KeepsInner self.old self.new) }
        ensures taken { OnOk result (AreTaken self.new (fact_named row.now)) }
    {
        let names = row.names.as_slice();
        for name in names {
            self.take_in_name(name)?;
        }
        Ok(())
    }

    // Gives an inner number to a term, where that is an unknown that has none.
    fn take_in_name(&mut self, name: &Name<'_>) -> Result<(), Memory>
        requires { AreOwn self.old }
        ensures own { OnOk result (AreOwn self.new) }
        ensures kept { OnOk result (KeepsInner self.old self.new) }
        ensures taken { OnOk result (IsTakenFor self.new (term_named name.now)) }
    {
        if let Name::Number(number) = name {
            self.give(*number)?;
        }
        Ok(())
    }

    /// The fact over inner numbers.
    pub fn inner_row<'a>(&self, alloc: Global, row: &Row<'a>) -> Result<Row<'a>, Memory>
        ensures { IfOk result (λ inner. fact_named inner ≡ renumbered (inward self.now) (fact_named row.now)) }
    {
        let before = row.names.as_slice();
        let mut names = Vec::with_capacity(alloc, before.len())?;
        for name in before {
            names.push(self.inner_name(name))?;
        }
        Ok(Row {
            relation: row.relation,
            names,
        })
    }

    // The term over inner numbers.
    fn inner_name<'a>(&self, name: &Name<'a>) -> Name<'a>
        ensures { term_named result ≡ term_image (other_number (inward self.now)) (term_named name.now) }
    {
        match name {
            Name::Number(number) => Name::Number(self.inner_number(*number)),
            other => *other,
        }
    }

    // The inner number, or one that stands for nothing.
    fn inner_number(&self, number: u64) -> u64
        ensures { result ≡ inward self.now number }
    {
        match self.inner.get(&number) {
            Some(inner) => *inner,
            None => self.outer.len() as u64,
        }
    }

    /// Lets the inner number of the one stand for the other.
    pub fn rename(&mut self, gone: u64, kept: u64, inner: u64) -> Result<(), Memory>
        requires own { AreOwn self.old }
        requires there { inner_of self.old gone ≡ Some inner }
        requires apart { gone ≢ kept }
        ensures { OnOk result (Renames self.old gone kept inner self.new) }
    {
        self.outer[inner as usize] = kept;
        self.inner.swap_remove(&gone);
        self.inner.insert(kept, inner)?;
        Ok(())
    }
}
