//! The calls that an object in memory counts, those that it is to fail at, and its faults.
ghost use Rattle.std.specs.Prelude.{◌≡◌, ◌↔◌, ◌≤◌, IsTrue, OnOk, OnErr};
ghost use Rattle.shelf_core.specs.Faults.{Rises};
ghost use Rattle.shelf_core.specs.InMemory.{IsNextListed, counted, next_count, no_calls, with_listed};

use std::alloc::{AllocError, Global};
use std::marker::Model;

/// Counts calls and faults, each until the last `u64`, and lists the numbers of the calls that are to fail.
#[derive(Drop)]
pub(crate) struct CallLog {
    count: u64,
    listed: Vec<u64>,
    faults: u64,
}

impl Model for CallLog {
    ghost use Rattle.shelf_core.specs.InMemory.{Calls};

    ghost Value = { Calls };

    ghost view = { λ log. record { count = log.count; listed = log.listed.items; faults = log.faults } };
}

impl CallLog {
    /// No call was made, and none is to fail.
    pub(crate) fn new(alloc: Global) -> CallLog
        ensures { result ≡ no_calls }
    {
        CallLog {
            count: 0,
            listed: Vec::new(alloc),
            faults: 0,
        }
    }

    /// Lists a call that is to fail.
    pub(crate) fn fail(&mut self, call: u64) -> Result<(), AllocError>
        ensures ok { OnOk result (self.new ≡ with_listed self.old call) }
        ensures err { OnErr result (self.new ≡ self.old) }
    {
        self.listed.push(call)?;
        Ok(())
    }

    /// Counts a call, and says whether it is to fail.
    pub(crate) fn begin(&mut self) -> bool
        ensures counted { self.new ≡ counted self.old }
        ensures listed { IsTrue result ↔ IsNextListed self.old }
    {
        self.count = self.count.saturating_add(1);
        self.listed.contains(&self.count)
    }

    /// Counts a fault.
    pub(crate) fn fault(&mut self)
        ensures one_more { self.new ≡ record self.old { faults = next_count self.old.faults } }
        ensures rises { Rises self.old.faults self.new.faults }
        ensures later { self.old.faults ≤ self.new.faults }
    {
        self.faults = self.faults.saturating_add(1);
    }
}
