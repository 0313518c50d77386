//! A shelf in memory that tells what it holds, and fails at the calls that it is told to fail at.
ghost use Rattle.std.specs.Prelude.{◌≡◌, ◌↔◌, ◌⊎◌, IfOk, IsTrue, IsErr, OnOk, OnErr, Some, Err};
ghost use Rattle.std.specs.Option.{option_copied};
ghost use Rattle.std.specs.FinMap.{empty, get, insert};
ghost use Rattle.shelf_core.specs.Faults.{HasCause};
ghost use Rattle.shelf_core.specs.Fetching.{IsWithin, Shows, fetched_of};
ghost use Rattle.shelf_core.specs.Held.{Sets, OthersStay};
ghost use Rattle.shelf_core.specs.InMemory.{IsFull, IsNextListed, no_calls, no_room, shelf_counted, shelf_failed, stored, with_listed};

use crate::bytes::Bytes;
use crate::call_log::CallLog;
use crate::entry_log::EntryLog;
use crate::memory::Memory;
use crate::shelf::{FetchError, Fetched, Shelf, StoreFailed};
use std::alloc::{AllocError, Global};
use std::marker::Model;

/// Named entries with room for some more. Fetches and stores are counted together from 1.
#[derive(Drop)]
pub struct MemoryShelf {
    entries: EntryLog,
    calls: CallLog,
    spare_entries: usize,
    spare_bytes: usize,
}

impl Model for MemoryShelf {
    ghost use Rattle.std.specs.Prelude.{◌≤◌};
    ghost use Rattle.shelf_core.specs.InMemory.{ShelfState, shelf_code};

    ghost Value = { ShelfState };

    ghost coded = { shelf_code };

    ghost view = { λ s. record {
      entries = s.entries.held;
      calls = s.calls;
      spare = record { entries = s.spare_entries; bytes = s.spare_bytes };
    } };

    ghost invariant = { λ s. (s.spare_entries ≤ s.entries.room.entries) × (s.spare_bytes ≤ s.entries.room.bytes) };
}

impl MemoryShelf {
    /// No entry, no room, no call that is to fail, and no count.
    pub fn new(alloc: Global) -> MemoryShelf
        ensures { result ≡ record { entries = empty; calls = no_calls; spare = no_room } }
    {
        MemoryShelf {
            entries: EntryLog::new(alloc),
            calls: CallLog::new(alloc),
            spare_entries: 0,
            spare_bytes: 0,
        }
    }

    /// Sets the entry of that name, beside the spare room. It is no call that is counted.
    pub fn place(&mut self, name: &str, bytes: &[u8]) -> Result<(), Memory>
        ensures ok { OnOk result (self.new ≡
            record self.old { entries = insert self.old.entries name.now bytes.now }) }
        ensures err { OnErr result (self.new ≡ self.old) }
    {
        let entries = self.spare_entries.checked_add(1).ok_or(Memory)?;
        let size = name.len().checked_add(bytes.len()).ok_or(Memory)?;
        let size = size.checked_add(self.spare_bytes).ok_or(Memory)?;
        self.entries.reserve(entries, size)?;
        self.entries.push(name.as_bytes(), bytes);
        Ok(())
    }

    /// Lists the number of a call that is to fail.
    pub fn fail(&mut self, call: u64) -> Result<(), Memory>
        ensures ok { OnOk result (self.new ≡
            record self.old { calls = with_listed self.old.calls call }) }
        ensures err { OnErr result (self.new ≡ self.old) }
    {
        self.calls.fail(call)?;
        Ok(())
    }

    /// Makes room for exactly so many more entries, and so many bytes of their names and of what they hold.
    pub fn room(&mut self, entries: usize, bytes: usize) -> Result<(), Memory>
        ensures ok { OnOk result (self.new ≡
            record self.old { spare = record { entries = entries; bytes = bytes } }) }
        ensures err { OnErr result (self.new ≡ self.old) }
    {
        self.entries.reserve(entries, bytes)?;
        self.spare_entries = entries;
        self.spare_bytes = bytes;
        Ok(())
    }

    /// The entry of that name. It is no call that is counted.
    pub fn get(&self, name: &str) -> Option<&[u8]>
        ensures { option_copied result ≡ get self.now.entries name.now }
    {
        self.entries.get(name.as_bytes())
    }

    // Whether an entry needs more than is spare.
    fn is_full(&self, name: &[u8], bytes: &[u8]) -> bool
        ensures { IsTrue result ↔ IsFull self.now name.now bytes.now }
    {
        self.spare_entries == 0
            || self.spare_bytes < name.len()
            || self.spare_bytes - name.len() < bytes.len()
    }
}

// A copy of the bytes that were found, where the limit allows.
fn copy_within(alloc: Global, found: Option<&[u8]>, limit: usize) -> Result<Fetched, AllocError>
    ensures { IfOk result (λ fetched. fetched ≡ fetched_of (option_copied found.entry) limit) }
{
    let Some(bytes) = found else {
        return Ok(Fetched::Missing);
    };
    if bytes.len() > limit {
        return Ok(Fetched::TooLong);
    }
    Ok(Fetched::Bytes(Bytes::from_vec(Vec::from_slice(alloc, bytes)?)))
}

impl Shelf for MemoryShelf {
    ghost holds = { λ s. Some s.entries };

    ghost faults = { λ s. s.calls.faults };

    fn fetch(&mut self, alloc: Global, name: &str, limit: usize) -> Result<Fetched, FetchError>
        ensures ok { IfOk result (λ fetched.
            fetched ≡ fetched_of (get self.old.entries name.now) limit) }
        ensures refused { (result ≡ Err FetchError.Failed) ↔ IsNextListed self.old.calls }
        ensures failed { result ≡ Err FetchError.Failed → self.new ≡ shelf_failed self.old }
        ensures counted { OnOk result (self.new ≡ shelf_counted self.old) }
        ensures memory { result ≡ Err FetchError.Memory → self.new ≡ shelf_counted self.old }

        // What every shelf promises.
        ensures same { Some self.new.entries ≡ Some self.old.entries }
        ensures bound { IfOk result (IsWithin limit) }
        ensures shows { Shows (Some self.old.entries) name.now limit result }
        ensures cause { HasCause self.old.calls.faults self.new.calls.faults
            (result ≡ Err FetchError.Failed) }
    {
        if self.calls.begin() {
            self.calls.fault();
            return Err(FetchError::Failed);
        }
        let fetched = copy_within(alloc, self.entries.get(name.as_bytes()), limit)?;
        Ok(fetched)
    }

    fn store(&mut self, name: &str, bytes: &[u8]) -> Result<(), StoreFailed>
        ensures refused { IsErr result ↔
            (IsNextListed self.old.calls ⊎ IsFull self.old name.now bytes.now) }
        ensures ok { OnOk result (self.new ≡ stored self.old name.now bytes.now) }
        ensures err { OnErr result (self.new ≡ shelf_failed self.old) }

        // What every shelf promises.
        ensures sets { OnOk result
            (Sets (Some self.old.entries) (Some self.new.entries) name.now bytes.now) }
        ensures others { OnErr result
            (OthersStay (Some self.old.entries) (Some self.new.entries) name.now) }
        ensures cause { HasCause self.old.calls.faults self.new.calls.faults (IsErr result) }
    {
        if self.calls.begin() || self.is_full(name.as_bytes(), bytes) {
            self.calls.fault();
            return Err(StoreFailed);
        }
        self.entries.push(name.as_bytes(), bytes);
        self.spare_entries -= 1;
        self.spare_bytes -= name.len() + bytes.len();
        Ok(())
    }
}
