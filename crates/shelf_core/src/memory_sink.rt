//! A sink in memory that tells its text, and fails at the calls that it is told to fail at.
ghost use Rattle.std.specs.Prelude.{◌≡◌, [], ◌↔◌, ◌<◌, ◌⊎◌, length, IsErr, OnOk, OnErr, Some};
ghost use Rattle.shelf_core.specs.Faults.{HasCause};
ghost use Rattle.shelf_core.specs.InMemory.{IsNextListed, given, no_calls, sink_failed, with_listed};
ghost use Rattle.shelf_core.specs.Texts.{Appends, AppendsPrefix};

use crate::call_log::CallLog;
use crate::memory::Memory;
use crate::sink::{Sink, SinkFailed};
use std::alloc::Global;
use std::marker::Model;

/// A text with room for some more bytes. Its calls of `put` are counted from 1.
#[derive(Drop)]
pub struct MemorySink {
    text: Vec<u8>,
    calls: CallLog,
    spare: usize,
}

impl Model for MemorySink {
    ghost use Rattle.std.specs.Prelude.{◌+◌, ◌≤◌, vec_len, vec_capacity};
    ghost use Rattle.shelf_core.specs.InMemory.{SinkState};

    ghost Value = { SinkState };

    ghost view = { λ s. record { text = s.text.items; calls = s.calls; spare = s.spare } };

    ghost invariant = { λ s. vec_len s.text + s.spare ≤ vec_capacity s.text };
}

impl MemorySink {
    /// An empty text with no room, no call that is to fail, and no count.
    pub fn new(alloc: Global) -> MemorySink
        ensures { result ≡ record { text = []; calls = no_calls; spare = 0 } }
    {
        MemorySink {
            text: Vec::new(alloc),
            calls: CallLog::new(alloc),
            spare: 0,
        }
    }

    /// Lists the number of a call that is to fail.
    pub fn fail(&mut self, call: u64) -> Result<(), Memory>
        ensures ok { OnOk result (self.new ≡
            record self.old { calls = with_listed self.old.calls call }) }
        ensures err { OnErr result (self.new ≡ self.old) }
    {
        self.calls.fail(call)?;
        Ok(())
    }

    /// Makes room for exactly so many more bytes.
    pub fn room(&mut self, more: usize) -> Result<(), Memory>
        ensures ok { OnOk result (self.new ≡ record self.old { spare = more }) }
        ensures err { OnErr result (self.new ≡ self.old) }
    {
        self.text.reserve(more)?;
        self.spare = more;
        Ok(())
    }

    /// The text.
    pub fn text(&self) -> &[u8]
        ensures { result.now ≡ self.now.text }
    {
        self.text.as_slice()
    }
}

impl Sink for MemorySink {
    ghost text = { λ s. Some s.text };

    ghost faults = { λ s. s.calls.faults };

    fn put(&mut self, bytes: &[u8]) -> Result<(), SinkFailed>
        ensures refused { IsErr result ↔
            (IsNextListed self.old.calls ⊎ (self.old.spare < length bytes.now)) }
        ensures ok { OnOk result (self.new ≡ given self.old bytes.now) }
        ensures err { OnErr result (self.new ≡ sink_failed self.old) }

        // What every sink promises.
        ensures appends { OnOk result
            (Appends (Some self.old.text) (Some self.new.text) bytes.now) }
        ensures prefix { OnErr result
            (AppendsPrefix (Some self.old.text) (Some self.new.text) bytes.now) }
        ensures cause { HasCause self.old.calls.faults self.new.calls.faults (IsErr result) }
    {
        if self.calls.begin() || self.spare < bytes.len() {
            self.calls.fault();
            return Err(SinkFailed);
        }
        self.text.extend_from_slice(bytes).unwrap();
        self.spare -= bytes.len();
        Ok(())
    }
}
