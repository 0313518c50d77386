//! A sink over a writer, such as a standard stream. No clause says what the writer keeps.
ghost use Rattle.std.specs.Prelude.{◌≡◌, ⊤, IsErr, OnOk, OnErr, None};
ghost use Rattle.shelf_core.specs.Faults.{HasCause};
ghost use Rattle.shelf_core.specs.InMemory.{next_count};
ghost use Rattle.shelf_core.specs.Texts.{Appends, AppendsPrefix};

use crate::sink::{Sink, SinkFailed};
use crate::transfer::write_whole;
use std::io::Write;
use std::marker::Model;

/// A writer, which contracts see as the number of calls that failed. Each call of `put` flushes it.
#[derive(Drop)]
pub struct StdSink<W: Write> {
    writer: W,
    faults: u64,
}

impl<W: Write> Model for StdSink<W> {
    ghost use Rattle.std.specs.Prelude.{ℕ};

    ghost Value = { ℕ };

    ghost view = { λ s. s.faults };
}

impl<W: Write> StdSink<W> {
    /// The writer, and no fault.
    pub fn new(writer: W) -> StdSink<W>
        ensures { result ≡ 0 }
    {
        StdSink { writer, faults: 0 }
    }

    // Counts a fault.
    fn fault(&mut self)
        ensures one_more { self.new ≡ next_count self.old }
        ensures cause { HasCause self.old self.new ⊤ }
    {
        self.faults = self.faults.saturating_add(1);
    }
}

impl<W: Write> Sink for StdSink<W> {
    ghost text = { λ _. None };

    ghost faults = { λ s. s };

    fn put(&mut self, bytes: &[u8]) -> Result<(), SinkFailed>
        ensures counted { OnErr result (self.new ≡ next_count self.old) }
        ensures stays { OnOk result (self.new ≡ self.old) }

        // What every sink promises, where it doesn't tell its text.
        ensures appends { OnOk result (Appends None None bytes.now) }
        ensures prefix { OnErr result (AppendsPrefix None None bytes.now) }
        ensures cause { HasCause self.old self.new (IsErr result) }
    {
        match write_whole(&mut self.writer, bytes) {
            Ok(()) => Ok(()),
            Err(_) => {
                self.fault();
                Err(SinkFailed)
            }
        }
    }
}
