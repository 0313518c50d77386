//! A sink: text that is appended to.
ghost use Rattle.std.specs.Prelude.{◌≡◌, ℕ, List, Option, IsErr, OnOk, OnErr};
ghost use Rattle.shelf_core.specs.Faults.{HasCause};
ghost use Rattle.shelf_core.specs.Texts.{Appends, AppendsPrefix};

use thiserror::Error;

/// The sink failed to take all bytes.
#[derive(Clone, Copy, Debug, PartialEq, Eq, Error)]
#[error("could not write the output")]
pub struct SinkFailed;

/// Text that grows at its end. A sink may tell its text, and it counts its faults.
pub trait Sink {
    ghost text: { Self → Option (List ℕ) };

    ghost faults: { Self → ℕ };

    /// Appends the bytes. After an error some first part of them is appended.
    fn put(&mut self, bytes: &[u8]) -> Result<(), SinkFailed>
        ensures appends { OnOk result (Appends (text self.old) (text self.new) bytes.now) }
        ensures prefix { OnErr result (AppendsPrefix (text self.old) (text self.new) bytes.now) }
        ensures cause { HasCause (faults self.old) (faults self.new) (IsErr result) };
}
