//! A shelf: named entries that can be fetched and stored.
ghost use Rattle.std.specs.Prelude.{◌≡◌, ℕ, Option, IfOk, IsErr, OnOk, OnErr, Err};
ghost use Rattle.shelf_core.specs.declared.shelf.FetchError.TheVariants.{Memory};
ghost use Rattle.shelf_core.specs.Faults.{HasCause};
ghost use Rattle.shelf_core.specs.Fetching.{IsWithin, Shows};
ghost use Rattle.shelf_core.specs.Held.{Held, Sets, OthersStay};

use crate::bytes::Bytes;
use std::alloc::{AllocError, Global};
use thiserror::Error;

/// What a fetch found.
#[derive(Debug, Drop)]
pub enum Fetched {
    /// The entry.
    Bytes(Bytes),
    /// There is no entry of that name.
    Missing,
    /// The entry is longer than the limit.
    TooLong,
}

/// Why a fetch found nothing out.
#[derive(Clone, Copy, Debug, PartialEq, Eq, Error)]
pub enum FetchError {
    /// The shelf failed.
    #[error("could not read the entry")]
    Failed,
    /// There was no memory for the entry.
    #[error("out of memory")]
    Memory,
}

impl From<AllocError> for FetchError {
    ghost from_gives = { λ _ e. e ≡ Memory };

    fn from(_error: AllocError) -> FetchError {
        FetchError::Memory
    }
}

/// The shelf failed to store an entry.
#[derive(Clone, Copy, Debug, PartialEq, Eq, Error)]
#[error("could not store the entry")]
pub struct StoreFailed;

/// Named entries. A shelf may tell what it holds, and it counts its faults.
pub trait Shelf {
    ghost holds: { Self → Option Held };

    ghost faults: { Self → ℕ };

    /// Fetches the entry of that name, where it has at most `limit` bytes.
    fn fetch(&mut self, alloc: Global, name: &str, limit: usize) -> Result<Fetched, FetchError>
        ensures same { holds self.new ≡ holds self.old }
        ensures bound { IfOk result (IsWithin limit) }
        ensures shows { Shows (holds self.old) name.now limit result }
        ensures cause { HasCause (faults self.old) (faults self.new)
            (result ≡ Err FetchError.Failed) };

    /// Sets the entry of that name. After an error that entry may be anything.
    fn store(&mut self, name: &str, bytes: &[u8]) -> Result<(), StoreFailed>
        ensures sets { OnOk result (Sets (holds self.old) (holds self.new) name.now bytes.now) }
        ensures others { OnErr result (OthersStay (holds self.old) (holds self.new) name.now) }
        ensures cause { HasCause (faults self.old) (faults self.new) (IsErr result) };
}
