//! Fetches a file that a command needs.

ghost use Rattle.std.specs.Prelude.{◌≡◌, ◌≤◌, IfOk, IfErr, length};
ghost use Rattle.exchange_cli.specs.Run.{device};
ghost use Rattle.exchange_cli.specs.Steps.{AnswersWith, FailsToFetch, Keeps};

use crate::ending::Ending;
use shelf_core::{Bytes, FetchError, Fetched, Shelf};
use std::alloc::Global;
use term_core::Text;

/// The bytes of that name, where there are at most `limit`, or how the run ends.
pub fn fetch<S: Shelf>(
    alloc: Global,
    shelf: &mut S,
    name: &Text,
    limit: usize,
) -> Result<Bytes, Ending>
    ensures keeps { Keeps (device (S.holds shelf.old) (S.faults shelf.old))
        (device (S.holds shelf.new) (S.faults shelf.new)) }
    ensures gives { IfOk result (AnswersWith (S.holds shelf.old) name.now limit) }
    ensures bound { IfOk result (λ bytes. length bytes ≤ limit) }
    ensures fails { IfErr result (FailsToFetch (device (S.holds shelf.old) (S.faults shelf.old))
        (device (S.holds shelf.new) (S.faults shelf.new)) name.now limit) }
{
    match shelf.fetch(alloc, name.as_str(), limit) {
        Ok(Fetched::Bytes(bytes)) => Ok(bytes),
        Ok(Fetched::Missing) => Err(Ending::Missing(Text::from_str(alloc, name.as_str())?)),
        Ok(Fetched::TooLong) => Err(Ending::TooLong(Text::from_str(alloc, name.as_str())?)),
        Err(FetchError::Failed) => Err(Ending::Read(Text::from_str(alloc, name.as_str())?)),
        Err(FetchError::Memory) => Err(Ending::Memory),
    }
}
