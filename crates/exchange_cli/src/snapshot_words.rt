//! The words of `snapshot`.

ghost use Rattle.std.specs.Prelude.{◌≡◌, ℤ, ℕ, List, map, string_bytes, IfSome, IfNone};
ghost use Rattle.exchange_cli.specs.Words.{Origin as SpelledOrigin, Snapshot, Spells};
ghost use Rattle.exchange_cli.specs.Commands.{command_of};

use crate::command::{Command, Origin};
use time_line::read_instant;

/// The command `snapshot`, if the words spell it.
pub fn read_snapshot(words: &[String]) -> Option<Command<'_>>
    ensures spelled { IfSome result (λ c. Spells (map string_bytes words.now) (command_of c)) }
    ensures other { IfNone result ((origin : SpelledOrigin) (t : ℤ) (out : List ℕ)
        → ¬ (Spells (map string_bytes words.now) (Snapshot origin t out))) }
{
    let [first, mapping, source, instant, out] = words else {
        return None;
    };
    if first.as_str() != "snapshot" {
        return None;
    }
    let Ok(t) = read_instant(instant.as_bytes()) else {
        return None;
    };
    let origin = Origin {
        mapping: mapping.as_str(),
        source: source.as_str(),
    };
    Some(Command::Snapshot(origin, t, out.as_str()))
}
