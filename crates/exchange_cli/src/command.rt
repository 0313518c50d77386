//! The commands that the words of a run spell.

ghost use Rattle.std.specs.Prelude.{◌≡◌, map, string_bytes, IfSome, IfNone};
ghost use Rattle.exchange_cli.specs.Words.{Spells, SpellsNone, origin_of};
ghost use Rattle.exchange_cli.specs.Commands.{command_of, lent_origin};

use crate::snapshot_words::read_snapshot;

/// From where a command reads: the name of the mapping, and the prefix of the source's tables.
#[derive(Clone, Copy)]
pub struct Origin<'a> {
    pub mapping: &'a str,
    pub source: &'a str,
}

/// The commands that are built.
#[derive(Clone, Copy)]
pub enum Command<'a> {
    /// `exchange MAPPING SOURCE TARGET`, with the prefix of the target.
    Exchange(Origin<'a>, &'a str),
    /// `normalise MAPPING SOURCE OUT`, with the prefix of what is stored.
    Normalise(Origin<'a>, &'a str),
    /// `snapshot MAPPING SOURCE INSTANT OUT`, with the instant and the prefix of what is stored.
    Snapshot(Origin<'a>, i64, &'a str),
    /// `check MAPPING SOURCE TRACE`, with the name of the trace.
    Check(Origin<'a>, &'a str),
}

impl<'a> Command<'a> {
    /// From where the command reads.
    pub fn origin(&self) -> Origin<'a>
        ensures { lent_origin result ≡ origin_of (command_of self.now) }
    {
        match self {
            Command::Exchange(origin, _) => *origin,
            Command::Normalise(origin, _) => *origin,
            Command::Snapshot(origin, _, _) => *origin,
            Command::Check(origin, _) => *origin,
        }
    }
}

/// The command that the words spell, if they spell one.
pub fn read_words(words: &[String]) -> Option<Command<'_>>
    ensures spelled { IfSome result (λ c. Spells (map string_bytes words.now) (command_of c)) }
    ensures other { IfNone result (SpellsNone (map string_bytes words.now)) }
{
    let [first, mapping, source, last] = words else {
        return read_snapshot(words);
    };
    let origin = Origin {
        mapping: mapping.as_str(),
        source: source.as_str(),
    };
    if first.as_str() == "exchange" {
        return Some(Command::Exchange(origin, last.as_str()));
    }
    if first.as_str() == "normalise" {
        return Some(Command::Normalise(origin, last.as_str()));
    }
    if first.as_str() == "check" {
        return Some(Command::Check(origin, last.as_str()));
    }
    None
}
