//! The one call that the program makes.

ghost use Rattle.std.specs.Prelude.{◌≡◌, map, string_bytes};
ghost use Rattle.exchange_cli.specs.Words.{SpellsNone};
ghost use Rattle.exchange_cli.specs.Run.{device, seen, Causes, Ends, Says};
ghost use Rattle.exchange_cli.specs.Endings.{line_of};
ghost use Rattle.exchange_cli.specs.Headline.{WordsClause, AnswerClause, RefusalClause, CompletesClause, OutputClause, StoreClause, StatusClause, TargetClause, AnswersClause, CountsClause, CertificateClause, PiecesClause, SnapshotClause, CheckClause};

use crate::command::read_words;
use crate::delivery::deliver;
use crate::ending::Ending;
use crate::inputs::read_inputs;
use crate::laws::{there_is_one_first_refusal, what_is_read_is_not_refused, what_is_read_is_one};
use crate::making::make;
use crate::reporting::report;
use shelf_core::{Shelf, Sink};
use std::alloc::Global;

/// Runs the command that the words spell and answers the status with which the program ends: 0 where it is done,
/// 1 where an input is refused, 2 where some instant has no solution, 3 where a fetch, a store or the output failed, 4 where
/// there was no memory, 5 where the words are no command's, and 6 where a trace isn't accepted. The words come without the
/// program's name.
pub fn run<S: Shelf, O: Sink, E: Sink>(
    alloc: Global,
    words: &Vec<String>,
    shelf: &mut S,
    out: &mut O,
    err: &mut E,
) -> u8
    // How it ends, by the step that it came to, and what is said of that.
    ensures ends { Ends (map string_bytes words.now.items)
        (seen S.holds S.faults O.text O.faults shelf.old out.old)
        (seen S.holds S.faults O.text O.faults shelf.new out.new)
        (device (E.text err.old) (E.faults err.old))
        (device (E.text err.new) (E.faults err.new)) result }

    // Words that spell no command.
    ensures words { WordsClause (map string_bytes words.now.items)
        (seen S.holds S.faults O.text O.faults shelf.old out.old)
        (seen S.holds S.faults O.text O.faults shelf.new out.new)
        (device (E.text err.old) (E.faults err.old))
        (device (E.text err.new) (E.faults err.new)) result }
    ensures untouched { SpellsNone (map string_bytes words.now.items) → shelf.new ≡ shelf.old }

    // The clauses of every command.
    ensures answer { AnswerClause (map string_bytes words.now.items) result }
    ensures refusals { RefusalClause (map string_bytes words.now.items)
        (seen S.holds S.faults O.text O.faults shelf.old out.old)
        (seen S.holds S.faults O.text O.faults shelf.new out.new)
        (device (E.text err.old) (E.faults err.old))
        (device (E.text err.new) (E.faults err.new)) result }
    ensures completes { CompletesClause (map string_bytes words.now.items)
        (seen S.holds S.faults O.text O.faults shelf.old out.old)
        (seen S.holds S.faults O.text O.faults shelf.new out.new) result }
    ensures output { OutputClause (map string_bytes words.now.items)
        (device (O.text out.old) (O.faults out.old))
        (device (O.text out.new) (O.faults out.new)) result }
    ensures stores { StoreClause (map string_bytes words.now.items)
        (seen S.holds S.faults O.text O.faults shelf.old out.old)
        (seen S.holds S.faults O.text O.faults shelf.new out.new) result }

    // The clauses of `exchange`.
    ensures status { StatusClause (map string_bytes words.now.items)
        (seen S.holds S.faults O.text O.faults shelf.old out.old)
        (seen S.holds S.faults O.text O.faults shelf.new out.new) result }
    ensures target { TargetClause (map string_bytes words.now.items)
        (seen S.holds S.faults O.text O.faults shelf.old out.old)
        (seen S.holds S.faults O.text O.faults shelf.new out.new) result }
    ensures answers { AnswersClause (map string_bytes words.now.items)
        (seen S.holds S.faults O.text O.faults shelf.old out.old)
        (seen S.holds S.faults O.text O.faults shelf.new out.new) result }
    ensures counts { CountsClause (map string_bytes words.now.items)
        (seen S.holds S.faults O.text O.faults shelf.old out.old)
        (seen S.holds S.faults O.text O.faults shelf.new out.new) result }
    ensures certificate { CertificateClause (map string_bytes words.now.items)
        (seen S.holds S.faults O.text O.faults shelf.old out.old)
        (seen S.holds S.faults O.text O.faults shelf.new out.new) result }

    // The clause of `normalise`.
    ensures pieces { PiecesClause (map string_bytes words.now.items)
        (seen S.holds S.faults O.text O.faults shelf.old out.old)
        (seen S.holds S.faults O.text O.faults shelf.new out.new) result }

    // The clause of `snapshot`.
    ensures snapshot { SnapshotClause (map string_bytes words.now.items)
        (seen S.holds S.faults O.text O.faults shelf.old out.old)
        (seen S.holds S.faults O.text O.faults shelf.new out.new) result }

    // The clause of `check`.
    ensures checks { CheckClause (map string_bytes words.now.items)
        (seen S.holds S.faults O.text O.faults shelf.old out.old)
        (seen S.holds S.faults O.text O.faults shelf.new out.new) result }
{
    what_is_read_is_one();
    what_is_read_is_not_refused();
    there_is_one_first_refusal();
    let ending = work(alloc, words.as_slice(), shelf, out);
    report(err, &ending);
    ending.status()
}

/// Ends as `run` does for want of memory, for a program that has no memory for its words.
pub fn end_without_memory<E: Sink>(err: &mut E) -> u8
    ensures status { result ≡ 4 }
    ensures line { Says (device (E.text err.old) (E.faults err.old))
        (device (E.text err.new) (E.faults err.new)) (line_of Ending.Memory) }
{
    let ending = Ending::Memory;
    report(err, &ending);
    ending.status()
}

// All but the line on the standard error.
fn work<S: Shelf, O: Sink>(alloc: Global, words: &[String], shelf: &mut S, out: &mut O) -> Ending
    ensures causes { Causes (map string_bytes words.now)
        (seen S.holds S.faults O.text O.faults shelf.old out.old)
        (seen S.holds S.faults O.text O.faults shelf.new out.new) result }
    ensures untouched { SpellsNone (map string_bytes words.now) → shelf.new ≡ shelf.old }
{
    let Some(command) = read_words(words) else {
        return Ending::Words;
    };
    let inputs = match read_inputs(alloc, shelf, &command) {
        Ok(inputs) => inputs,
        Err(ending) => return ending,
    };
    match make(alloc, &command, inputs) {
        Ok(product) => deliver(product, shelf, out),
        Err(_) => Ending::Memory,
    }
}
