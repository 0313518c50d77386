//! The lines that are printed of an exchange.

ghost use Rattle.std.specs.Prelude.{◌≡◌, ◌++◌, decimal, IfOk, OnOk};
ghost use Rattle.exchange_cli.specs.declared.ending.Finding.TheVariants.{Solved, NoSolution};
ghost use Rattle.exchange_cli.specs.Endings.{printed_of};

use itoa::Buffer;
use shelf_core::Bytes;
use std::alloc::Global;
use term_core::{Memory, Text};

/// The line of a solved exchange, with its numbers.
pub fn solved_line(
    alloc: Global,
    pieces: usize,
    firings: usize,
    steps: usize,
    cuts: usize,
) -> Result<Bytes, Memory>
    ensures { IfOk result (λ bytes. bytes ≡ printed_of (Solved pieces firings steps cuts)) }
{
    let mut text = Text::from_str(alloc, "solved: ")?;
    push_count(&mut text, pieces, " source pieces, ")?;
    push_count(&mut text, firings, " firings, ")?;
    push_count(&mut text, steps, " steps, ")?;
    push_count(&mut text, cuts, " cuts")?;
    text.push_str("\n")?;
    Ok(Bytes::from_vec(text.as_bytes().to_vec(alloc)?))
}

// Adds a number, and what stands behind it.
fn push_count(text: &mut Text, count: usize, behind: &str) -> Result<(), Memory>
    ensures { OnOk result (text.new ≡ text.old ++ (decimal count ++ behind.now)) }
{
    text.push_str(Buffer::new().format(count))?;
    text.push_str(behind)
}

/// The line that names an instant that has no solution.
pub fn no_solution_line(alloc: Global, instant: i64) -> Result<Bytes, Memory>
    ensures { IfOk result (λ bytes. bytes ≡ printed_of (NoSolution instant)) }
{
    let mut text = Text::from_str(alloc, "no solution at instant ")?;
    text.push_str(Buffer::new().format(instant))?;
    text.push_str("\n")?;
    Ok(Bytes::from_vec(text.as_bytes().to_vec(alloc)?))
}
