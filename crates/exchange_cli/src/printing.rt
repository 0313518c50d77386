//! The line that is printed of what was found.

ghost use Rattle.std.specs.Prelude.{◌≡◌, ◌++◌, codes, decimal, IfOk};
ghost use Rattle.std.specs.Fmt.{signed_decimal};
ghost use Rattle.exchange_cli.specs.Endings.{line, printed_of};

use crate::ending::Finding;
use crate::exchange_lines::{no_solution_line, solved_line};
use crate::verdict_texts::verdict_line;
use itoa::Buffer;
use shelf_core::Bytes;
use std::alloc::Global;
use term_core::{Memory, Text};

/// The line that is printed of what was found.
pub fn printed_line(alloc: Global, finding: Finding) -> Result<Bytes, Memory>
    ensures { IfOk result (λ bytes. bytes ≡ printed_of finding) }
{
    match finding {
        Finding::Solved {
            pieces,
            firings,
            steps,
            cuts,
        } => solved_line(alloc, pieces, firings, steps, cuts),
        Finding::NoSolution { instant } => no_solution_line(alloc, instant),
        Finding::Normalised { facts, pieces } => {
            counts_line(alloc, "normalised: ", facts, " facts, ", pieces, " pieces")
        }
        Finding::Shown { instant, rows } => shown_line(alloc, instant, rows),
        Finding::Checked(verdict) => verdict_line(alloc, verdict),
    }
}

// A line of two numbers, with what stands before, between and behind them.
fn counts_line(
    alloc: Global,
    before: &str,
    first: usize,
    between: &str,
    second: usize,
    behind: &str,
) -> Result<Bytes, Memory>
    ensures { IfOk result (λ bytes. bytes
        ≡ line (before.now ++ decimal first ++ between.now ++ decimal second ++ behind.now)) }
{
    let mut text = Text::from_str(alloc, before)?;
    text.push_str(Buffer::new().format(first))?;
    text.push_str(between)?;
    text.push_str(Buffer::new().format(second))?;
    text.push_str(behind)?;
    text.push_str("\n")?;
    Ok(Bytes::from_vec(text.as_bytes().to_vec(alloc)?))
}

// The line of a snapshot: its instant, and the number of its rows.
fn shown_line(alloc: Global, instant: i64, rows: usize) -> Result<Bytes, Memory>
    ensures { IfOk result (λ bytes. bytes
        ≡ line (codes "snapshot at " ++ signed_decimal instant ++ codes ": " ++ decimal rows ++ codes " rows")) }
{
    let mut text = Text::from_str(alloc, "snapshot at ")?;
    text.push_str(Buffer::new().format(instant))?;
    text.push_str(": ")?;
    text.push_str(Buffer::new().format(rows))?;
    text.push_str(" rows")?;
    text.push_str("\n")?;
    Ok(Bytes::from_vec(text.as_bytes().to_vec(alloc)?))
}
