//! The cells of a stored table, and their texts.

ghost use Rattle.std.specs.Prelude.{◌≡◌, ◌<◌, ◌^◌, ◌∷◌, ◌++◌, IfOk, OnOk, IfSome, IsSome, string_bytes};
ghost use Rattle.std.specs.Bool.{OnTrue, OnFalse};
ghost use Rattle.std.specs.Fmt.{decimal};
ghost use Rattle.temporal_csv.specs.Cells.{term_of};
ghost use Rattle.temporal_csv.specs.Stored.{cell_text, mark, stored_constant};
ghost use Rattle.temporal_csv.specs.TableWriter.{FitsWord};

use std::alloc::{AllocError, Global};
use term_core::{Memory, Text};

/// The byte that marks an unknown, and that is doubled where a constant begins with it.
const MARK: u8 = b'?';

/// A cell of a row that is stored. Its text is not its own, so that a table takes no memory for texts.
#[derive(Clone, Copy, Debug)]
pub enum Cell<'a> {
    /// A constant, by its text.
    Const(&'a str),
    /// An unknown, by its number.
    Null(u64),
}

/// The text of a cell as it is stored: a constant's own, with one more `?` in front where it begins with `?`, and `?`
/// with its number for an unknown.
pub fn cell_text(alloc: Global, cell: &Cell<'_>) -> Result<Text, Memory>
    ensures { IfOk result (λ text. text ≡ cell_text (term_of cell.now)) }
{
    let mut text = String::new(alloc);
    append_cell(&mut text, cell)?;
    Ok(Text::from_str(alloc, text.as_str())?)
}

/// A constant's own text, where it is stored as it is.
pub fn own_text<'a>(cell: &Cell<'a>) -> Option<&'a str>
    ensures text { IfSome result (λ text. text.now ≡ cell_text (term_of cell.now)) }
    ensures fits { IsSome result → FitsWord (term_of cell.now) }
{
    match cell {
        Cell::Const(constant) if !begins_with_mark(constant) => Some(*constant),
        _ => None,
    }
}

/// Adds the text of a cell.
pub fn append_cell(text: &mut String, cell: &Cell<'_>) -> Result<(), AllocError>
    ensures text { OnOk result (string_bytes text.new
        ≡ string_bytes text.old ++ cell_text (term_of cell.now)) }
    ensures fits { FitsWord (term_of cell.now) }
{
    match cell {
        Cell::Const(constant) => append_constant(text, constant),
        Cell::Null(number) => append_unknown(text, *number),
    }
}

// Adds the mark and the number of an unknown.
fn append_unknown(text: &mut String, number: u64) -> Result<(), AllocError>
    ensures text { OnOk result (string_bytes text.new
        ≡ string_bytes text.old ++ mark ∷ decimal number) }
    ensures fits { number < 2 ^ 64 }
{
    write!(text, "?{number}")
}

// Adds a constant as it is stored.
fn append_constant(text: &mut String, constant: &str) -> Result<(), AllocError>
    ensures { OnOk result (string_bytes text.new
        ≡ string_bytes text.old ++ stored_constant constant.now) }
{
    if begins_with_mark(constant) {
        text.push_str("?")?;
    }
    text.push_str(constant)
}

// Whether a constant is stored with one more mark in front.
fn begins_with_mark(constant: &str) -> bool
    ensures doubled { OnTrue result (stored_constant constant.now ≡ mark ∷ constant.now) }
    ensures own { OnFalse result (stored_constant constant.now ≡ constant.now) }
{
    constant.as_bytes().first() == Some(&MARK)
}
