//! Rows of constants, as matches give them.

ghost use Rattle.std.specs.Prelude.{◌≡◌, List, slice_get, IfOk};
ghost use Rattle.std.specs.Option.{IfSome, IfNone};
ghost use Rattle.term_core.specs.declared.term.Term.{Term};
ghost use Rattle.certain_answers.specs.Collected.{IsShown, constant_shown};

use body_match::{Match, Visitor};
use coalescer::Stamped;
use std::alloc::Global;
use term_core::{ConstId, Items, Memory, Seen, Term};

/// The rows so far, and the variables whose values a row has.
#[derive(Drop)]
pub struct Collector<'a> {
    alloc: Global,
    columns: &'a [u32],
    rows: Vec<Stamped>,
}

impl<'a> Collector<'a> {
    /// A collector with rows to go on with.
    pub fn new(alloc: Global, columns: &'a [u32], rows: Vec<Stamped>) -> Collector<'a>
        ensures columns { result.columns.now ≡ columns.now }
        ensures rows { result.rows.items ≡ rows.items }
    {
        Collector {
            alloc,
            columns,
            rows,
        }
    }

    /// All rows.
    pub fn into_rows(self) -> Vec<Stamped>
        ensures { result.items ≡ self.entry.rows.items }
    {
        let Collector { rows, .. } = self;
        rows
    }
}

impl<'a> Visitor for Collector<'a> {
    ghost use Rattle.certain_answers.specs.Collected.{Collects};

    ghost takes = { λ old found new. Collects old found new };

    ghost stops = { λ _. ⊥ };

    fn visit(&mut self, found: &Match) -> Result<bool, Memory> {
        let row = match row_of(self.alloc, self.columns, found.binding.as_slice())? {
            Some(row) => row,
            None => return Ok(true),
        };
        let span = found.span;
        self.rows.push(Stamped { row, span })?;
        Ok(true)
    }
}

// The values of some variables, if all are constants.
fn row_of(alloc: Global, columns: &[u32], values: &[Seen]) -> Result<Option<Items<Term>>, Memory>
    ensures shown { IfOk result (λ row. IfSome row (IsShown columns.now values.now)) }
    ensures hidden { IfOk result (λ row. IfNone row
        ((row : List Term) → ¬ (IsShown columns.now values.now row))) }
{
    let mut row = Items::new(alloc);
    row.room(columns.len())?;
    for column in columns {
        match constant_at(values, *column) {
            Some(constant) => row.push(Term::Const(constant))?,
            None => return Ok(None),
        }
    }
    Ok(Some(row))
}

// The value of a variable, if it is a constant.
fn constant_at(values: &[Seen], variable: u32) -> Option<ConstId>
    ensures { result ≡ constant_shown (slice_get values.now variable) }
{
    match values.get(variable as usize).copied() {
        Some(Seen::Const(constant)) => Some(constant),
        Some(Seen::Piece(_)) | None => None,
    }
}
