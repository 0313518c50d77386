//! Rows over an arena, in which the cells that hold a piece are linked.

ghost use Rattle.std.specs.Prelude.{◌≡◌, ◌≢◌, ℕ, List, ◌+◌, ◌*◌, ◌<◌, ◌≤◌, [], ◌∷◌, ◌++◌, Some, IsSome, All, IfOk, OnOk, length, slice_get};
ghost use Rattle.term_core.specs.declared.term.Seen.TheVariants.{Piece, Const};
ghost use Rattle.fact_table.specs.Rows.{HasCell, head_at, row_at, cell_at};
ghost use Rattle.row_arena.specs.declared.held.TheConstants.{MOST_COLUMNS};
ghost use Rattle.null_store.specs.Changes.{ReplacesCells};
ghost use Rattle.null_store.specs.Lists.{rows_seen, IsOccurrenceList, HasOccurrences, HasRowsOf};
ghost use Rattle.row_arena.specs.Arena.{HasCell as HasCellNumber, cell_in};
ghost use Rattle.null_store.specs.Layout.{HoldsNothing, HasSame, IsPlain, HasPlain, AddsOne, SetsCell, HasSameRoom, CanLink, Links, Leads, IsOther, EndsPiece, PartsPiece, SetsRowSpan, ended, no_cell};

use crate::lists::{rewrite, rows_of};
use crate::piece::{CellList, ListedPiece, NamedPiece};
use fact_table::RowHead;
use row_arena::RowArena;
use std::alloc::Global;
use std::marker::Model;
use std::sync::ledger::Ledger;
use term_core::{ConstId, Items, Memory, Seen, Steps};
use time_line::Span;

/// Rows and pieces, and for each piece the list of the cells that hold it.
#[derive(Drop)]
pub struct LinkedRows {
    arena: RowArena,
    pieces: Vec<ListedPiece>,
}

impl Model for LinkedRows {
    ghost use Rattle.std.specs.Prelude.{◌-◌, map, vec_capacity, vec_len};
    ghost use Rattle.null_store.specs.declared.piece.ListedPiece.{ListedPiece};
    ghost use Rattle.row_arena.specs.Arena.{cell_in};
    ghost use Rattle.null_store.specs.Lists.{AreListed};
    ghost use Rattle.null_store.specs.Layout.{LinkedArena, linked_of};

    ghost Value = { LinkedArena };

    ghost view = { λ s. linked_of s.arena s.pieces.items (vec_capacity s.pieces - vec_len s.pieces) };

    ghost invariant = { λ s. AreListed (cell_in s.arena) (map (λ (p : ListedPiece). p.list) s.pieces.items) };
}

impl LinkedRows {
    /// No row and no piece.
    pub fn new(alloc: Global) -> LinkedRows
        ensures { HoldsNothing result }
    {
        LinkedRows {
            arena: RowArena::new(alloc),
            pieces: Vec::new(alloc),
        }
    }

    /// Takes memory for so many more rows, cells and pieces.
    pub fn reserve(&mut self, rows: usize, cells: usize, pieces: usize) -> Result<(), Memory>
        ensures same { HasSame self.old self.new }
        ensures rows { OnOk result (rows ≤ self.new.arena.spare_rows) }
        ensures cells { OnOk result (cells ≤ self.new.arena.spare_cells) }
        ensures pieces { OnOk result (pieces ≤ self.new.room) }
    {
        self.arena.reserve(rows, cells)?;
        self.pieces.reserve(pieces)?;
        Ok(())
    }

    /// The rows and their cells.
    pub fn arena(&self) -> &RowArena
        ensures arena { result.now ≡ self.now.arena }
        ensures lists { (piece : ℕ) → piece < length self.now.pieces
            → (ids : List ℕ) × IsOccurrenceList (cell_in result.now) piece ids }
    {
        &self.arena
    }

    /// How many cells hold a piece.
    pub fn occurrences(&self, piece: usize) -> usize
        requires { piece < length self.now.pieces }
        ensures { HasOccurrences (rows_seen self.now.arena) piece result }
    {
        self.arena.is_kept();
        self.pieces[piece].list.count
    }

    /// The row of each cell that holds a piece, in the order of the piece's list. It takes a step
    /// a cell.
    pub fn occurrence_rows<L: Ledger>(
        &self,
        alloc: Global,
        piece: usize,
        steps: &mut Steps<L>,
    ) -> Result<Items<usize>, Memory>
        requires { piece < length self.now.pieces }
        ensures rows { IfOk result (λ rows. HasRowsOf (rows_seen self.now.arena) piece rows) }
        ensures steps { IfOk result (λ rows. steps.new ≡ steps.old + length rows) }
    {
        self.arena.is_kept();
        rows_of(alloc, &self.arena, self.pieces[piece].list, steps)
    }

    /// Writes a constant, or another piece, to each cell that holds a piece, which ends. It takes
    /// at most a step, and two a cell.
    pub fn substitute<L: Ledger>(&mut self, piece: usize, by: Seen, steps: &mut Steps<L>)
        requires piece { piece < length self.old.pieces }
        requires other { IsOther (length self.old.pieces) piece by }
        ensures cells { ReplacesCells (rows_seen self.old.arena) (rows_seen self.new.arena) piece
            by }
        ensures pieces { EndsPiece self.old.pieces self.new.pieces piece }
        ensures room { HasSameRoom self.old self.new }
        ensures steps { (n : ℕ) × HasOccurrences (rows_seen self.old.arena) piece n
            × (steps.new ≤ steps.old + 1 + 2 * n) }
    {
        match by {
            Seen::Const(constant) => self.fix(piece, constant, steps),
            Seen::Piece(other) => self.join(piece, other, steps),
        }
    }

    // Writes a constant to each cell that holds a piece, which ends.
    fn fix<L: Ledger>(&mut self, piece: usize, constant: ConstId, steps: &mut Steps<L>)
        requires { piece < length self.old.pieces }
        ensures cells { ReplacesCells (rows_seen self.old.arena) (rows_seen self.new.arena) piece
            (Const constant) }
        ensures pieces { EndsPiece self.old.pieces self.new.pieces piece }
        ensures room { HasSameRoom self.old self.new }
        ensures steps { (n : ℕ) × HasOccurrences (rows_seen self.old.arena) piece n
            × (steps.new ≤ steps.old + 1 + 2 * n) }
    {
        self.arena.is_kept();
        let listed = self.pieces[piece];
        rewrite(
            &mut self.arena,
            listed.list,
            Seen::Const(constant),
            None,
            steps,
        );
        self.pieces[piece] = end(listed.named);
    }

    // Writes another piece to each cell that holds a piece, which ends. The cells stand behind
    // those of the other piece.
    fn join<L: Ledger>(&mut self, piece: usize, other: usize, steps: &mut Steps<L>)
        requires piece { piece < length self.old.pieces }
        requires other { other < length self.old.pieces }
        requires differ { other ≢ piece }
        ensures cells { ReplacesCells (rows_seen self.old.arena) (rows_seen self.new.arena) piece
            (Piece other) }
        ensures pieces { EndsPiece self.old.pieces self.new.pieces piece }
        ensures room { HasSameRoom self.old self.new }
        ensures steps { (n : ℕ) × HasOccurrences (rows_seen self.old.arena) piece n
            × (steps.new ≤ steps.old + 1 + 2 * n) }
    {
        self.arena.is_kept();
        let _bound = self.arena.cell_bound();
        let listed = self.pieces[piece];
        let front = self.pieces[other];
        let list = CellList {
            first: front.list.first.or(listed.list.first),
            last: listed.list.last.or(front.list.last),
            count: front.list.count + listed.list.count,
        };
        lead(&mut self.arena, front.list.last, listed.list.first, steps);
        rewrite(
            &mut self.arena,
            listed.list,
            Seen::Piece(other),
            front.list.last,
            steps,
        );
        self.pieces[other] = ListedPiece {
            named: front.named,
            list,
        };
        self.pieces[piece] = end(listed.named);
    }

    /// How many pieces there are.
    pub fn len(&self) -> usize
        ensures { result ≡ length self.now.pieces }
    {
        self.pieces.len()
    }

    /// A piece.
    pub fn piece(&self, piece: usize) -> NamedPiece
        requires { piece < length self.now.pieces }
        ensures { slice_get self.now.pieces piece ≡ Some result }
    {
        self.pieces[piece].named
    }

    /// Adds a piece that no cell holds, in the spare room.
    pub fn add_piece(&mut self, named: NamedPiece)
        requires { 0 < self.old.room }
        ensures arena { self.new.arena ≡ self.old.arena }
        ensures pieces { self.new.pieces ≡ self.old.pieces ++ named ∷ [] }
        ensures room { self.new.room + 1 ≡ self.old.room }
    {
        let list = CellList {
            first: None,
            last: None,
            count: 0,
        };
        self.pieces.push_reserved(ListedPiece { named, list });
    }

    /// Writes the span of a row.
    pub fn set_span(&mut self, row: usize, span: Span)
        requires { IsSome (row_at (rows_seen self.old.arena) row) }
        ensures sets { SetsRowSpan (rows_seen self.old.arena) (rows_seen self.new.arena) row span }
        ensures room { HasSameRoom self.old self.new }
        ensures pieces { self.new.pieces ≡ self.old.pieces }
    {
        self.arena.set_span(row, span);
    }

    /// Lets a piece have the one span, and a new piece that no cell holds the other, in the spare
    /// room. Gives the new piece.
    pub fn split_piece(&mut self, piece: usize, before: Span, after: Span) -> usize
        requires piece { piece < length self.old.pieces }
        requires room { 0 < self.old.room }
        ensures twin { result ≡ length self.old.pieces }
        ensures pieces { PartsPiece self.old.pieces self.new.pieces piece before after }
        ensures arena { self.new.arena ≡ self.old.arena }
        ensures room { self.new.room + 1 ≡ self.old.room }
    {
        let twin = self.len();
        let listed = self.pieces[piece];
        let named = NamedPiece {
            name: listed.named.name,
            var: listed.named.var,
            span: before,
            live: listed.named.live,
            twin,
        };
        self.pieces[piece] = ListedPiece {
            named,
            list: listed.list,
        };
        self.add_piece(NamedPiece {
            name: listed.named.name,
            var: listed.named.var,
            span: after,
            live: listed.named.live,
            twin: 0,
        });
        twin
    }

    /// Adds a row of these constants, in the spare room, and gives its number.
    pub fn add_row(&mut self, relation: u32, span: Span, values: &[Seen]) -> usize
        requires row { 0 < self.old.arena.spare_rows }
        requires cells { length values.now ≤ self.old.arena.spare_cells }
        requires few { length values.now ≤ MOST_COLUMNS }
        requires plain { All IsPlain values.now }
        ensures adds { AddsOne (rows_seen self.old.arena) (rows_seen self.new.arena) result
            (record { relation = relation; cells = values.now; span = span }) }
        ensures rows { self.new.arena.spare_rows + 1 ≡ self.old.arena.spare_rows }
        ensures cells { self.new.arena.spare_cells + length values.now
            ≡ self.old.arena.spare_cells }
        ensures pieces { self.new.pieces ≡ self.old.pieces }
        ensures room { self.new.room ≡ self.old.room }
    {
        self.arena.is_kept();
        let row = self.arena.add_row(relation, span, values);
        self.arena.is_kept();
        row
    }

    /// Writes a constant to a cell that holds one. It takes a step.
    pub fn put<L: Ledger>(
        &mut self,
        row: usize,
        column: usize,
        constant: ConstId,
        steps: &mut Steps<L>,
    )
        requires { HasPlain (rows_seen self.old.arena) row column }
        ensures sets { SetsCell (rows_seen self.old.arena) (rows_seen self.new.arena) row column
            (Const constant) }
        ensures room { HasSameRoom self.old self.new }
        ensures pieces { self.new.pieces ≡ self.old.pieces }
        ensures step { steps.new ≡ steps.old + 1 }
    {
        self.arena.is_kept();
        let id = self.arena.cell_at(row, column);
        self.arena
            .put_cell(id, Seen::Const(constant), None, None, steps);
    }

    /// Writes a piece to a cell that holds a constant, and links the cell. It takes at most two
    /// steps.
    pub fn hold<L: Ledger>(&mut self, row: usize, column: usize, piece: usize, steps: &mut Steps<L>)
        requires cell { HasPlain (rows_seen self.old.arena) row column }
        requires piece { piece < length self.old.pieces }
        ensures sets { SetsCell (rows_seen self.old.arena) (rows_seen self.new.arena) row column
            (Piece piece) }
        ensures room { HasSameRoom self.old self.new }
        ensures pieces { self.new.pieces ≡ self.old.pieces }
        ensures steps { steps.new ≤ steps.old + 2 }
    {
        self.arena.is_kept();
        let _bound = self.arena.cell_bound();
        let id = self.arena.cell_at(row, column);
        let listed = self.pieces[piece];
        let (named, list) = (listed.named, listed.list);
        let list = CellList {
            first: list.first.or(Some(id)),
            last: Some(id),
            count: list.count + 1,
        };
        link(&mut self.arena, id, piece, listed.list.last, steps);
        self.pieces[piece] = ListedPiece { named, list };
    }

    /// Above the number of each row.
    pub fn bound(&self) -> usize
        ensures { result ≡ length (rows_seen self.now.arena) }
    {
        self.arena.bound()
    }

    /// The head of a row, if there is one with the number.
    pub fn head(&self, row: usize) -> Option<RowHead>
        ensures { result ≡ head_at (rows_seen self.now.arena) row }
    {
        let head = self.arena.head(row)?;
        Some(RowHead {
            relation: head.relation,
            arity: head.arity,
            span: head.span,
        })
    }

    /// A cell of a row. It takes a step.
    pub fn cell<L: Ledger>(&self, row: usize, column: usize, steps: &mut Steps<L>) -> Seen
        requires { HasCell (rows_seen self.now.arena) row column }
        ensures value { cell_at (rows_seen self.now.arena) row column ≡ Some result }
        ensures step { steps.new ≡ steps.old + 1 }
    {
        let id = self.arena.cell_at(row, column);
        self.arena.cell(id, steps).value
    }
}

// Writes a piece to a cell, which stands behind the last cell of the piece.
fn link<L: Ledger>(
    arena: &mut RowArena,
    id: usize,
    piece: usize,
    last: Option<usize>,
    steps: &mut Steps<L>,
)
    requires { CanLink arena.old id last }
    ensures links { Links arena.old arena.new id piece last }
    ensures steps { steps.new ≤ steps.old + 2 }
{
    if let Some(last) = last {
        arena.link_after(last, Some(id), steps);
    }
    arena.put_cell(id, Seen::Piece(piece), last, None, steps);
}

// Lets the last cell of a list, if there is one, lead to another cell.
fn lead<L: Ledger>(
    arena: &mut RowArena,
    last: Option<usize>,
    next: Option<usize>,
    steps: &mut Steps<L>,
)
    requires { (id : ℕ) → last ≡ Some id → HasCellNumber arena.old id }
    ensures leads { Leads arena.old arena.new last next }
    ensures steps { steps.new ≤ steps.old + 1 }
{
    if let Some(last) = last {
        arena.link_after(last, next, steps);
    }
}

// The piece when it has ended, which no cell holds.
fn end(named: NamedPiece) -> ListedPiece
    ensures named { result.named ≡ ended named }
    ensures list { result.list ≡ no_cell }
{
    ListedPiece {
        named: NamedPiece {
            name: named.name,
            var: named.var,
            span: named.span,
            live: false,
            twin: named.twin,
        },
        list: CellList {
            first: None,
            last: None,
            count: 0,
        },
    }
}
