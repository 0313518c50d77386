//! A piece as a store holds it.

use time_line::Span;

/// An unknown by the number of its name and the place of its variable, and the span over which
/// cells hold it.
#[derive(Clone, Copy, Debug)]
pub struct NamedPiece {
    /// The number of the name.
    pub name: usize,
    /// The place of the variable among the `exists` variables.
    pub var: u32,
    /// The span.
    pub span: Span,
    /// Whether the piece has not ended.
    pub live: bool,
    /// The piece that got the later part of the span when it was cut last, else 0.
    pub twin: usize,
}

/// The list of the cells that hold a piece.
#[derive(Clone, Copy, Debug)]
pub struct CellList {
    /// The number of the first cell.
    pub first: Option<usize>,
    /// The number of the last cell.
    pub last: Option<usize>,
    /// How many cells there are.
    pub count: usize,
}

/// A piece, and the list of its cells.
#[derive(Clone, Copy, Debug)]
pub struct ListedPiece {
    /// The piece.
    pub named: NamedPiece,
    /// Its cells.
    pub list: CellList,
}
