//! What the facts of a store give.

ghost use Rattle.std.specs.Prelude.{◌≡◌, ◌↔◌, ℕ, Some, Contains};
ghost use Rattle.time_line.specs.Span.{Meet};
ghost use Rattle.term_core.specs.declared.term.Seen.{Seen};
ghost use Rattle.fact_table.specs.Rows.{SeenRow, row_at};
ghost use Rattle.null_store.specs.Store.{Store, IsStore, PieceOf, piece_at, term_in};

/// Cells of rows with an instant in common hold one term exactly where they are the same: where
/// both hold an unknown, it is one unknown exactly where they hold one piece. So two live pieces
/// whose spans meet are of one unknown exactly where they are one piece.
pub fn one_unknown_is_one_piece()
    ensures cells { (store : Store) → IsStore store → (j k : ℕ) (a b : SeenRow) (x y : Seen)
        → row_at store.rows j ≡ Some a → row_at store.rows k ≡ Some b → Meet a.span b.span
        → Contains a.cells x → Contains b.cells y
        → (term_in store x ≡ term_in store y) ↔ (x ≡ y) }
    ensures pieces { (store : Store) → IsStore store → (m n : ℕ) (a b : PieceOf)
        → piece_at store m ≡ Some a → piece_at store n ≡ Some b → Meet a.span b.span
        → (a.unknown ≡ b.unknown) ↔ (m ≡ n) }
{}
