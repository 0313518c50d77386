//! The replacement of the one side of an equality by the other.

ghost use Rattle.std.specs.Prelude.{◌≡◌, ℕ, All, Contains, IfOk, OnOk};
ghost use Rattle.time_line.specs.Span.{Ends};
ghost use Rattle.term_core.specs.declared.const_id.ConstId.{ConstId};
ghost use Rattle.rule_core.specs.Terms.{TermOf};
ghost use Rattle.fact_table.specs.Rows.{row_at};
ghost use Rattle.egd_chase.specs.Replacing.{AreValuesOf, IsChoice};
ghost use Rattle.egd_chase.specs.Search.{HaveSpans};
ghost use Rattle.egd_chase.specs.Shared.{KeepsShared};
ghost use Rattle.egd_chase.specs.Sides.{AreFitted, CanBeEqual, Replaces};

use crate::sides::Side;
use fact_table::FactSource;
use null_store::NullStore;
use std::sync::ledger::Ledger;
use term_core::{Items, Memory, Seen, Steps};

/// Replaces the greater of two unknowns, or the unknown beside a constant, in all cells of its piece. The numbers of the rows that
/// changed are given, and behind them those of `made`.
pub fn replace<L: Ledger>(
    store: &mut NullStore,
    left: Side,
    right: Side,
    made: &[usize],
    steps: &mut Steps<L>,
) -> Result<Items<usize>, Memory>
    requires { (l r : TermOf ConstId) × (c : Ends) × AreFitted store.old l r c left right × CanBeEqual l r }
    ensures replaces { (l r : TermOf ConstId) (c : Ends) → AreFitted store.old l r c left right → CanBeEqual l r
        → OnOk result (Replaces l r c store.old store.new) }
    ensures others { IfOk result (λ rows. (number : ℕ) → ¬ (Contains rows number)
        → row_at store.new.rows number ≡ row_at store.old.rows number) }
    ensures made { IfOk result (λ rows. All (Contains rows) made.now) }
    ensures shared { IfOk result (λ rows. KeepsShared rows store.old.rows store.new.rows) }
    ensures spans { OnOk result (HaveSpans store.old.rows → HaveSpans store.new.rows) }
{
    store.is_kept();
    let left = store.cell(left.row, left.column, steps);
    let right = store.cell(right.row, right.column, steps);
    let choice = choice_of(store, left, right);
    let mut rows = store.occurrence_rows(choice.piece, steps)?.into_vec();
    rows.extend_from_slice(made)?;
    store.substitute(choice.piece, choice.by, steps);
    Ok(Items::from_vec(rows))
}

// A piece, and the value that is to stand for it.
#[derive(Clone, Copy)]
struct Choice {
    piece: usize,
    by: Seen,
}

// What is to be replaced where the values of two cells are made equal.
fn choice_of(store: &NullStore, left: Seen, right: Seen) -> Choice
    requires { (l r : TermOf ConstId) × (c : Ends) × AreValuesOf store.now l r c left right × CanBeEqual l r }
    ensures { (l r : TermOf ConstId) (c : Ends) → AreValuesOf store.now l r c left right → CanBeEqual l r
        → IsChoice store.now l r c result.piece result.by }
{
    let (piece, by) = match (left, right) {
        (Seen::Piece(a), Seen::Piece(b)) => {
            if store.lesser(a, b) {
                (b, left)
            } else {
                (a, right)
            }
        }
        (Seen::Piece(a), Seen::Const(_)) => (a, right),
        (Seen::Const(_), Seen::Piece(b)) => (b, left),
        (Seen::Const(_), Seen::Const(_)) => unreachable!(),
    };
    store.piece_span(piece).is_kept();
    Choice { piece, by }
}
