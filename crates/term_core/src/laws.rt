//! What the order of terms and the order of a pool give.
ghost use Rattle.std.specs.Prelude.{◌≡◌, ◌↔◌, ◌<◌, ℕ, List, Some, slice_get};
ghost use Rattle.std.specs.declared.cmp.Ordering.TheVariants.{Equal};
ghost use Rattle.std.specs.Ordering.{nat_cmp};
ghost use Rattle.std.specs.Cmp.{IsTotalOrder};
ghost use Rattle.std.specs.Cmp.Lexicographic.{slice_cmp};
ghost use Rattle.term_core.specs.declared.term.Term.{Term};
ghost use Rattle.term_core.specs.declared.term.Unknown.{Unknown};
ghost use Rattle.term_core.specs.Order.{term_cmp, unknown_cmp};
ghost use Rattle.term_core.specs.Pool.{IsPool, IsBefore};

use crate::{Term, Unknown};

/// Unknowns are compared by rule, then by frontier, then by variable. That is a total order, and tells any two
/// of them apart.
pub fn unknowns_have_one_order()
    ensures same { (a b : Unknown) → ⟦<Unknown as Ord>⟧.cmp a b ≡ unknown_cmp a b }
    ensures total { IsTotalOrder unknown_cmp }
    ensures apart { (a b : Unknown) → unknown_cmp a b ≡ Equal → a ≡ b }
{}

/// Terms are compared with constants before unknowns. That is a total order, and tells any two of them apart.
pub fn terms_have_one_order()
    ensures same { (a b : Term) → ⟦<Term as Ord>⟧.cmp a b ≡ term_cmp a b }
    ensures total { IsTotalOrder term_cmp }
    ensures apart { (a b : Term) → term_cmp a b ≡ Equal → a ≡ b }
{}

/// The numbers of a pool are ordered as their texts, so that whoever compares numbers compares texts. In
/// particular no text has two numbers.
pub fn ids_are_ordered_as_their_texts()
    ensures order { (pool : List (List ℕ)) → IsPool pool → (i j : ℕ) (a b : List ℕ)
        → slice_get pool i ≡ Some a → slice_get pool j ≡ Some b → (i < j) ↔ IsBefore a b }
    ensures alike { (pool : List (List ℕ)) → IsPool pool → (i j : ℕ) (a b : List ℕ)
        → slice_get pool i ≡ Some a → slice_get pool j ≡ Some b → nat_cmp i j ≡ slice_cmp nat_cmp a b }
{}
