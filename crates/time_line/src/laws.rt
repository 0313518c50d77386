//! What the definitions of spans, of their order and of their texts give.
ghost use Rattle.std.specs.Prelude.{◌≡◌, ◌↔◌, ℕ, ℤ, List, Option};
ghost use Rattle.std.specs.declared.cmp.Ordering.TheVariants.{Equal};
ghost use Rattle.std.specs.Cmp.{IsTotalOrder};
ghost use Rattle.time_line.specs.Span.{Ends, HasInstant, AreOrdered, IsWithinLimit, IsWithinInstants, span_cmp};
ghost use Rattle.time_line.specs.Numeral.{IsEnd, end_text};
ghost use Rattle.time_line.specs.declared.text.Side.{Side};

/// Some instant lies between two ends exactly where they are in order: the test that `Span::make`
/// does is the property that a span has.
pub fn ordered_ends_have_an_instant()
    ensures { (s : Ends) → HasInstant s ↔ AreOrdered s.lo s.hi }
{}

/// Each end is within the limit for instants, so that it can be written.
pub fn ends_are_instants()
    ensures { (end : Option ℤ) → IsWithinLimit end → IsWithinInstants end }
{}

/// The text of an end is that end: within the limit, `read_end` gives back what `write_end` wrote.
pub fn end_texts_read_back()
    ensures ends { (side : Side) (end : Option ℤ)
        → IsWithinLimit end → IsEnd side (end_text side end) end }
    ensures instants { (side : Side) (end : Option ℤ)
        → IsWithinInstants end → IsEnd side (end_text side end) end }
{}

/// A text is one end at most, so that `read_end` has one answer.
pub fn one_end_a_text()
    ensures { (side : Side) (text : List ℕ) (a b : Option ℤ)
        → IsEnd side text a → IsEnd side text b → a ≡ b }
{}

/// The order of spans is total, and tells any two of them apart.
pub fn spans_have_one_order()
    ensures total { IsTotalOrder span_cmp }
    ensures apart { (a b : Ends) → span_cmp a b ≡ Equal → a ≡ b }
{}
