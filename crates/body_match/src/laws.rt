//! What the definition of a match gives.
ghost use Rattle.std.specs.Prelude.{◌≡◌, ◌↔◌, ℕ, List, Option, AllPairs, Contains};
ghost use Rattle.rule_core.specs.declared.rules.Atom.{Atom};
ghost use Rattle.fact_table.specs.Rows.{SeenRow, row_at};
ghost use Rattle.body_match.specs.declared.found.Match.{Match};
ghost use Rattle.body_match.specs.Index.{Index, IsNoMore, ListsRow};
ghost use Rattle.body_match.specs.Matches.{IsMatch, StandsBefore};

/// What a list of matches is to have, and in which order, settles it: whatever way a search goes, its list is the same.
pub fn matches_have_one_list()
    ensures { (body : List Atom) (vars : ℕ) (rows : List (Option SeenRow)) (a b : List Match)
        → ((found : Match) → Contains a found ↔ IsMatch body vars rows found)
        → ((found : Match) → Contains b found ↔ IsMatch body vars rows found)
        → AllPairs StandsBefore a → AllPairs StandsBefore b → a ≡ b }
{}

/// A row that is listed in an index stays listed while it is as it was, when it loses times, and when it goes: it need not be
/// told of then.
pub fn rows_that_lose_times_stay_listed()
    ensures { (index : Index) (old new : List (Option SeenRow)) (number : ℕ) → ListsRow index old number
        → IsNoMore (row_at old number) (row_at new number) → ListsRow index new number }
{}
