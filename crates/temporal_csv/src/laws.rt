//! What the definitions of source tables and of stored tables give.

ghost use Rattle.std.specs.Prelude.{◌≡◌, ◌⊎◌, ◌<◌, ℕ, List, All, length, map};
ghost use Rattle.rule_core.specs.Terms.{StampedOf, TermOf};
ghost use Rattle.temporal_csv.specs.Stored.{BeginsWithLetter, HasRecords, IsAsWideAs, IsCell, IsStorableRow, IsStored, IsStoredBare, StoredRow, bare_row, stamped_row, table_text};
ghost use Rattle.temporal_csv.specs.Table.{IsFirstFault, IsTable, TableFaults};
ghost use Rattle.temporal_csv.specs.declared.fault.TableFault.{TableFault};

use time_line::laws::{end_texts_read_back, one_end_a_text};

/// Each table has facts or a first fault, and none has both: which of its two answers `read_table` gives is the table's
/// own doing.
pub fn a_table_has_facts_or_a_fault()
    ensures either { (columns : List (List ℕ)) (bytes : List ℕ)
        → ((facts : List (StampedOf (List (List ℕ)))) × IsTable columns bytes facts)
        ⊎ TableFaults columns bytes }
    ensures not_both { (columns : List (List ℕ)) (bytes : List ℕ)
        (facts : List (StampedOf (List (List ℕ))))
        → IsTable columns bytes facts → ¬ TableFaults columns bytes }
{
    one_end_a_text();
}

/// A table has one list of facts, so that `read_table` has one answer.
pub fn a_table_has_one_list_of_facts()
    ensures { (columns : List (List ℕ)) (bytes : List ℕ)
        (a b : List (StampedOf (List (List ℕ))))
        → IsTable columns bytes a → IsTable columns bytes b → a ≡ b }
{
    one_end_a_text();
}

/// A table has one first fault, so that `read_table` has one answer.
pub fn a_table_has_one_first_fault()
    ensures { (columns : List (List ℕ)) (bytes : List ℕ) (a b : TableFault)
        → IsFirstFault columns bytes a → IsFirstFault columns bytes b → a ≡ b }
{
    one_end_a_text();
}

/// What is stored is read back: the header and the rows of a table are what its bytes mean.
pub fn stored_tables_are_read_back()
    ensures { (header : List (List ℕ)) (rows : List StoredRow)
        → 0 < length header → All BeginsWithLetter header
        → All (IsAsWideAs header) rows → All IsStorableRow rows
        → HasRecords (table_text header rows) header rows }
{
    end_texts_read_back();
}

/// Each text is the cell of one term, so that every stored cell has a meaning.
pub fn each_cell_is_one_term()
    ensures { (text : List ℕ) → (term : TermOf (List ℕ)) × IsCell text term
        × ((other : TermOf (List ℕ)) → IsCell text other → other ≡ term) }
{}

/// Stored bytes have one header at most, and one list of rows at most as a table with spans, and one as a table without.
pub fn stored_bytes_have_one_meaning()
    ensures header { (bytes : List ℕ) (c d : List (List ℕ)) (xs ys : List StoredRow)
        → HasRecords bytes c xs → HasRecords bytes d ys → c ≡ d }
    ensures stamped { (bytes : List ℕ) (c d : List (List ℕ))
        (xs ys : List (StampedOf (List (TermOf (List ℕ)))))
        → IsStored bytes c (map stamped_row xs) → IsStored bytes d (map stamped_row ys) → xs ≡ ys }
    ensures bare { (bytes : List ℕ) (c d : List (List ℕ))
        (xs ys : List (List (TermOf (List ℕ))))
        → IsStoredBare bytes c (map bare_row xs) → IsStoredBare bytes d (map bare_row ys) → xs ≡ ys }
{
    one_end_a_text();
}
