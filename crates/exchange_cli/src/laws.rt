//! What the order of work gives: what is read is one, and either all is read or something is the first failure. And why
//! what an exchange gives is, as it is stored, a target of what was read.

ghost use Rattle.std.specs.Prelude.{◌≡◌, ◌≢◌, ℕ, ℤ, List, Some, map};
ghost use Rattle.std.specs.List.{AllZip};
ghost use Rattle.shelf_core.specs.Held.{Held};
ghost use Rattle.rule_core.specs.Validity.{IsValid};
ghost use Rattle.exchange_engine.specs.Loading.{LoadedOf};
ghost use Rattle.exchange_engine.specs.declared.outcome.Solved.{Solved};
ghost use Rattle.failure_trace.specs.declared.trace.Trace.{Trace as TraceValue};
ghost use Rattle.exchange_engine.specs.Failed.{IsAcceptedOn};
ghost use Rattle.exchange_cli.specs.Certificate.{Refutes};
ghost use Rattle.failure_trace.specs.Projected.{pool_text};
ghost use Rattle.trace_checker.specs.Checked.{source_of as source_in, IsVerdict};
ghost use Rattle.trace_checker.specs.declared.verdict.Verdict.{Verdict as VerdictValue};
ghost use Rattle.exchange_cli.specs.Judged.{IsVerdictOf};
ghost use Rattle.exchange_cli.specs.Words.{Command};
ghost use Rattle.exchange_cli.specs.Rendering.{stored_table};
ghost use Rattle.exchange_cli.specs.Exchanged.{IsLoadedFrom, IsSolvedFrom};
ghost use Rattle.exchange_cli.specs.Answers.{HasCertain};
ghost use Rattle.exchange_cli.specs.Inputs.{Inputs};
ghost use Rattle.exchange_cli.specs.Target.{IsTarget};
ghost use Rattle.exchange_cli.specs.Snapshot.{IsSnapshotOf, tables_at};
ghost use Rattle.exchange_cli.specs.Files.{HaveDistinctNames};
ghost use Rattle.exchange_cli.specs.Product.{Makes};
ghost use Rattle.exchange_cli.specs.Work.{Fetch, AreTold, Reads, FailsFirst};
ghost use Rattle.exchange_cli.specs.declared.product.Product.{Product};
ghost use Rattle.exchange_cli.specs.declared.ending.Ending.{Ending};
ghost use Rattle.exchange_cli.specs.declared.ending.Ending.TheVariants.{Read};

use fact_table::laws::rows_of_a_table_are_its_facts;
use failure_trace::laws::a_text_is_one_trace_or_has_one_first_fault;
use mapping_core::laws::a_mapping_is_one;
use rule_core::laws::{
    a_pool_begins_a_renaming, a_renaming_keeps_what_holds, instances_are_read_as_sets,
    renumbered_rules_say_the_same, rows_have_one_order, rows_in_the_same_order_stay_coalesced,
    snapshots_hold_what_is_covered, unknowns_may_be_told_otherwise,
};
use temporal_csv::laws::{
    a_table_has_facts_or_a_fault, a_table_has_one_first_fault, a_table_has_one_list_of_facts,
};
use term_core::laws::{ids_are_ordered_as_their_texts, unknowns_have_one_order};
use trace_checker::laws::{
    a_trace_has_one_verdict, an_accepted_trace_has_no_solution_at_its_instant,
};

/// All that a command reads from what is held is one mapping, one list of tables and one trace, where it names one.
pub fn what_is_read_is_one()
    ensures { (held : Held) (command : Command) (f g : List Fetch) (a b : Inputs)
        → AreTold (Some held) f → AreTold (Some held) g → Reads command f a → Reads command g b → a ≡ b }
{
    a_mapping_is_one();
    a_table_has_one_list_of_facts();
    a_text_is_one_trace_or_has_one_first_fault();
}

/// Where all that a command reads is there without a fault, no refusal is the first failure: only a fault of the
/// shelf is left.
pub fn what_is_read_is_not_refused()
    ensures { (held : Held) (command : Command) (f g : List Fetch) (inputs : Inputs) (ending : Ending)
        → AreTold (Some held) f → AreTold (Some held) g → Reads command f inputs → FailsFirst command g ending
        → (name : List ℕ) × (ending ≡ Read name) }
{
    a_mapping_is_one();
    a_table_has_facts_or_a_fault();
    a_text_is_one_trace_or_has_one_first_fault();
}

/// Two first failures that are no faults of the shelf are one: where a run is refused, what is held refuses it so and not
/// otherwise.
pub fn there_is_one_first_refusal()
    ensures { (held : Held) (command : Command) (f g : List Fetch) (a b : Ending)
        → AreTold (Some held) f → AreTold (Some held) g → FailsFirst command f a → FailsFirst command g b
        → ((name : List ℕ) → a ≢ Read name) → ((name : List ℕ) → b ≢ Read name) → a ≡ b }
{
    a_mapping_is_one();
    a_table_has_one_first_fault();
    a_table_has_facts_or_a_fault();
    a_text_is_one_trace_or_has_one_first_fault();
}

/// No two files of a product have one name, so the files before the one of a name are one list.
pub fn files_of_a_product_have_distinct_names()
    ensures { (command : Command) (inputs : Inputs) (product : Product)
        → IsValid inputs.mapping.rules → Makes command inputs product → HaveDistinctNames product.files }
{}

/// Tables that an exchange gives are, as they are stored, a target of what was read: constants by their texts and unknowns
/// by their numbers say what the exchange says of numbers of constants and of unknowns by their origin.
pub fn stored_tables_are_a_target()
    ensures { (inputs : Inputs) (loaded : LoadedOf) (solved : Solved)
        → IsLoadedFrom inputs loaded → IsSolvedFrom loaded solved
        → IsTarget inputs (map (stored_table loaded.pool solved.nulls) solved.tables) }
{
    unknowns_have_one_order();
    ids_are_ordered_as_their_texts();
    snapshots_hold_what_is_covered();
    a_renaming_keeps_what_holds();
    a_pool_begins_a_renaming();
    instances_are_read_as_sets();
    renumbered_rules_say_the_same();
    unknowns_may_be_told_otherwise();
    rows_in_the_same_order_stay_coalesced();
    rows_of_a_table_are_its_facts();
}

/// Answers that an exchange gives are, as they are stored, exactly what is certain of what was read, over all constants.
pub fn stored_answers_are_certain()
    ensures { (inputs : Inputs) (loaded : LoadedOf) (solved : Solved)
        → IsLoadedFrom inputs loaded → IsSolvedFrom loaded solved
        → AllZip (HasCertain inputs) inputs.mapping.rules.queries
        (map (stored_table loaded.pool solved.nulls) solved.answers) }
{
    unknowns_have_one_order();
    ids_are_ordered_as_their_texts();
    snapshots_hold_what_is_covered();
    a_renaming_keeps_what_holds();
    a_pool_begins_a_renaming();
    instances_are_read_as_sets();
    renumbered_rules_say_the_same();
    rows_in_the_same_order_stay_coalesced();
    rows_of_a_table_are_its_facts();
}

/// A trace that is accepted on what was loaded is accepted on what was read: the trace run sees rules and facts by their texts alone. So
/// no instance is a solution at its instant.
pub fn a_given_trace_refutes()
    ensures { (inputs : Inputs) (loaded : LoadedOf) (trace : TraceValue)
        → IsLoadedFrom inputs loaded → IsAcceptedOn loaded trace → Refutes inputs trace }
{
    snapshots_hold_what_is_covered();
    rows_of_a_table_are_its_facts();
    an_accepted_trace_has_no_solution_at_its_instant();
}

/// The tables that an exchange stores are, at one instant, the tables of an instance that is universal there: what `snapshot`
/// shows of a coalesced table is in order already, and each row once.
pub fn a_target_is_shown_at_each_instant()
    ensures { (inputs : Inputs) (loaded : LoadedOf) (solved : Solved) (t : ℤ)
        → IsLoadedFrom inputs loaded → IsSolvedFrom loaded solved
        → IsSnapshotOf inputs t (tables_at t (map (stored_table loaded.pool solved.nulls) solved.tables)) }
{
    stored_tables_are_a_target();
    rows_have_one_order();
}

/// The verdict on a trace over the numbers of what is loaded is its one verdict on what was read: the trace run sees rules and
/// facts by their texts alone. Where it accepts, no instance is a solution at the trace's instant.
pub fn a_verdict_is_one_on_the_texts()
    ensures { (inputs : Inputs) (loaded : LoadedOf) (trace : TraceValue) (verdict : VerdictValue)
        → IsLoadedFrom inputs loaded → inputs.trace ≡ Some trace
        → IsVerdict (pool_text loaded.pool) loaded.rules (source_in loaded.pool loaded.table) trace verdict
        → IsVerdictOf inputs verdict }
{
    snapshots_hold_what_is_covered();
    rows_of_a_table_are_its_facts();
    a_trace_has_one_verdict();
    an_accepted_trace_has_no_solution_at_its_instant();
}
