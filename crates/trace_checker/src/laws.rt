//! What an accepted trace shows.

ghost use Rattle.std.specs.Prelude.{◌≡◌, ℕ, List};
ghost use Rattle.term_core.specs.declared.const_id.ConstId.{ConstId};
ghost use Rattle.rule_core.specs.Mapping.{RuleSet};
ghost use Rattle.rule_core.specs.Snapshot.{snapshot_at};
ghost use Rattle.rule_core.specs.Solution.{IsSolution, IsSolvable};
ghost use Rattle.rule_core.specs.Terms.{FactOf, StampedOf};
ghost use Rattle.rule_core.specs.Validity.{IsValid};
ghost use Rattle.failure_trace.specs.declared.trace.Trace.{Trace as TraceValue};
ghost use Rattle.failure_trace.specs.TraceRun.{IsAccepted};
ghost use Rattle.trace_checker.specs.declared.verdict.Verdict.{Verdict as VerdictValue};
ghost use Rattle.trace_checker.specs.Checked.{IsVerdict, HasConstantsOnly};

/// Where a trace is accepted on a source of constants, its instant has no solution, whatever instance is tried. Each state
/// of the trace maps into every solution, and the clash would make two different constants one.
pub fn an_accepted_trace_has_no_solution_at_its_instant()
    ensures none { (name : ConstId → List ℕ) (rules : RuleSet) (source : List (StampedOf (FactOf (List ℕ))))
        → (trace : TraceValue) → IsValid rules → HasConstantsOnly source → IsAccepted name rules source trace
        → ¬ (IsSolvable name rules (snapshot_at source trace.instant)) }
    ensures target { (name : ConstId → List ℕ) (rules : RuleSet) (source : List (StampedOf (FactOf (List ℕ))))
        → (trace : TraceValue) → IsValid rules → HasConstantsOnly source → IsAccepted name rules source trace
        → (target : List (FactOf (List ℕ)))
        → ¬ (IsSolution name rules (snapshot_at source trace.instant) target) }
{}

/// A trace has one verdict, so that a checker is right about each trace or wrong.
pub fn a_trace_has_one_verdict()
    ensures { (name : ConstId → List ℕ) (rules : RuleSet) (source : List (StampedOf (FactOf (List ℕ))))
        → (trace : TraceValue) (one other : VerdictValue) → IsValid rules
        → IsVerdict name rules source trace one → IsVerdict name rules source trace other → one ≡ other }
{}
