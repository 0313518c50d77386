//! Laws of the definitions: what a check of a trace comes to.

ghost use Rattle.std.specs.Prelude.{◌≡◌, ◌⊎◌, ℕ, List};
ghost use Rattle.term_core.specs.declared.const_id.ConstId.{ConstId};
ghost use Rattle.rule_core.specs.Mapping.{RuleSet};
ghost use Rattle.rule_core.specs.Terms.{FactOf, StampedOf};
ghost use Rattle.rule_core.specs.Validity.{IsValid};
ghost use Rattle.failure_trace.specs.declared.trace.Trace.{Trace as TraceValue};
ghost use Rattle.failure_trace.specs.declared.fault.TraceFault.{TraceFault as FaultValue};
ghost use Rattle.failure_trace.specs.declared.why.Why.{Why as WhyValue};
ghost use Rattle.failure_trace.specs.TraceText.{IsTrace, Fails};
ghost use Rattle.failure_trace.specs.Printed.{trace_text, IsWritable};
ghost use Rattle.failure_trace.specs.TraceRun.{IsAccepted, IsRefused};
ghost use Rattle.failure_trace.specs.Projection.{StepsAreTraced, StepsStayElsewhere, ClashesAreTraced, EqualitiesAreAllowed, ClashesAreAllowed};

/// A trace is accepted, or it is refused by one part of the table at one step, and not both: so a checker has one
/// answer for each trace.
pub fn a_trace_is_accepted_or_has_one_first_failing_part()
    ensures some { (name : ConstId → List ℕ) (rules : RuleSet) (source : List (StampedOf (FactOf (List ℕ))))
        → (trace : TraceValue) → IsAccepted name rules source trace
        ⊎ ((step : ℕ) × (why : WhyValue) × IsRefused name rules source trace step why) }
    ensures one { (name : ConstId → List ℕ) (rules : RuleSet) (source : List (StampedOf (FactOf (List ℕ))))
        → (trace : TraceValue) (step other : ℕ) (why reason : WhyValue) → IsValid rules
        → IsRefused name rules source trace step why → IsRefused name rules source trace other reason
        → (step ≡ other) × (why ≡ reason) }
    ensures apart { (name : ConstId → List ℕ) (rules : RuleSet) (source : List (StampedOf (FactOf (List ℕ))))
        → (trace : TraceValue) (step : ℕ) (why : WhyValue) → IsValid rules
        → IsAccepted name rules source trace → ¬ (IsRefused name rules source trace step why) }
{}

/// A text is one trace, or it has one first fault, and not both: so reading it has one answer.
pub fn a_text_is_one_trace_or_has_one_first_fault()
    ensures trace { (text : List ℕ) (a b : TraceValue) → IsTrace text a → IsTrace text b → a ≡ b }
    ensures fault { (text : List ℕ) (a b : FaultValue) → Fails text a → Fails text b → a ≡ b }
    ensures apart { (text : List ℕ) (trace : TraceValue) (fault : FaultValue)
        → IsTrace text trace → ¬ (Fails text fault) }
{}

/// What is printed of a writable trace is this trace: reading it gives an equal one.
pub fn printed_traces_are_read_back()
    ensures { (trace : TraceValue) → IsWritable trace → IsTrace (trace_text trace) trace }
{}

/// A journal tells what a trace does at each instant: at an instant of its span, an allowed step is an allowed equality of
/// a trace on the snapshot there, where constants are told by other names and unknowns by numbers in their order; at any
/// other instant the snapshot stays. An allowed clash is one at each instant of its span.
pub fn a_journal_step_is_a_trace_step_at_its_instants()
    ensures steps { StepsAreTraced ConstId (List ℕ) }
    ensures text_steps { StepsAreTraced (List ℕ) (List ℕ) }
    ensures elsewhere { StepsStayElsewhere ConstId }
    ensures text_elsewhere { StepsStayElsewhere (List ℕ) }
    ensures clashes { ClashesAreTraced ConstId (List ℕ) }
    ensures text_clashes { ClashesAreTraced (List ℕ) (List ℕ) }
    ensures allowed { EqualitiesAreAllowed }
    ensures allowed_clashes { ClashesAreAllowed }
{}
