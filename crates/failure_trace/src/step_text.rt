//! A line of a trace as a step: the word of its kind, the name of its rule, and its bindings, each behind a space.

ghost use Rattle.std.specs.Prelude.{◌≡◌, ◌≢◌, ℕ, ◌<◌, ◌≤◌, List, [], ◌∷◌, ◌++◌, length, take, drop, IfOk, IfSome, IfNone};
ghost use Rattle.failure_trace.specs.declared.trace.StepKind.{StepKind as KindValue};
ghost use Rattle.failure_trace.specs.declared.fault.TraceCode.TheVariants.{L4};
ghost use Rattle.failure_trace.specs.TraceText.{EndsPart, BeginsRule, Bind, kind_word, IsStepLine, FailsBinding, FailsStep, IfFault};

use crate::front::{bound_of, ends_part, name_len, name_text};
use crate::{Bound, StepKind, TraceCode, TraceError, TraceFault, TraceStep};
use std::alloc::Global;
use term_core::{Items, Text};

/// The most bindings of a step.
const MOST_BOUND: usize = 32;

// The name of a rule at the front of bytes, and how many of them it has.
#[derive(Drop)]
struct RuleFront {
    rule: Text,
    len: usize,
}

/// The step that a line is, or the first fault of the line, which has this number.
pub(crate) fn read_step(alloc: Global, line: &[u8], number: usize) -> Result<TraceStep, TraceError>
    ensures step { IfOk result (λ step. IsStepLine line.now step) }
    ensures fault { IfFault result (λ fault. FailsStep line.now fault.code) }
    ensures line { IfFault result (λ fault. fault.line ≡ number) }
{
    let Some(kind) = kind_of(line) else {
        return Err(TraceError::Fault(TraceFault {
            code: TraceCode::L3,
            line: number,
        }));
    };
    let from = &line[kind_len(kind)..];
    let front = read_rule(alloc, from, number)?;
    let binding = read_binding(alloc, &from[front.len..], number)?;
    Ok(TraceStep {
        kind,
        rule: front.rule,
        binding,
    })
}

// The kind of step with whose word the line begins, if it begins with one.
fn kind_of(line: &[u8]) -> Option<StepKind>
    ensures kind { IfSome result (λ kind. (from : List ℕ) × (line.now ≡ kind_word kind ++ from)) }
    ensures none { IfNone result ((kind : KindValue) (from : List ℕ) → line.now ≢ kind_word kind ++ from) }
{
    match line {
        [b't', b'g', b'd', b' ', ..] => Some(StepKind::Tgd),
        [b'e', b'g', b'd', b' ', ..] => Some(StepKind::Egd),
        [b'c', b'l', b'a', b's', b'h', b' ', ..] => Some(StepKind::Clash),
        _ => None,
    }
}

// How many bytes the word of a kind has, with its space.
fn kind_len(kind: StepKind) -> usize
    ensures { result ≡ length (kind_word kind) }
{
    match kind {
        StepKind::Tgd | StepKind::Egd => 4,
        StepKind::Clash => 6,
    }
}

// The name of a rule with which the bytes begin, where a space follows it or nothing.
fn read_rule(alloc: Global, bytes: &[u8], number: usize) -> Result<RuleFront, TraceError>
    ensures rule { IfOk result (λ front. BeginsRule bytes.now front.rule (drop front.len bytes.now)) }
    ensures within { IfOk result (λ front. front.len ≤ length bytes.now) }
    ensures code { IfFault result (λ fault. fault.code ≡ L4) }
    ensures line { IfFault result (λ fault. fault.line ≡ number) }
    ensures none { IfFault result (λ fault. (rule rest : List ℕ) → ¬ (BeginsRule bytes.now rule rest)) }
{
    let Some(len) = name_len(bytes) else {
        return Err(TraceError::Fault(TraceFault {
            code: TraceCode::L4,
            line: number,
        }));
    };
    if !ends_part(&bytes[len..]) {
        return Err(TraceError::Fault(TraceFault {
            code: TraceCode::L4,
            line: number,
        }));
    }
    let rule = name_text(alloc, &bytes[..len])?;
    Ok(RuleFront { rule, len })
}

// The bindings that the bytes are, each behind a space.
fn read_binding(alloc: Global, bytes: &[u8], number: usize) -> Result<Items<Bound>, TraceError>
    requires { EndsPart bytes.now }
    ensures binding { IfOk result (λ binding. Bind bytes.now binding []) }
    ensures most { IfOk result (λ binding. length binding ≤ 32) }
    ensures fault { IfFault result (λ fault. FailsBinding bytes.now fault.code) }
    ensures line { IfFault result (λ fault. fault.line ≡ number) }
{
    let mut binding = Items::new(alloc);
    let mut rest = bytes;
    while let [_, from @ ..] = rest {
        if binding.len() >= MOST_BOUND {
            return Err(TraceError::Fault(TraceFault {
                code: TraceCode::L6,
                line: number,
            }));
        }
        let Some(front) = bound_of(alloc, from)? else {
            return Err(TraceError::Fault(TraceFault {
                code: TraceCode::L5,
                line: number,
            }));
        };
        binding.push(front.bound)?;
        rest = &from[front.len..];
    }
    Ok(binding)
}
