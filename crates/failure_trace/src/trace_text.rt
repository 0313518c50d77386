//! Traces as text: `trace 1`, then the instant, then a line for each step.

ghost use Rattle.std.specs.Prelude.{◌≡◌, ◌≢◌, ◌⊎◌, ◌+◌, ℕ, ℤ, ◌<◌, ◌≤◌, List, [], ◌∷◌, ◌++◌, codes, length, take, drop, All, IsTrue, ◌↔◌, IfOk, IfSome, IfNone};
ghost use Rattle.failure_trace.specs.declared.fault.TraceCode.TheVariants.{L1, L2, L3, L4, L5, L6};
ghost use Rattle.failure_trace.specs.declared.trace.TraceStep.{TraceStep as StepValue};
ghost use Rattle.failure_trace.specs.TraceText.{BeginsLine, BeginsTrace, BeginsInstant, Steps, IsStepLine, FailsStep, FailsSteps, IsTrace, Fails, IfFault};

use crate::step_text::read_step;
use crate::{Trace, TraceCode, TraceError, TraceFault, TraceStep};
use std::alloc::Global;
use term_core::Items;
use time_line::read_instant;

// The instant of the second line, and how many bytes there are up to the end of that line.
#[derive(Clone, Copy)]
struct InstantFront {
    instant: i64,
    len: usize,
}

// A line at the front of bytes: how many bytes it has, and how many with its line feed.
#[derive(Clone, Copy)]
struct LineFront {
    len: usize,
    end: usize,
}

/// The trace that a text is, or the text's first fault, by its line.
pub fn read_trace(alloc: Global, bytes: &[u8]) -> Result<Trace, TraceError>
    ensures trace { IfOk result (λ trace. IsTrace bytes.now trace) }
    ensures fault { IfFault result (λ fault. Fails bytes.now fault) }
{
    let Some(first) = first_end(bytes) else {
        return Err(TraceError::Fault(TraceFault {
            code: TraceCode::L1,
            line: 1,
        }));
    };
    let Some(second) = instant_of(&bytes[first..]) else {
        return Err(TraceError::Fault(TraceFault {
            code: TraceCode::L2,
            line: 2,
        }));
    };
    let steps = read_steps(alloc, &bytes[first + second.len..])?;
    Ok(Trace {
        instant: second.instant,
        steps,
    })
}

// How many bytes the line has with which the bytes begin, without its line feed and with it.
fn line_of(bytes: &[u8]) -> Option<LineFront>
    ensures line { IfSome result (λ line. BeginsLine bytes.now (take line.len bytes.now) (drop line.end bytes.now)) }
    ensures order { IfSome result (λ line. line.len ≤ line.end) }
    ensures some { IfSome result (λ line. 0 < line.end) }
    ensures within { IfSome result (λ line. line.end ≤ length bytes.now) }
    ensures none { IfNone result (bytes.now ≡ []) }
{
    let len = line_len(bytes);
    match &bytes[len..] {
        [_, ..] => Some(LineFront { len, end: len + 1 }),
        [] if len > 0 => Some(LineFront { len, end: len }),
        [] => None,
    }
}

// How many bytes stand before the first line feed, or before the end.
fn line_len(bytes: &[u8]) -> usize
    ensures within { result ≤ length bytes.now }
    ensures line { All (λ b. b ≢ 10) (take result bytes.now) }
    ensures whole { (drop result bytes.now ≡ []) ⊎ ((rest : List ℕ) × (drop result bytes.now ≡ 10 ∷ rest)) }
{
    let mut len = 0;
    while len < bytes.len() && bytes[len] != b'\n' {
        len += 1;
    }
    len
}

// How many bytes the first line has, with its line feed.
fn first_end(bytes: &[u8]) -> Option<usize>
    ensures line { IfSome result (λ end. BeginsTrace bytes.now (drop end bytes.now)) }
    ensures within { IfSome result (λ end. end ≤ length bytes.now) }
    ensures none { IfNone result ((rest : List ℕ) → ¬ (BeginsTrace bytes.now rest)) }
{
    let Some(line) = line_of(bytes) else {
        return None;
    };
    if !is_first(&bytes[..line.len]) {
        return None;
    }
    Some(line.end)
}

fn is_first(line: &[u8]) -> bool
    ensures { IsTrue result ↔ (line.now ≡ codes "trace 1") }
{
    line == b"trace 1".as_slice()
}

// The instant of the line `instant T` with which the bytes begin, if they begin with one.
fn instant_of(bytes: &[u8]) -> Option<InstantFront>
    ensures line { IfSome result (λ second. BeginsInstant bytes.now second.instant (drop second.len bytes.now)) }
    ensures within { IfSome result (λ second. second.len ≤ length bytes.now) }
    ensures none { IfNone result ((t : ℤ) (rest : List ℕ) → ¬ (BeginsInstant bytes.now t rest)) }
{
    let Some(line) = line_of(bytes) else {
        return None;
    };
    let Some(number) = after_word(&bytes[..line.len]) else {
        return None;
    };
    let Ok(instant) = read_instant(number) else {
        return None;
    };
    Some(InstantFront {
        instant,
        len: line.end,
    })
}

// What follows the word `instant ` in a line that begins with it.
fn after_word(line: &[u8]) -> Option<&[u8]>
    ensures found { IfSome result (λ number. line.now ≡ codes "instant " ++ number.now) }
    ensures none { IfNone result ((number : List ℕ) → line.now ≢ codes "instant " ++ number) }
{
    match line {
        [b'i', b'n', b's', b't', b'a', b'n', b't', b' ', number @ ..] => Some(number),
        _ => None,
    }
}

// The steps that the lines of the bytes are, of which the first is a text's third.
fn read_steps(alloc: Global, bytes: &[u8]) -> Result<Items<TraceStep>, TraceError>
    ensures steps { IfOk result (λ steps. Steps bytes.now steps []) }
    ensures fault { IfFault result (λ fault. (place : ℕ) × FailsSteps bytes.now fault.code place × (fault.line ≡ 2 + place)) }
{
    let mut steps = Items::new(alloc);
    let mut rest = bytes;
    while let Some(line) = line_of(rest) {
        let number = steps.len() + 3;
        steps.push(read_step(alloc, &rest[..line.len], number)?)?;
        rest = &rest[line.end..];
    }
    Ok(steps)
}
