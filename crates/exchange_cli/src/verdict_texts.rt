//! What is written of a trace: its verdict, and the fault of its text.

ghost use Rattle.std.specs.Prelude.{◌≡◌, IfOk};
ghost use Rattle.exchange_cli.specs.Endings.{line};
ghost use Rattle.exchange_cli.specs.VerdictTexts.{trace_code, why_code, verdict_text};

use failure_trace::{TraceCode, Why};
use itoa::Buffer;
use shelf_core::Bytes;
use std::alloc::Global;
use term_core::{Memory, Text};
use trace_checker::Verdict;

/// The line that is printed of a verdict.
pub fn verdict_line(alloc: Global, verdict: Verdict) -> Result<Bytes, Memory>
    ensures { IfOk result (λ bytes. bytes ≡ line (verdict_text verdict)) }
{
    match verdict {
        Verdict::Accepted => Ok(Bytes::from_vec(b"accepted\n".as_slice().to_vec(alloc)?)),
        Verdict::Refused { step, why } => {
            let mut text = Text::from_str(alloc, "not accepted: ")?;
            text.push_str(why_code(why))?;
            text.push_str(" at step ")?;
            text.push_str(Buffer::new().format(step))?;
            text.push_str("\n")?;
            Ok(Bytes::from_vec(text.as_bytes().to_vec(alloc)?))
        }
    }
}

// The number of a part of the table.
fn why_code(why: Why) -> &'static str
    ensures { result.now ≡ why_code why }
{
    match why {
        Why::K1 => "K1",
        Why::K2 => "K2",
        Why::K3 => "K3",
        Why::K4 => "K4",
        Why::K5 => "K5",
        Why::K6 => "K6",
        Why::K7 => "K7",
        Why::K8 => "K8",
    }
}

/// The number of a fault of a trace's text.
pub fn trace_code(code: TraceCode) -> &'static [u8]
    ensures { result.now ≡ trace_code code }
{
    match code {
        TraceCode::L1 => b"L1",
        TraceCode::L2 => b"L2",
        TraceCode::L3 => b"L3",
        TraceCode::L4 => b"L4",
        TraceCode::L5 => b"L5",
        TraceCode::L6 => b"L6",
    }
}
