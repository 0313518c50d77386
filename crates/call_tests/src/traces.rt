//! The text of a trace, both ways, and its first faults by line.

use failure_trace::TraceCode::{L1, L2, L3, L4, L5, L6};
use failure_trace::{Trace, TraceError, TraceFault, print_trace, read_trace};
use std::alloc::Global;
use std::test::Fail;

const CERTIFICATE: &str = "trace 1
instant 2016
tgd d2 n=\"Ada\" c=\"Google\" s=\"18k\"
tgd d2 n=\"Ada\" c=\"Google\" s=\"20k\"
clash e1 n=\"Ada\" c=\"Google\" s=\"18k\" r=\"20k\"
";

const NUMBERS: &str = "trace 1
instant -2000000000000000
tgd d1 n=\"a \\\"b\\\" \\\\ \\n\\r\" s=?18446744073709551615
egd e1 n=\"\" s=?1
";

#[test]
fn traces_both_ways(rt: HostRuntime) -> Result<(), Fail> {
    for text in [CERTIFICATE, NUMBERS, "trace 1\ninstant 0\n"] {
        let trace = read_trace(rt.alloc(), text.as_bytes())?;
        let printed = print_trace(rt.alloc(), &trace)?;
        assert_eq!(rt; printed.as_str(), text);
    }
    Ok(())
}

// The last line feed may be missing.
#[test]
fn a_trace_without_its_last_line_feed(rt: HostRuntime) -> Result<(), Fail> {
    let trace = read_trace(rt.alloc(), b"trace 1\ninstant 5")?;
    assert_eq!(rt; trace.instant, 5);
    assert_eq!(rt; trace.steps.len(), 0);
    Ok(())
}

// The fault of an answer, if it is one.
fn fault_of(read: &Result<Trace, TraceError>) -> Option<TraceFault> {
    match read {
        Err(TraceError::Fault(fault)) => Some(*fault),
        _ => None,
    }
}

// A text with this as its third line, after two that are right.
fn with_line(alloc: Global, line: &str) -> Result<String, Fail> {
    let mut text = String::from_str(alloc, "trace 1\ninstant 0\n")?;
    text.push_str(line)?;
    text.push('\n')?;
    Ok(text)
}

// Whole texts with a fault in one of the first two lines. The numbers and lines are those of the format.
#[test]
fn faults_of_the_first_lines(rt: HostRuntime) {
    let rows = [
        ("solved\n", L1, 1),
        ("", L1, 1),
        ("trace 1\r\ninstant 0\n", L1, 1),
        ("trace 2\ninstant 0\n", L1, 1),
        ("trace 1", L2, 2),
        ("trace 1\ninstant x\n", L2, 2),
        ("trace 1\ninstant 2000000000000001\n", L2, 2),
        ("trace 1\ninstant 0 \n", L2, 2),
    ];
    for (text, code, line) in rows {
        let fault = fault_of(&read_trace(rt.alloc(), text.as_bytes()));
        assert_eq!(rt; fault, Some(TraceFault { code, line }), "{text}");
    }
}

#[test]
fn faults_of_a_step(rt: HostRuntime) -> Result<(), Fail> {
    let rows = [
        ("", L3),
        ("deny d n=\"a\"", L3),
        ("tgd", L3),
        ("tgd 5", L4),
        ("tgd exists", L4),
        ("tgd d1, n=\"a\"", L4),
        ("tgd d1 n=Ada", L5),
        ("tgd d1 ", L5),
        ("tgd d1  n=\"a\"", L5),
        ("tgd d1 n=?0", L5),
        ("tgd d1 n=?007", L5),
        ("tgd d1 n=?18446744073709551616", L5),
        ("tgd d1 n=\"a", L5),
        ("tgd d1 n=\"a\"\r", L5),
    ];
    for (step, code) in rows {
        let text = with_line(rt.alloc(), step)?;
        let fault = fault_of(&read_trace(rt.alloc(), text.as_bytes()));
        assert_eq!(rt; fault, Some(TraceFault { code, line: 3 }), "{step}");
    }
    Ok(())
}

// 32 bindings are read, and the space behind them is one too many.
#[test]
fn the_most_bindings(rt: HostRuntime) -> Result<(), Fail> {
    let mut step = String::from_str(rt.alloc(), "tgd d1")?;
    for _ in 0..32 {
        step.push_str(" n=?1")?;
    }
    let text = with_line(rt.alloc(), step.as_str())?;
    assert!(rt; read_trace(rt.alloc(), text.as_bytes()).is_ok());
    step.push_str(" n=?1")?;
    let text = with_line(rt.alloc(), step.as_str())?;
    let fault = fault_of(&read_trace(rt.alloc(), text.as_bytes()));
    let wanted = TraceFault { code: L6, line: 3 };
    assert_eq!(rt; fault, Some(wanted));
    Ok(())
}
