//! What is stored and printed where some instant has no solution.

ghost use Rattle.std.specs.Prelude.{◌≡◌, [], ◌∷◌, IfOk};
ghost use Rattle.failure_trace.specs.Printed.{trace_text, IsWritable};
ghost use Rattle.exchange_cli.specs.Certificate.{Refutes, IsUnsolved};
ghost use Rattle.exchange_cli.specs.Files.{IsVerdict};
ghost use Rattle.exchange_cli.specs.Inputs.{Inputs};

use crate::ending::Finding;
use crate::file::FileOut;
use crate::file_names::name_verdict;
use crate::printing::printed_line;
use crate::product::Product;
use failure_trace::laws::{
    a_text_is_one_trace_or_has_one_first_fault, printed_traces_are_read_back,
};
use failure_trace::{Trace, print_trace};
use shelf_core::Bytes;
use std::alloc::Global;
use term_core::{Items, Memory};

/// What an exchange makes of a trace that refutes what was read: the verdict alone, and its instant.
pub fn refute(alloc: Global, target: &str, trace: &Trace) -> Result<Product, Memory>
    requires { IsWritable trace.now }
    ensures { IfOk result (λ product. (inputs : Inputs) → Refutes inputs trace.now
        → IsUnsolved inputs target.now product) }
{
    printed_traces_are_read_back();
    a_text_is_one_trace_or_has_one_first_fault();
    let finding = Finding::NoSolution {
        instant: trace.instant,
    };
    Ok(Product {
        files: alone(alloc, certificate(alloc, target, trace)?)?,
        line: printed_line(alloc, finding)?,
        finding,
    })
}

// A list of one file.
fn alone(alloc: Global, file: FileOut) -> Result<Items<FileOut>, Memory>
    ensures { IfOk result (λ files. files ≡ file ∷ []) }
{
    let mut files = Items::new(alloc);
    files.push(file)?;
    Ok(files)
}

// The verdict that holds the text of a trace.
fn certificate(alloc: Global, target: &str, trace: &Trace) -> Result<FileOut, Memory>
    ensures { IfOk result (IsVerdict target.now (trace_text trace.now)) }
{
    let text = print_trace(alloc, trace)?;
    Ok(FileOut {
        name: name_verdict(alloc, target)?,
        bytes: Bytes::from_vec(text.as_bytes().to_vec(alloc)?),
    })
}
