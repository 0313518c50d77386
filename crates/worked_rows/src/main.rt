//! Reads rows from standard input, runs each over a shelf and sinks in memory, and prints what it left: the status, both
//! texts, and the files that the row asks for. The gate compares that with what the formats say.
#![tactic(auto)]

mod placing;
mod printing;
mod row;

use std::alloc::Global;
use std::io;

fn main(rt: HostRuntime) -> anyhow::Result<()> {
    let text = io::read_to_string(rt.alloc(), rt.reader())?;
    row::run_all(&rt, rt.alloc(), text.as_str())
}
