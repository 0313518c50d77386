//! What a run left, as lines.

use shelf_core::{FetchError, Fetched, MemoryShelf, MemorySink, Shelf};
use std::alloc::Global;
use std::io::{self, Print, Write};

/// Prints the first line of a row, the status of its run, and both texts.
pub fn print_run(
    rt: &impl Print,
    row: &str,
    status: u8,
    out: &MemorySink,
    err: &MemorySink,
) -> anyhow::Result<()> {
    println!(rt; "{}", row.lines().next().unwrap_or(""))?;
    println!(rt; "status {status}")?;
    print_text(rt, "out", out.text())?;
    print_text(rt, "err", err.text())
}

// Prints a text below its name, where it isn't empty, as it stands.
fn print_text(rt: &impl Print, name: &str, text: &[u8]) -> anyhow::Result<()> {
    if text.is_empty() {
        return Ok(());
    }
    println!(rt; "{name}:")?;
    io::writer(rt).write_all(text)?;
    Ok(())
}

/// Prints each file that the row asks for by a line `show NAME`.
pub fn print_files(rt: &impl Print, row: &str, shelf: &MemoryShelf) -> anyhow::Result<()> {
    for line in row.lines() {
        if let Some(name) = line.strip_prefix("show ") {
            print_file(rt, name, shelf)?;
        }
    }
    Ok(())
}

// Prints one file, or that there is none.
fn print_file(rt: &impl Print, name: &str, shelf: &MemoryShelf) -> anyhow::Result<()> {
    match shelf.get(name) {
        Some(bytes) => {
            println!(rt; "{name}:")?;
            io::writer(rt).write_all(bytes)?;
        }
        None => println!(rt; "no {name}")?,
    }
    Ok(())
}

/// Makes a further fetch for each line `fetch NAME`, and prints how it ends: which calls were made before shows in whether
/// one that is to fail is reached.
pub fn print_fetches(
    rt: &impl Print,
    alloc: Global,
    row: &str,
    shelf: &mut MemoryShelf,
) -> anyhow::Result<()> {
    for line in row.lines() {
        if let Some(name) = line.strip_prefix("fetch ") {
            let end = end_of(&shelf.fetch(alloc, name, usize::MAX));
            println!(rt; "{name} {end}")?;
        }
    }
    Ok(())
}

// How a fetch ended, in a word.
fn end_of(fetched: &Result<Fetched, FetchError>) -> &'static str {
    match fetched {
        Ok(Fetched::Bytes(_)) => "comes",
        Ok(Fetched::Missing) => "is missing",
        Ok(Fetched::TooLong) => "is too long",
        Err(FetchError::Failed) => "fails",
        Err(FetchError::Memory) => "wants memory",
    }
}
