//! A row: its words, the files on its shelf, and which calls fail.

use crate::placing::{fail_all, place_all};
use crate::printing::{print_fetches, print_files, print_run};
use exchange_cli::run;
use shelf_core::{MemoryShelf, MemorySink};
use std::alloc::Global;
use std::io::Print;

/// The room of the shelf and of each sink, where a row says nothing else.
const ENTRIES: usize = 100;

const BYTES: usize = 100_000;

/// Runs the rows of a text, which an empty line divides.
pub fn run_all(rt: &impl Print, alloc: Global, text: &str) -> anyhow::Result<()> {
    for row in text.split("\n\n") {
        run_row(rt, alloc, row)?;
        println!(rt; "")?;
    }
    Ok(())
}

// Runs one row over a shelf and sinks of its own.
fn run_row(rt: &impl Print, alloc: Global, row: &str) -> anyhow::Result<()> {
    let mut shelf = MemoryShelf::new(alloc);
    let mut out = MemorySink::new(alloc);
    let mut err = MemorySink::new(alloc);
    run_over(rt, alloc, row, &mut shelf, &mut out, &mut err)
}

// Runs one row over these, which are empty, and prints what it left.
fn run_over(
    rt: &impl Print,
    alloc: Global,
    row: &str,
    shelf: &mut MemoryShelf,
    out: &mut MemorySink,
    err: &mut MemorySink,
) -> anyhow::Result<()> {
    place_all(alloc, row, shelf)?;
    make_room(shelf, out, err)?;
    fail_all(row, shelf, out, err)?;
    let words = words_of(alloc, row)?;
    let status = run(alloc, &words, shelf, out, err);
    print_run(rt, row, status, out, err)?;
    print_files(rt, row, shelf)?;
    print_fetches(rt, alloc, row, shelf)
}

// Makes the room that each row has where it says nothing else.
fn make_room(
    shelf: &mut MemoryShelf,
    out: &mut MemorySink,
    err: &mut MemorySink,
) -> anyhow::Result<()> {
    shelf.room(ENTRIES, BYTES)?;
    out.room(BYTES)?;
    err.room(BYTES)?;
    Ok(())
}

// The words of a row: those of its line `words`, divided by blanks, and then one for each line `word`.
fn words_of(alloc: Global, row: &str) -> anyhow::Result<Vec<String>> {
    let mut words = Vec::new(alloc);
    for line in row.lines() {
        if let Some(several) = line.strip_prefix("words ") {
            for word in several.split(' ') {
                words.push(String::from_str(alloc, word)?)?;
            }
        } else if let Some(word) = line.strip_prefix("word ") {
            words.push(String::from_str(alloc, word)?)?;
        }
    }
    Ok(words)
}
