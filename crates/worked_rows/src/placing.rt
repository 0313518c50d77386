//! What a row says of its shelf and its sinks.

use shelf_core::{MemoryShelf, MemorySink};
use std::alloc::Global;

/// Sets each file of a row: its line `file NAME`, and the lines of what it holds below it.
pub fn place_all(alloc: Global, row: &str, shelf: &mut MemoryShelf) -> anyhow::Result<()> {
    for part in row.split("\nfile ").skip(1) {
        place(alloc, part, shelf)?;
    }
    Ok(())
}

// Sets one file.
fn place(alloc: Global, part: &str, shelf: &mut MemoryShelf) -> anyhow::Result<()> {
    let name = part.lines().next().unwrap_or("");
    let bytes = content(alloc, part)?;
    shelf.place(name, bytes.as_slice())?;
    Ok(())
}

// What a file holds: a line with `| ` in front with its line feed, one with `> ` without, one with `x ` as a byte in two digits.
fn content(alloc: Global, part: &str) -> anyhow::Result<Vec<u8>> {
    let mut bytes = Vec::new(alloc);
    for line in part.lines().skip(1) {
        if let Some(text) = line.strip_prefix("| ") {
            bytes.extend_from_slice(text.as_bytes())?;
            bytes.push(b'\n')?;
        } else if let Some(text) = line.strip_prefix("> ") {
            bytes.extend_from_slice(text.as_bytes())?;
        } else if let Some(digits) = line.strip_prefix("x ") {
            bytes.push(u8::from_str_radix(digits, 16)?)?;
        } else {
            break;
        }
    }
    Ok(bytes)
}

/// Lists the calls that are to fail, by the lines `shelf-fails N`, `out-fails N` and `err-fails N`, and sets the room of the
/// shelf, by the line `entries N`.
pub fn fail_all(
    row: &str,
    shelf: &mut MemoryShelf,
    out: &mut MemorySink,
    err: &mut MemorySink,
) -> anyhow::Result<()> {
    for line in row.lines() {
        if let Some(call) = line.strip_prefix("shelf-fails ") {
            shelf.fail(call.parse::<u64>()?)?;
        } else if let Some(call) = line.strip_prefix("out-fails ") {
            out.fail(call.parse::<u64>()?)?;
        } else if let Some(call) = line.strip_prefix("err-fails ") {
            err.fail(call.parse::<u64>()?)?;
        } else if let Some(entries) = line.strip_prefix("entries ") {
            shelf.room(entries.parse::<usize>()?, 100_000)?;
        }
    }
    Ok(())
}
