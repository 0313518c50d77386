//! Stores the files of a product and prints its line. Nothing here takes memory.

ghost use Rattle.std.specs.Prelude.{◌≡◌, ◌<◌, ◌≤◌, length, slice_index_or, OnOk, IfErr};
ghost use Rattle.exchange_cli.specs.Run.{device, seen, Stores, Delivers};
ghost use Rattle.exchange_cli.specs.Steps.{StopsAtFile};
ghost use Rattle.exchange_cli.specs.declared.file.FileOut.{FileOut as File};

use crate::ending::Ending;
use crate::file::FileOut;
use crate::product::Product;
use shelf_core::{Shelf, Sink};
use term_core::{Items, Text};

/// Stores the files in their order and then prints the line. A failure ends it.
pub fn deliver<S: Shelf, O: Sink>(product: Product, shelf: &mut S, out: &mut O) -> Ending
    ensures delivers { Delivers
        (seen S.holds S.faults O.text O.faults shelf.old out.old)
        (seen S.holds S.faults O.text O.faults shelf.new out.new) product result }
    ensures later { S.faults shelf.old ≤ S.faults shelf.new }
{
    let Product {
        files,
        line,
        finding,
    } = product;
    if let Err(at) = store_all(shelf, files.as_slice()) {
        return Ending::Write(name_at(files, at));
    }
    match out.put(line.as_slice()) {
        Ok(()) => Ending::Done(finding),
        Err(_) => Ending::Output,
    }
}

// Stores the files in their order, or answers the place of the one whose store failed.
fn store_all<S: Shelf>(shelf: &mut S, files: &[FileOut]) -> Result<(), usize>
    ensures ok { OnOk result
        (Stores (device (S.holds shelf.old) (S.faults shelf.old))
        (device (S.holds shelf.new) (S.faults shelf.new)) files.now) }
    ensures err { IfErr result
        (StopsAtFile (device (S.holds shelf.old) (S.faults shelf.old))
        (device (S.holds shelf.new) (S.faults shelf.new)) files.now) }
    ensures later { S.faults shelf.old ≤ S.faults shelf.new }
{
    for (at, file) in files.iter().enumerate() {
        match shelf.store(file.name.as_str(), file.bytes.as_slice()) {
            Ok(()) => {}
            Err(_) => return Err(at),
        }
    }
    Ok(())
}

// The name of the file at a place.
fn name_at(files: Items<FileOut>, at: usize) -> Text
    requires { at < length files }
    ensures { (file : File) → file ≡ slice_index_or files at file → result ≡ file.name }
{
    let mut files = files.into_vec();
    let FileOut { name, bytes: _ } = files.swap_remove(at);
    name
}
