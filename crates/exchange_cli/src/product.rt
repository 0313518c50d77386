//! What a command makes of what it read.

use crate::ending::Finding;
use crate::file::FileOut;
use shelf_core::Bytes;
use term_core::Items;

/// What a command makes of what it read. Nothing of it is stored or printed yet.
#[derive(Drop)]
pub struct Product {
    /// The files, in the order in which they are stored.
    pub files: Items<FileOut>,
    /// The line that is printed on the standard output.
    pub line: Bytes,
    /// What was found, which gives the status.
    pub finding: Finding,
}
