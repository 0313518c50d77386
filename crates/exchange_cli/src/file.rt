//! A file that is to be stored.

use shelf_core::Bytes;
use term_core::Text;

/// A file that is to be stored: its name on the shelf and its bytes.
#[derive(Drop)]
pub struct FileOut {
    pub name: Text,
    pub bytes: Bytes,
}
