//! Tables as bytes, both ways: source tables are read as facts or their first fault, and stored tables are written so
//! that reading gives their header and their rows again. Both stand on the records of `csv`.
#![tactic(auto)]

mod cell;
mod data_record;
mod fact;
mod fault;
mod fields;
pub mod laws;
mod out_row;
mod row_source;
mod stored;
mod table;

pub use cell::{Cell, cell_text};
pub use fact::RawFact;
pub use fault::{TableCode, TableError, TableFault};
pub use out_row::OutRow;
pub use row_source::RowSource;
pub use stored::write_table;
pub use table::read_table;
