//! The transforms that treat each record by itself, called ParDo in the Dataflow model: filters, maps, expansions and
//! look-ups.
//!
//! An [`Op`] gives a list of records for each record, in the records' order, and never changes a record's time.
//! [`apply`] runs one over a slice of records. A look-up reads a [`Table`].
#![tactic(auto)]

mod changes;
mod filters;
pub mod laws;
mod operation;
mod outputs;
mod table;
mod table_file;
mod table_rows;

pub use operation::{Change, Field, MAX_ADDENDS, Op, Test, is_valid};
pub use outputs::apply;
pub use table::Table;
pub use table_file::{MAX_ROWS, RowFault, TableFault, TableStop};
