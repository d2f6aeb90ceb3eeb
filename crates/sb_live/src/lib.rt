//! A live table: one writer shows rows, and readers in other threads ask for the last row of a key.
//!
//! [`live`] makes a table without rows, its writer ([`LiveOut`]) and its readers ([`LiveReader`]). The table stands
//! twice, by the kit's `left_right`: readers read one copy without a lock while the writer changes the other. The rows
//! of a call become visible together, and no reader goes back: for a key it never answers an earlier row than before.
//! [`LiveRows`] is the output through which a run shows its rows, and [`key_named`] the key that a user's text names.
#![tactic(auto)]

mod change;
pub mod laws;
mod naming;
mod reader;
mod rising;
mod rows;
mod rule;
mod table;
mod writer;

pub use change::Change;
pub use naming::key_named;
pub use reader::{LiveReader, TableEnded};
pub use rows::LiveRows;
pub use writer::{LiveOut, MAX_READERS, live};
