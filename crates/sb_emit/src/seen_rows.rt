//! The rows that a tap has seen.

ghost use Rattle.std.specs.Prelude.{◌≡◌, ◌%◌, ◌^◌, [], ◌∷◌, ◌++◌, length};

use sb_record::{Record, Trail};
use std::marker::Model;

/// The rows that a tap has seen: contracts see the whole list, and the program keeps how many they are. It takes no
/// memory, however long the list is.
#[derive(Drop)]
pub struct SeenRows {
    rows: Trail<Record>,
    count: u64,
}

impl Model for SeenRows {
    ghost use Rattle.std.specs.Prelude.{List, length, ◌≡◌, ◌%◌, ◌^◌};
    ghost use Rattle.sb_record.specs.declared.item.Record.{Record};

    ghost Value = { List Record };

    ghost view = { λ s. s.rows };

    ghost invariant = { λ s. s.count ≡ length s.rows % 2 ^ 64 };
}

impl SeenRows {
    /// No row yet.
    pub fn new() -> SeenRows
        ensures { result ≡ [] }
    {
        SeenRows {
            rows: Trail::start(),
            count: 0,
        }
    }

    /// One row more.
    pub fn add(&mut self, row: &Record)
        ensures { self.new ≡ self.old ++ row.now ∷ [] }
    {
        self.rows = self.rows.with(*row);
        self.count = self.count.wrapping_add(1);
    }

    /// How many rows, modulo 2^64.
    pub fn count(&self) -> u64
        ensures { result ≡ length self.now % 2 ^ 64 }
    {
        self.count
    }
}
