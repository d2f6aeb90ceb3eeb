//! Tables as texts: rows of a key and its image, separated by a comma.

ghost use Rattle.std.specs.Prelude.{◌≡◌, ◌≤◌, List, IfOk};
ghost use Rattle.csv.specs.Records.{fields_of};
ghost use Rattle.sb_record.specs.Keys.{IsKey};
ghost use Rattle.sb_pardo.specs.TableFiles as spec;
ghost use Rattle.sb_pardo.specs.TableFiles.{AnswersTable, Fields, table_of};
ghost use Rattle.sb_pardo.specs.TableReading.{HasRows, TakesRow};

use crate::table::Table;
use crate::table_rows::{columns_of, key_of, next_row, rows_in};
use csv::{ByteRecord, Reader};
use sb_record::{Key, Keys};
use std::alloc::Global;

/// The most rows of a table.
pub const MAX_ROWS: u32 = 100_000;

/// What is wrong with a row of a table, in the order of the tests.
#[derive(Clone, Copy, Debug, PartialEq, Eq, Drop)]
pub enum RowFault {
    /// The row is behind the most rows of a table.
    TooMany,
    /// The row has not two columns.
    Width,
    /// The first column is no key.
    Key,
    /// The second column is no key.
    Image,
    /// The key stood in an earlier row.
    Repeated,
}

/// A faulty row of a table.
#[derive(Clone, Copy, Debug, PartialEq, Eq, Drop)]
pub struct TableFault {
    /// The row, counted from 1. Empty lines give no row.
    pub row: u32,
    pub what: RowFault,
}

/// Why there is no table.
#[derive(Clone, Copy, Debug, PartialEq, Eq, Drop)]
pub enum TableStop {
    /// The first faulty row, and the first test that it fails.
    Fault(TableFault),
    /// Memory was wanting.
    Memory,
}

impl Table {
    /// The table of a text without a head line: each row is a key and its image. Where keys are numbers, both are in
    /// decimal digits from 0 to [`MAX_KEY`](sb_record::MAX_KEY), without a sign or leading zeros; where keys are words,
    /// both are words.
    ///
    /// # Errors
    ///
    /// The first faulty row, counted from 1, and the first test that it fails.
    pub fn read(alloc: Global, bytes: &[u8], keys: Keys) -> Result<Table, TableStop>
        ensures { AnswersTable result (table_of keys bytes.now) }
    {
        let mut reader = rows_in(alloc, bytes);
        let mut row = ByteRecord::new(alloc);
        let mut table = Table::new(alloc);
        for number in 1..=MAX_ROWS {
            if !take_row(keys, number, &mut reader, &mut row, &mut table)? {
                return Ok(table);
            }
        }
        let Ok(is_more) = next_row(&mut reader, &mut row) else {
            return Err(TableStop::Memory);
        };
        if is_more {
            return Err(TableStop::Fault(TableFault {
                row: MAX_ROWS + 1,
                what: RowFault::TooMany,
            }));
        }
        Ok(table)
    }
}

/// The key and the image of a row that comes after those in `table`, or its first fault.
#[tactic(auto, unfolding(crate::specs::TableFiles::entry_of))]
fn entry_of(keys: Keys, table: &Table, row: &ByteRecord) -> Result<(Key, Key), RowFault>
    ensures value { result ≡ spec.entry_of keys table.now (fields_of row.now) }
    ensures range { IfOk result (λ entry. IsKey entry.1) }
{
    let Some((first, second)) = columns_of(row) else {
        return Err(RowFault::Width);
    };
    let Some(key) = key_of(keys, first) else {
        return Err(RowFault::Key);
    };
    let Some(image) = key_of(keys, second) else {
        return Err(RowFault::Image);
    };
    if table.image(&key).is_some() {
        return Err(RowFault::Repeated);
    }
    Ok((key, image))
}

/// Takes the next row, which has this number, into the table. Says whether there was one.
fn take_row(
    keys: Keys,
    number: u32,
    reader: &mut Reader<&[u8]>,
    row: &mut ByteRecord,
    table: &mut Table,
) -> Result<bool, TableStop>
    requires { number ≤ MAX_ROWS }
    ensures { (rows : List Fields) → HasRows reader.old rows
        → TakesRow keys number rows table.old result reader.new table.new }
{
    let Ok(found) = next_row(reader, row) else {
        return Err(TableStop::Memory);
    };
    if !found {
        return Ok(false);
    }
    let (key, image) = match entry_of(keys, table, row) {
        Ok(entry) => entry,
        Err(what) => return Err(TableStop::Fault(TableFault { row: number, what })),
    };
    if table.insert(key, image).is_err() {
        return Err(TableStop::Memory);
    }
    Ok(true)
}
