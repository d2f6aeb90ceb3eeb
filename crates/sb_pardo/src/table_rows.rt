//! The rows of a text of comma-separated fields: the reader that gives them one after another, and what stands in one.

ghost use Rattle.std.specs.Prelude.{◌≡◌, ◌≤◌, List, IfOk, IfSome};
ghost use Rattle.std.specs.Option.{option_map};
ghost use Rattle.csv.specs.Records.{fields_of};
ghost use Rattle.sb_record.specs.Keys.{IsKey};
ghost use Rattle.sb_record.specs.Reading.{whole_number};
ghost use Rattle.sb_pardo.specs.TableFiles as spec;
ghost use Rattle.sb_pardo.specs.TableFiles.{Fields, rows_of};
ghost use Rattle.sb_pardo.specs.TableReading.{FindsRow, HasRows};

use csv::{ByteRecord, Reader, ReaderBuilder};
use sb_record::{Key, Keys, MAX_KEY, NoMemory, Word, read_number};
use std::alloc::Global;

/// A reader at the first row of a text.
pub(crate) fn rows_in<'a>(alloc: Global, text: &'a [u8]) -> Reader<&'a [u8]>
    ensures { HasRows result (rows_of text.now) }
{
    ReaderBuilder::new()
        .has_headers(false)
        .flexible(true)
        .from_reader(alloc, text)
}

/// Reads the next row, and says whether there was one.
pub(crate) fn next_row(reader: &mut Reader<&[u8]>, row: &mut ByteRecord) -> Result<bool, NoMemory>
    ensures { IfOk result
        (λ found. (rows : List Fields) → HasRows reader.old rows → FindsRow rows found (fields_of row.new) reader.new) }
{
    let Ok(found) = reader.read_byte_record(row) else {
        return Err(NoMemory);
    };
    Ok(found)
}

/// The two fields of a row of two.
pub(crate) fn columns_of(row: &ByteRecord) -> Option<(&[u8], &[u8])>
    ensures { option_map (λ columns. (columns.0.now, columns.1.now)) result ≡ spec.columns_of (fields_of row.now) }
{
    if row.len() != 2 {
        return None;
    }
    row.get(0).zip(row.get(1))
}

/// The number that a field spells, in decimal digits.
fn number_of(field: &[u8]) -> Option<u64>
    ensures value { result ≡ whole_number MAX_KEY field.now }
    ensures range { IfSome result (λ number. number ≤ MAX_KEY) }
{
    read_number(MAX_KEY, field)
}

/// The key that a field spells.
pub(crate) fn key_of(keys: Keys, field: &[u8]) -> Option<Key>
    ensures value { result ≡ spec.key_of keys field.now }
    ensures range { IfSome result IsKey }
{
    match keys {
        Keys::Numbers => number_of(field).map(Key::Number),
        Keys::Words => Word::new(field).map(Key::Word),
    }
}
