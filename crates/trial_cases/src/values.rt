//! Values of a data file as numbers, strings and lists.

use anyhow::{Result, bail};
use std::alloc::Global;
use toml::{Table, Value};

/// Refuses a table with a key that is not among these, so that none is misspelled.
pub fn check_keys(table: &Table, known: &[&str]) -> Result<()> {
    for key in table.keys() {
        if !is_among(key.as_str(), known) {
            bail!("unknown field {key}");
        }
    }
    Ok(())
}

fn is_among(key: &str, known: &[&str]) -> bool {
    for name in known {
        if *name == key {
            return true;
        }
    }
    false
}

/// The number of a value, which is at least 0.
pub fn number_of(value: &Value) -> Result<u64> {
    let Value::Integer(number) = value else {
        bail!("a number is missing");
    };
    match u64::try_from(*number) {
        Ok(number) => Ok(number),
        Err(_) => bail!("a number is below 0"),
    }
}

/// The string of a value.
pub fn string_of(value: &Value) -> Result<&str> {
    match value {
        Value::String(string) => Ok(string.as_str()),
        _ => bail!("a string is missing"),
    }
}

/// The table of a value.
pub fn table_of(value: &Value) -> Result<&Table> {
    match value {
        Value::Table(table) => Ok(table),
        _ => bail!("a table is missing"),
    }
}

/// The list of a value.
pub fn list_of(value: &Value) -> Result<&[Value]> {
    match value {
        Value::Array(list) => Ok(list.as_slice()),
        _ => bail!("a list is missing"),
    }
}

/// The numbers of a list.
pub fn numbers_of(alloc: Global, value: &Value) -> Result<Vec<u64>> {
    let mut numbers = Vec::new(alloc);
    for number in list_of(value)? {
        numbers.push(number_of(number)?)?;
    }
    Ok(numbers)
}

/// The bytes of a list of numbers.
pub fn bytes_of(alloc: Global, value: &Value) -> Result<Vec<u8>> {
    let mut bytes = Vec::new(alloc);
    for number in list_of(value)? {
        bytes.push(u8::try_from(number_of(number)?)?)?;
    }
    Ok(bytes)
}

/// The strings of a list.
pub fn strings_of(alloc: Global, value: &Value) -> Result<Vec<String>> {
    let mut strings = Vec::new(alloc);
    for string in list_of(value)? {
        strings.push(String::from_str(alloc, string_of(string)?)?)?;
    }
    Ok(strings)
}
