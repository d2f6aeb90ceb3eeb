//! Texts of a data file: strings, and what a string can't say.
//!
//! A text is a string, a piece, or a list of strings and pieces, one behind the other. A piece is a table:
//!
//! - `shared`: the text of this name in the table `texts` of the file.
//! - `text` and `times`: the string so many times, in which `{}` stands for the number of the time, from 0.
//! - `bytes` and `times`: these bytes so many times, once if `times` is missing.
//! - `pad_to`: line feeds, until the whole text has so many bytes.

use crate::values::{bytes_of, check_keys, number_of, string_of};
use anyhow::{Context, Result, bail};
use std::alloc::{AllocError, Global};
use toml::{Table, Value};

/// What stands for the number of the time.
const NUMBER: &str = "{}";

/// The fields of a piece.
const FIELDS: [&str; 5] = ["shared", "text", "bytes", "times", "pad_to"];

/// The text of a value, where `texts` has the shared texts.
pub fn text_of(alloc: Global, texts: &Table, value: &Value) -> Result<Vec<u8>> {
    let mut text = Vec::new(alloc);
    match value {
        Value::Array(pieces) => {
            for piece in pieces {
                append_piece(alloc, texts, piece, &mut text)?;
            }
        }
        piece => append_piece(alloc, texts, piece, &mut text)?,
    }
    Ok(text)
}

/// Appends a string or a piece.
fn append_piece(alloc: Global, texts: &Table, value: &Value, text: &mut Vec<u8>) -> Result<()> {
    match value {
        Value::String(string) => {
            text.extend_from_slice(string.as_bytes())?;
            Ok(())
        }
        Value::Table(piece) => {
            check_keys(piece, &FIELDS)?;
            append_made(alloc, texts, piece, text)
        }
        _ => bail!("a text is a string, a table, or a list of these"),
    }
}

/// Appends what a table asks for.
fn append_made(alloc: Global, texts: &Table, piece: &Table, text: &mut Vec<u8>) -> Result<()> {
    let times = match piece.get("times") {
        Some(times) => number_of(times)?,
        None => 1,
    };
    if let Some(name) = piece.get("shared") {
        let name = string_of(name)?;
        let shared = texts.get(name).context("no shared text of this name")?;
        text.extend_from_slice(string_of(shared)?.as_bytes())?;
    }
    if let Some(string) = piece.get("text") {
        append_string(alloc, string_of(string)?, times, text)?;
    }
    if let Some(bytes) = piece.get("bytes") {
        append_bytes(&bytes_of(alloc, bytes)?, times, text)?;
    }
    if let Some(length) = piece.get("pad_to") {
        text.resize(usize::try_from(number_of(length)?)?, b'\n')?;
    }
    Ok(())
}

/// Appends a string so many times, with the number of the time in its place.
fn append_string(
    alloc: Global,
    string: &str,
    times: u64,
    text: &mut Vec<u8>,
) -> Result<(), AllocError> {
    for time in 0..times {
        match string.split_once(NUMBER) {
            Some((before, behind)) => {
                let numbered = format!(in alloc; "{before}{time}{behind}")?;
                text.extend_from_slice(numbered.as_bytes())?;
            }
            None => text.extend_from_slice(string.as_bytes())?,
        }
    }
    Ok(())
}

/// Appends bytes so many times.
fn append_bytes(bytes: &[u8], times: u64, text: &mut Vec<u8>) -> Result<(), AllocError> {
    for _ in 0..times {
        text.extend_from_slice(bytes)?;
    }
    Ok(())
}
