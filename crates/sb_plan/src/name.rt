//! The names of transforms.

ghost use Rattle.std.specs.Prelude.{◌≡◌, bytes_eq, IfOk, MatchResult, Ok, Err};
ghost use Rattle.std.specs.List.{list_all, list_any};
ghost use Rattle.toml.specs.View.{table_view};
ghost use Rattle.sb_plan.specs.Entries as entries;

use crate::MAX_NAME_BYTES;
use crate::fault::{PlanCause, PlanKey};
use crate::keys::text_at;
use crate::wiring::Part;
use sb_pipeline::NoMemory;
use std::alloc::Global;
use std::marker::Model;
use toml::Table;

/// The name of a transform, or of one of its inputs.
#[derive(Drop)]
pub(crate) struct Name {
    text: String,
}

impl Model for Name {
    ghost use Rattle.std.specs.Prelude.{ℕ, List, string_bytes};

    ghost Value = { List ℕ };

    ghost view = { λ name. string_bytes name.text };
}

impl Name {
    pub(crate) fn new(alloc: Global, text: &str) -> Result<Name, NoMemory>
        ensures { IfOk result (λ name. name ≡ text.now) }
    {
        match String::from_str(alloc, text) {
            Ok(text) => Ok(Name { text }),
            Err(_) => Err(NoMemory),
        }
    }

    pub(crate) fn as_str(&self) -> &str
        ensures { result.now ≡ self.now }
    {
        self.text.as_str()
    }
}

/// The name at `name`, which none of the earlier transforms has.
#[tactic(auto, unfolding(crate::specs::Entries::name_at, crate::specs::Entries::name_of, crate::specs::Keys::word_at))]
pub(crate) fn name_at<'a>(table: &'a Table, parts: &[Part]) -> Result<&'a str, PlanCause>
    ensures { MatchResult result (λ s. entries.name_at parts.now (table_view table.now) ≡ Ok s.now)
        (λ e. entries.name_at parts.now (table_view table.now) ≡ Err e) }
{
    let name = text_at(table, PlanKey::Name)?;
    if !is_spelled_as_name(name) || is_stream_name(name) {
        return Err(PlanCause::OutOfRange(PlanKey::Name));
    }
    if is_taken(name, parts) {
        return Err(PlanCause::NameTaken);
    }
    Ok(name)
}

fn is_spelled_as_name(text: &str) -> bool
    ensures { result ≡ entries.is_spelled_as_name text.now }
{
    let bytes = text.as_bytes();
    begins_with_letter(bytes) && bytes.len() <= MAX_NAME_BYTES && are_name_bytes(bytes)
}

fn are_name_bytes(bytes: &[u8]) -> bool
    ensures { result ≡ list_all entries.is_name_byte bytes.now }
{
    bytes.iter().all(|byte| is_name_byte(*byte))
}

fn is_stream_name(text: &str) -> bool
    ensures { result ≡ entries.is_stream_name text.now }
{
    text == "a" || text == "b"
}

fn begins_with_letter(bytes: &[u8]) -> bool
    ensures { result ≡ entries.begins_with_letter bytes.now }
{
    match bytes.first() {
        Some(byte) => is_letter(*byte),
        None => false,
    }
}

fn is_letter(byte: u8) -> bool
    ensures { result ≡ entries.is_letter byte }
{
    b'a' <= byte && byte <= b'z'
}

fn is_name_byte(byte: u8) -> bool
    ensures { result ≡ entries.is_name_byte byte }
{
    is_letter(byte) || (b'0' <= byte && byte <= b'9') || byte == b'_'
}

fn is_taken(name: &str, parts: &[Part]) -> bool
    ensures { result ≡ list_any (λ part. bytes_eq part.name name.now) parts.now }
{
    parts.iter().any(|part| part.name.as_str() == name)
}
