//! Data files: groups of cases on one subject.

use crate::cases::case_of;
use crate::fields::Fields;
use crate::tables::Case;
use crate::values::{list_of, string_of, table_of};
use anyhow::{Context, Result};
use std::alloc::Global;
use std::fs::File;
use std::rt::Files;
use std::{fmt, fs};
use toml::Table;

/// A case, and where it stands: the file, the group, its number there, and its name if it has one.
#[derive(Drop)]
pub struct PlacedCase {
    pub place: String,
    pub case: Case,
}

/// Where a case stands.
#[derive(Clone, Copy, Drop)]
struct Place<'a> {
    subject: &'a str,
    group: &'a str,
    number: usize,
    name: Option<&'a str>,
}

impl fmt::Display for Place<'_> {
    fn fmt<W: fmt::Write>(&self, f: &mut fmt::Formatter<W>) -> fmt::Result {
        let Place {
            subject,
            group,
            number,
            name,
        } = *self;
        write!(f, "{subject}: {group}: case {number}")?;
        match name {
            Some(name) => write!(f, " ({name})"),
            None => Ok(()),
        }
    }
}

/// The cases of the data file of a subject, each with its place.
///
/// # Errors
///
/// The file can't be read, or says something that no case can have.
pub fn cases_of(
    rt: &(impl AllocGlobal + Files<File = File>),
    subject: &str,
) -> Result<Vec<PlacedCase>> {
    let alloc = rt.alloc();
    let table = load(rt, subject).context(format_args!("file {subject}.toml"))?;
    let none = Table::new(alloc);
    let texts = match table.get("texts") {
        Some(texts) => table_of(texts).context("texts")?,
        None => &none,
    };
    let mut cases = Vec::new(alloc);
    for group in list_of(table.get("group").context("no groups")?)? {
        append_group(alloc, subject, texts, table_of(group)?, &mut cases)?;
    }
    Ok(cases)
}

/// The table that a file has.
fn load(rt: &(impl AllocGlobal + Files<File = File>), subject: &str) -> Result<Table> {
    let alloc: Global = rt.alloc();
    let name = format!(in alloc; "{subject}.toml")?;
    let text = fs::read_to_string(rt, name.as_str())?;
    Ok(toml::table_from_str(alloc, text.as_str())?)
}

/// Appends the cases of a group.
fn append_group(
    alloc: Global,
    subject: &str,
    texts: &Table,
    group: &Table,
    all: &mut Vec<PlacedCase>,
) -> Result<()> {
    let name = string_of(group.get("name").context("a group has no name")?)?;
    let cases = list_of(group.get("case").context("a group has no cases")?)?;
    for (number, case) in cases.iter().enumerate() {
        let case = table_of(case)?;
        let place = Place {
            subject,
            group: name,
            number: number.saturating_add(1),
            name: name_of(case)?,
        };
        let fields = Fields { texts, group, case };
        let case = case_of(alloc, fields).context(place)?;
        let place = format!(in alloc; "{place}")?;
        all.push(PlacedCase { place, case })?;
    }
    Ok(())
}

/// The name of a case, if it has one.
fn name_of(case: &Table) -> Result<Option<&str>> {
    match case.get("name") {
        Some(name) => Ok(Some(string_of(name)?)),
        None => Ok(None),
    }
}
