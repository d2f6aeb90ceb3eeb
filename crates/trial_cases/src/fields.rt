//! The fields of a case. Where a case has none of a name, that of its group holds.

use crate::tables::{Calls, Lines, Watch};
use crate::texts::text_of;
use crate::values::{check_keys, list_of, number_of, numbers_of, string_of, strings_of, table_of};
use anyhow::{Context, Result, bail};
use std::alloc::Global;
use std::collections::BTreeMap;
use toml::{Table, Value};

/// The fields of a case and of its group.
#[derive(Clone, Copy)]
pub struct Fields<'a> {
    /// The shared texts.
    pub texts: &'a Table,
    pub group: &'a Table,
    pub case: &'a Table,
}

impl<'a> Fields<'a> {
    /// The field of this name.
    pub fn find(&self, name: &str) -> Option<&'a Value> {
        match self.case.get(name) {
            Some(value) => Some(value),
            None => self.group.get(name),
        }
    }

    /// The text of this name, empty if there is none.
    pub fn text(&self, alloc: Global, name: &str) -> Result<Vec<u8>> {
        match self.find(name) {
            Some(value) => text_of(alloc, self.texts, value).context(format_args!("field {name}")),
            None => Ok(Vec::new(alloc)),
        }
    }

    /// The words of this name, which must be there.
    pub fn words(&self, alloc: Global) -> Result<Vec<String>> {
        let words = self.find("words").context("no words")?;
        strings_of(alloc, words).context("field words")
    }

    /// The number of this name, 0 if there is none.
    pub fn number(&self, name: &str) -> Result<u64> {
        match self.find(name) {
            Some(value) => number_of(value).context(format_args!("field {name}")),
            None => Ok(0),
        }
    }

    /// The numbers of this name, or else these.
    pub fn numbers(&self, alloc: Global, name: &str, default: &[u64]) -> Result<Vec<u64>> {
        match self.find(name) {
            Some(value) => numbers_of(alloc, value).context(format_args!("field {name}")),
            None => Ok(Vec::from_slice(alloc, default)?),
        }
    }

    /// Whether the field of this name is there and true.
    pub fn flag(&self, name: &str) -> Result<bool> {
        match self.find(name) {
            Some(Value::Boolean(flag)) => Ok(*flag),
            Some(_) => bail!("field {name}: true or false is missing"),
            None => Ok(false),
        }
    }

    /// How the calls of this name go: well, if there is no such field.
    pub fn calls(&self, alloc: Global, name: &str) -> Result<Calls> {
        match self.find(name) {
            Some(value) => calls_of(alloc, value).context(format_args!("field {name}")),
            None => Ok(Calls {
                most: 0,
                failing: Vec::new(alloc),
            }),
        }
    }

    /// The taps.
    pub fn taps(&self, alloc: Global) -> Result<Vec<Watch>> {
        let mut taps = Vec::new(alloc);
        if let Some(list) = self.find("taps") {
            for tap in list_of(list)? {
                taps.push(watch_of(alloc, table_of(tap)?).context("field taps")?)?;
            }
        }
        Ok(taps)
    }

    /// The files of the folder: the plan, the table, and those of the field `files`.
    pub fn files(&self, alloc: Global) -> Result<BTreeMap<String, Vec<u8>>> {
        let mut files = BTreeMap::new(alloc);
        files.insert(
            String::from_str(alloc, "p.toml")?,
            self.text(alloc, "plan")?,
        )?;
        files.insert(
            String::from_str(alloc, "ads.csv")?,
            self.text(alloc, "table")?,
        )?;
        if let Some(more) = self.find("files") {
            for (name, value) in table_of(more)? {
                let bytes = text_of(alloc, self.texts, value).context("field files")?;
                files.insert(name.clone()?, bytes)?;
            }
        }
        Ok(files)
    }

    /// Of which stream the lines are: of both, if there is no such field.
    pub fn lines(&self) -> Result<Lines> {
        let Some(value) = self.find("lines") else {
            return Ok(Lines::OfBoth);
        };
        match string_of(value)? {
            "a" => Ok(Lines::OfA),
            "b" => Ok(Lines::OfB),
            "both" => Ok(Lines::OfBoth),
            other => bail!("field lines: {other} is no stream"),
        }
    }
}

/// How calls go.
fn calls_of(alloc: Global, value: &Value) -> Result<Calls> {
    let table = table_of(value)?;
    check_keys(table, &["most", "failing"])?;
    let most = match table.get("most") {
        Some(most) => usize::try_from(number_of(most)?)?,
        None => 0,
    };
    let failing = match table.get("failing") {
        Some(failing) => numbers_of(alloc, failing)?,
        None => Vec::new(alloc),
    };
    Ok(Calls { most, failing })
}

/// A tap.
fn watch_of(alloc: Global, table: &Table) -> Result<Watch> {
    check_keys(table, &["head", "count"])?;
    match (table.get("head"), table.get("count")) {
        (Some(most), None) => Ok(Watch::Head(u32::try_from(number_of(most)?)?)),
        (None, Some(failing)) => Ok(Watch::Count(numbers_of(alloc, failing)?)),
        _ => bail!("a tap has head or count"),
    }
}
