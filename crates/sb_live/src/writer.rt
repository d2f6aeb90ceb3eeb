//! The writer's end.

ghost use Rattle.std.proofs.Props.{props};
ghost use Rattle.std.specs.Prelude.{◌≡◌, ◌≤◌, [], ◌++◌, All, IfOk, IsTrue, OnErr, OnOk, drop, false, length, true, ◌↔◌};
ghost use Rattle.left_right.specs.Sides.{view as known_by};
ghost use Rattle.sb_live.specs.Changes.{AreCallsApart, call_of};
ghost use Rattle.sb_live.specs.Lasts.{last_of};
ghost use Rattle.sb_live.specs.declared.writer.TheConstants.{MAX_READERS};
ghost use Rattle.sb_live.specs.Rising.{RiseFrom, next_after, next_in, next_time};

use crate::change::Change;
use crate::reader::LiveReader;
use crate::rising::rise_above;
use crate::rule::{Follow, Known, See, Taken, Told};
use crate::table::Table;
use core::mem::replace_with;
use left_right::writer::Writer;
use sb_emit::{Key, NoMemory, Record};
use std::alloc::Global;
use std::marker::Model;
use std::sync::Wait;

/// The most readers that a table is made with.
pub const MAX_READERS: u32 = 64;

type TableWriter = Writer<Table, Change, Known, Follow>;

/// Shows rows to the readers of a table.
///
/// To contracts it is the list of changes that was shown, and whether it is spent. It is not `Drop`: end it by
/// [`LiveOut::end`].
pub struct LiveOut<R: Wait + Drop> {
    rt: R,
    writer: TableWriter,
    spent: bool,
    /// The time of the last row that was shown.
    latest: Option<u64>,
    ghost follows: { known_by writer.desk.place ≡ writer.desk.shown.value.changes },
    ghost settled: { spent ≡ false → drop writer.behind writer.log.items ≡ [] },
    ghost latest_is: { next_after latest ≡ next_in (known_by writer.desk.place) },
    ghost apart: { AreCallsApart (known_by writer.desk.place) } by { Prim.hlevel props },
}

impl<R: Wait + Drop> Model for LiveOut<R> {
    ghost use Rattle.left_right.specs.Sides.{view as known_by};
    ghost use Rattle.sb_live.specs.Showings.{Showing};

    ghost Value = { Showing };

    ghost view = { λ o. record { changes = known_by o.writer.desk.place; is_spent = o.spent } };
}

// Logs the changes of a call.
fn log_call(writer: &mut TableWriter, rows: &[Record]) -> Result<(), NoMemory>
    ensures desk { writer.new.desk ≡ writer.old.desk }
    ensures logged { OnOk result (drop writer.new.behind writer.new.log.items
        ≡ drop writer.old.behind writer.old.log.items ++ call_of rows.now) }
{
    for row in rows {
        if writer.append(Change::Row(*row)).is_err() {
            return Err(NoMemory);
        }
    }
    if writer.append(Change::End).is_err() {
        return Err(NoMemory);
    }
    Ok(())
}

// Logs the changes of a call and publishes them.
#[tactic(auto, using(crate::proofs::Ends::fold_snoc, crate::proofs::Earlier::next_after_call))]
fn show_call<R: Wait>(
    rt: &R,
    mut writer: TableWriter,
    rows: &[Record],
) -> (TableWriter, Result<(), NoMemory>)
    requires follows { known_by writer.desk.place ≡ writer.desk.shown.value.changes }
    requires settled { drop writer.behind writer.log.items ≡ [] }
    requires rising { RiseFrom (next_in (known_by writer.desk.place)) rows.now }
    requires apart { AreCallsApart (known_by writer.desk.place) }
    ensures follows { known_by result.0.desk.place ≡ result.0.desk.shown.value.changes }
    ensures settled { OnOk result.1 (drop result.0.behind result.0.log.items ≡ []) }
    ensures shown { OnOk result.1 (known_by result.0.desk.place ≡ known_by writer.desk.place ++ call_of rows.now) }
    ensures kept { OnErr result.1 (known_by result.0.desk.place ≡ known_by writer.desk.place) }
    ensures next { OnOk result.1 (next_in (known_by result.0.desk.place)
        ≡ next_time (next_in (known_by writer.desk.place)) rows.now) }
    ensures apart { AreCallsApart (known_by result.0.desk.place) }
{
    let Ok(()) = log_call(&mut writer, rows) else {
        return (writer, Err(NoMemory));
    };
    let (writer, published) = writer.publish_as::<See, R>(rt);
    match published {
        Ok(()) => (writer, Ok(())),
        Err(_) => (writer, Err(NoMemory)),
    }
}

// The time of the last row, or the last before where there is none.
fn latest_after(latest: Option<u64>, rows: &[Record]) -> Option<u64>
    ensures { next_after result ≡ next_time (next_after latest) rows.now }
{
    match rows.last() {
        Some(row) => Some(row.time),
        None => latest,
    }
}

impl<R: Wait + Drop> LiveOut<R> {
    /// Shows the rows of a call, all at once. Their times do not fall, and the first is above that of the last row that
    /// was shown.
    ///
    /// # Errors
    ///
    /// If there was not enough memory. Then readers see the rows of the calls before, and so they do from then on: each
    /// later call answers the same.
    pub fn show(&mut self, rows: &[Record]) -> Result<(), NoMemory>
        requires rising { RiseFrom (next_in self.old.changes) rows.now }
        ensures shown { OnOk result (self.new.changes ≡ self.old.changes ++ call_of rows.now) }
        ensures kept { OnErr result (self.new.changes ≡ self.old.changes) }
        ensures spent { OnErr result (self.new.is_spent ≡ true) }
        ensures unspent { OnOk result ((self.old.is_spent ≡ false) × (self.new.is_spent ≡ false)) }
    {
        if self.spent {
            return Err(NoMemory);
        }
        self.spent = true;
        let with = (&self.rt, rows);
        replace_with(
            &mut self.writer,
            with,
            |writer, (rt, rows)| show_call(rt, writer, rows),
        )?;
        self.latest = latest_after(self.latest, rows);
        self.spent = false;
        Ok(())
    }

    /// Whether `show` may be called with these rows.
    pub fn may_show(&self, rows: &[Record]) -> bool
        ensures { IsTrue result ↔ RiseFrom (next_in self.now.changes) rows.now }
    {
        rise_above(self.latest, rows)
    }

    /// A law: the rows of each call are later than those of the calls before. So no window has rows in two calls.
    pub fn calls_are_apart(&self)
        ensures { AreCallsApart self.now.changes }
    {
        let _spent = self.spent;
    }

    /// The last row of the key that was shown, if there is one.
    pub fn last(&self, key: &Key) -> Option<Record>
        ensures { result ≡ last_of key.now self.now.changes }
    {
        self.writer.published().last(key)
    }

    /// A reader that begins with all that was shown: it never answers as if one of those rows were missing.
    ///
    /// # Errors
    ///
    /// If there was not enough memory, or each place for a reader is in use. A reader gives its place back when it is
    /// dropped.
    pub fn reader(&mut self) -> Result<LiveReader, NoMemory>
        ensures reader { IfOk result (λ r. r ≡ self.old.changes) }
        ensures same { self.new ≡ self.old }
    {
        let Ok(mut reader) = self.writer.factory().reader() else {
            return Err(NoMemory);
        };
        reader.learn::<Taken>(self.writer.tell::<Told>());
        Ok(LiveReader::new(reader))
    }

    /// Takes the table down. It waits for the readers that are reading.
    pub fn end(self) {
        let LiveOut {
            rt,
            writer,
            spent: _,
            latest: _,
        } = self;
        drop(writer.take(&rt));
    }
}

// Makes so many readers.
fn add_readers<R: Wait + Drop>(
    out: &mut LiveOut<R>,
    readers: &mut Vec<LiveReader>,
    count: u32,
) -> Result<(), NoMemory>
    requires { readers.old.items ≡ [] }
    ensures same { out.new ≡ out.old }
    ensures count { OnOk result (length readers.new.items ≡ count) }
    ensures lists { OnOk result (All (λ r. r ≡ out.old.changes) readers.new.items) }
{
    for _ in 0..count {
        let reader = out.reader()?;
        if readers.push(reader).is_err() {
            return Err(NoMemory);
        }
    }
    Ok(())
}

/// A table without rows, and so many readers of it, 1 to [`MAX_READERS`]. There is room for one reader more.
///
/// # Errors
///
/// If there was not enough memory.
pub fn live<R: Wait + Drop>(
    alloc: Global,
    rt: R,
    readers: u32,
) -> Result<(LiveOut<R>, Vec<LiveReader>), NoMemory>
    requires { (1 ≤ readers) × (readers ≤ MAX_READERS) }
    ensures out { IfOk result (λ p. p.0 ≡ record { changes = []; is_spent = false }) }
    ensures count { IfOk result (λ p. length p.1.items ≡ readers) }
    ensures readers { IfOk result (λ p. All (λ r. r ≡ []) p.1.items) }
{
    let (first, second) = (Table::new(alloc), Table::new(alloc));
    let Ok(writer) = Writer::new(alloc, first, second, readers as usize + 1) else {
        return Err(NoMemory);
    };
    let mut out = LiveOut {
        rt,
        writer,
        spent: false,
        latest: None,
    };
    let mut made = Vec::new(alloc);
    match add_readers(&mut out, &mut made, readers) {
        Ok(()) => Ok((out, made)),
        Err(_) => {
            out.end();
            Err(NoMemory)
        }
    }
}
