//! The readers' end.

ghost use Rattle.std.specs.Prelude.{◌≡◌, IfOk, OnErr, OnOk};
ghost use Rattle.left_right.specs.Sides.{view as known_by};
ghost use Rattle.sb_emit.specs.records.declared.key.Key.{Key};
ghost use Rattle.sb_live.specs.Changes.{AreCallsApart, IsPrefix, IsWhole};
ghost use Rattle.sb_live.specs.Following.{Sees};
ghost use Rattle.sb_live.specs.Lasts.{last_of};
ghost use Rattle.sb_live.specs.Rising.{IsNoEarlier};

use crate::rule::{Follow, Known, See};
use crate::table::Table;
use core::mem::replace_with;
use left_right::reader::Reader;
use sb_emit::{Key, Record};
use std::error::Error;
use std::fmt;
use std::marker::Model;

/// The writer has taken the table down.
#[derive(Clone, Copy, Debug, PartialEq, Eq, Drop)]
pub struct TableEnded;

impl fmt::Display for TableEnded {
    fn fmt<W: fmt::Write>(&self, f: &mut fmt::Formatter<W>) -> fmt::Result {
        f.write_str("the table has ended")
    }
}

impl Error for TableEnded {}

pub(crate) type TableReader = Reader<Table, Known, Follow>;

/// Asks for the last row of a key, without a lock and without memory.
///
/// To contracts it is a list of changes: those of the table at its last answer, or where it has none, those that it
/// began with. The list never loses a change, so the reader never goes back.
#[derive(Drop)]
pub struct LiveReader {
    reader: TableReader,
}

impl Model for LiveReader {
    ghost use Rattle.std.specs.Prelude.{List};
    ghost use Rattle.left_right.specs.Sides.{view as known_by};
    ghost use Rattle.sb_live.specs.declared.change.Change.{Change};

    ghost Value = { List Change };

    ghost view = { λ r. known_by r.reader.place };
}

// The last row of the key, and the reader back.
#[tactic(auto, using(crate::proofs::Earlier::last_no_earlier))]
fn read(reader: TableReader, key: &Key) -> (TableReader, Result<Option<Record>, TableEnded>)
    ensures sees { OnOk result.1 (Sees (known_by reader.place)
        (known_by result.0.place) (known_by result.0.place)) }
    ensures exact { IfOk result.1 (λ found. found ≡ last_of key.now (known_by result.0.place)) }
    ensures forward { OnOk result.1 ((k : Key)
        → IsNoEarlier (last_of k (known_by reader.place)) (last_of k (known_by result.0.place))) }
    ensures ended { OnErr result.1 (known_by result.0.place ≡ known_by reader.place) }
{
    match reader.enter_as::<See>() {
        Ok(reading) => {
            let found = reading.get().last(key);
            (reading.leave(), Ok(found))
        }
        Err(reader) => (reader, Err(TableEnded)),
    }
}

impl LiveReader {
    pub(crate) fn new(reader: TableReader) -> LiveReader
        ensures { result ≡ known_by reader.place }
    {
        LiveReader { reader }
    }

    /// The last row of the key, if it has one. No row is from a call whose other rows are missing, and for no key is a
    /// later answer an earlier row.
    ///
    /// # Errors
    ///
    /// [`TableEnded`] if the writer has taken the table down.
    pub fn get(&mut self, key: &Key) -> Result<Option<Record>, TableEnded>
        ensures grows { OnOk result (IsPrefix self.old self.new) }
        ensures whole { OnOk result (IsWhole self.new) }
        ensures apart { OnOk result (AreCallsApart self.new) }
        ensures exact { IfOk result (λ found. found ≡ last_of key.now self.new) }
        ensures forward { OnOk result ((k : Key) → IsNoEarlier (last_of k self.old) (last_of k self.new)) }
        ensures ended { OnErr result (self.new ≡ self.old) }
    {
        replace_with(&mut self.reader, key, |reader, key| read(reader, key))
    }
}
