//! The table: the last row of each key.

ghost use Rattle.std.specs.Prelude.{◌≡◌, [], ◌∷◌, ◌++◌, OnErr, OnOk};
ghost use Rattle.std.specs.BTreeMap.{IsUnchanged, get};
ghost use Rattle.sb_emit.specs.records.declared.key.Key.{Key};
ghost use Rattle.sb_emit.specs.records.Keys.{key_cmp};
ghost use Rattle.sb_live.specs.Lasts.{last_of, later};

use crate::change::Change;
use left_right::Absorb;
use sb_emit::{Key, Record, Trail};
use std::alloc::{AllocError, Global};
use std::collections::BTreeMap;

/// The last row of each key, of the changes that it was made of.
#[derive(Drop)]
pub struct Table {
    rows: BTreeMap<Key, Record>,
    /// The changes that it was made of.
    pub changes: Trail<Change>,
    ghost lasts: { (k : Key) → get key_cmp rows k ≡ last_of k changes },
}

// Puts a row in the place of that of its key.
fn put(rows: &mut BTreeMap<Key, Record>, change: Change) -> Result<(), AllocError>
    ensures ok { OnOk result ((k : Key) → get key_cmp rows.new k ≡ later k (get key_cmp rows.old k) change) }
    ensures err { OnErr result (IsUnchanged rows.old rows.new) }
{
    match change {
        Change::Row(row) => {
            if rows.insert(row.key, row).is_err() {
                return Err(AllocError);
            }
            Ok(())
        }
        Change::End => Ok(()),
    }
}

impl Table {
    /// The table of no change.
    pub fn new(alloc: Global) -> Table
        ensures { result.changes ≡ [] }
    {
        Table {
            rows: BTreeMap::new(alloc),
            changes: Trail::start(),
        }
    }

    /// The last row of the key.
    pub fn last(&self, key: &Key) -> Option<Record>
        ensures { result ≡ last_of key.now self.now.changes }
    {
        self.rows.get(key).copied()
    }
}

impl Absorb<Change> for Table {
    // A clause reads an array as a list, of any length.
    type State = [Change; 0];

    ghost state = { λ t. t.changes };

    ghost applied = { λ changes change. changes ++ change ∷ [] };

    fn absorb_first(&mut self, operation: &Change, _other: &Table) -> Result<(), AllocError> {
        put(&mut self.rows, *operation)?;
        self.changes = self.changes.with(*operation);
        Ok(())
    }
}
