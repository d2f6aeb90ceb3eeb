//! The limits of lines and of records as numbers, and the laws that every reader of lines and every order of records
//! rests on. Each function has its law for a contract, and does nothing.

ghost use Rattle.std.specs.Prelude.{◌≡◌};
ghost use Rattle.sb_record.specs.Laws as law;
ghost use Rattle.sb_record.specs.Keys.{key_cmp};
ghost use Rattle.sb_record.specs.Records.{record_cmp};

use crate::item::Record;
use crate::key::Key;

/// The greatest time is 10^15, the greatest number key 10^18, and the watermark at the end 2 * 10^15. A word has at
/// most 24 bytes. An input has at most 2^32 - 1 lines, of at most 128 bytes each.
pub fn limits()
    ensures { law.Limits }
{}

/// A line is read as an item exactly if it is a text of the item, where keys are numbers and where they are words.
pub fn lines_are_items_by_their_text()
    ensures { law.LinesAreItemsByTheirText }
{}

/// Records are ordered by time, then key, then value.
pub fn records_are_ordered()
    ensures { ⟦<Record as Ord>⟧.cmp ≡ record_cmp }
{}

/// Numbers stand before words. Numbers are ordered by their values, and words by their bytes, a proper prefix first.
pub fn keys_are_ordered()
    ensures { ⟦<Key as Ord>⟧.cmp ≡ key_cmp }
{}

/// Lists of records differ in order alone exactly if they hold each record equally often.
pub fn counts_tell_reorderings()
    ensures { law.CountsTellReorderings }
{}
