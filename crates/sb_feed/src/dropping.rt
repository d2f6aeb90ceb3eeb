//! Listing late records that are dropped.

ghost use Rattle.std.specs.Prelude.{◌≡◌, ◌++◌, OnOk, OnErr};
ghost use Rattle.sb_base.specs.records.Streams.{dropped_in};

use sb_base::{Dropped, Item, NoMemory};

/// Adds what is left of the item to the end of the list, if it is a late record that was dropped, and nothing of any
/// other item.
///
/// # Errors
///
/// [`NoMemory`]; then the list is as it was.
pub fn keep_dropped(dropped: &mut Vec<Dropped>, item: &Item) -> Result<(), NoMemory>
    ensures kept { OnOk result (dropped.new.items ≡ dropped.old.items ++ dropped_in item.now) }
    ensures same { OnErr result (dropped.new.items ≡ dropped.old.items) }
{
    match item {
        Item::Late { line, time, mark } => {
            let (line, time, mark) = (*line, *time, *mark);
            match dropped.push(Dropped { line, time, mark }) {
                Ok(()) => Ok(()),
                Err(_) => Err(NoMemory),
            }
        }
        _ => Ok(()),
    }
}
