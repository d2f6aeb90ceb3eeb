//! Records that are put on a lane, and taken from it.

ghost use Rattle.std.specs.Prelude.{◌≡◌, ◌+◌, ◌≤◌, ◌<◌, ◌++◌, ℕ, length, take, vec_len, vec_capacity, IsOk, OnOk, OnErr, IfOk};
ghost use Rattle.sb_base.specs.records.Elements.{on_lane};
ghost use Rattle.sb_base.specs.records.Elements as elements_spec;

use sb_base::{KeptRec, NoMemory, Record};
use std::alloc::Global;

/// Appends the records, on a lane. It takes no memory if there is room for all of them.
///
/// # Errors
///
/// [`NoMemory`] if there is no memory for one of them; those before it are appended.
pub fn push_on_lane(
    lane: u32,
    records: &[Record],
    elements: &mut Vec<KeptRec>,
) -> Result<(), NoMemory>
    ensures ok { OnOk result (elements.new.items ≡ elements.old.items ++ on_lane lane records.now) }
    ensures err { OnErr result ((count : ℕ) × (count < length records.now)
        × (elements.new.items ≡ elements.old.items ++ on_lane lane (take count records.now))) }
    ensures succeeds { vec_len elements.old + length records.now ≤ vec_capacity elements.old → IsOk result }
{
    for record in records {
        let rec = Record { ..*record };
        elements.push(KeptRec { lane, rec })?;
    }
    Ok(())
}

/// The records of all lanes, in order.
pub fn all_records(alloc: Global, elements: &[KeptRec]) -> Result<Vec<Record>, NoMemory>
    ensures { IfOk result (λ records. records.items ≡ elements_spec.all_records elements.now) }
{
    let mut records = Vec::new(alloc);
    for element in elements {
        records.push(Record { ..element.rec })?;
    }
    Ok(records)
}

/// The records of a lane, in order.
pub(crate) fn of_lane(
    alloc: Global,
    lane: u32,
    elements: &[KeptRec],
) -> Result<Vec<Record>, NoMemory>
    ensures { IfOk result (λ records. records.items ≡ elements_spec.of_lane lane elements.now) }
{
    let mut records = Vec::new(alloc);
    for element in elements {
        if element.lane == lane {
            records.push(Record { ..element.rec })?;
        }
    }
    Ok(records)
}
