//! Values in the order of their panes.
//!
//! What is sorted is moved often, so it is made small. Each value gets a rank of eight bytes, made of how far its pane
//! ends behind the first one, of its key and of its place, if these fit into so few bits: the ranks are sorted, and the
//! values fetched from their places. No contract says more than that the values are the same.

ghost use Rattle.std.specs.Prelude.{◌≡◌, ◌<◌, ◌%◌, map, IfSome, IfOk, OnOk};
ghost use Rattle.sb_runs.specs.records.Reorderings.{IsReordered};
ghost use Rattle.sb_aggregate.specs.Numbers.{ranked};

use crate::placing::Numbered;
use sb_runs::NoMemory;
use std::alloc::Global;

/// How many values have ranks at most.
pub(crate) const RANKED: u64 = 65_536;

// Keys, and how far ends lie behind the first, are below this where values have ranks.
const MOST_RANKED: u64 = 16_777_216;

// The rank of the value at a place, if it has one; the first pane ends at `first`.
fn rank(first: u64, entry: &Numbered, place: u64) -> Option<u64>
    requires { place < RANKED }
    ensures { IfSome result (λ rank. rank % RANKED ≡ place) }
{
    let behind = entry.end.checked_sub(first)?;
    if behind >= MOST_RANKED || entry.key >= MOST_RANKED {
        return None;
    }
    Some((behind * MOST_RANKED + entry.key) * RANKED + place)
}

// Where the first pane ends.
fn first_end(numbers: &[Numbered]) -> u64 {
    numbers.iter().map(|entry| entry.end).min().unwrap_or(0)
}

// The ranks of all values, or None if one has none.
fn ranks_of(alloc: Global, numbers: &[Numbered]) -> Result<Option<Vec<u64>>, NoMemory>
    ensures { IfOk result (λ all. IfSome all (λ ranks. map (ranked numbers.now) ranks.items ≡ numbers.now)) }
{
    let first = first_end(numbers);
    let mut ranks = Vec::with_capacity(alloc, numbers.len())?;
    for place in 0..numbers.len() {
        if place as u64 >= RANKED {
            return Ok(None);
        }
        let Some(rank) = rank(first, &numbers[place], place as u64) else {
            return Ok(None);
        };
        ranks.push(rank)?;
    }
    Ok(Some(ranks))
}

// The values of ranks.
fn values_of(alloc: Global, numbers: &[Numbered], ranks: &[u64]) -> Result<Vec<Numbered>, NoMemory>
    ensures { IfOk result (λ values. values.items ≡ map (ranked numbers.now) ranks.now) }
{
    let mut values = Vec::with_capacity(alloc, ranks.len())?;
    for rank in ranks {
        let Some(entry) = numbers.get((*rank % RANKED) as usize) else {
            return Err(NoMemory);
        };
        values.push(*entry)?;
    }
    Ok(values)
}

/// Puts values in the order of their panes, so that each is joined in one step.
///
/// # Errors
///
/// [`NoMemory`].
pub(crate) fn sort_numbers(alloc: Global, numbers: &mut Vec<Numbered>) -> Result<(), NoMemory>
    ensures { OnOk result (IsReordered numbers.new.items numbers.old.items) }
{
    match ranks_of(alloc, numbers)? {
        Some(ranks) => {
            let mut ranks = ranks;
            ranks.sort_unstable();
            *numbers = values_of(alloc, numbers, &ranks)?;
        }
        None => numbers.sort_unstable_by_key(Numbered::rank),
    }
    Ok(())
}
