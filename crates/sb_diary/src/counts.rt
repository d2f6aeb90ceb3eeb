//! Counts by epoch. An epoch whose count is 0 takes no memory.

ghost use Rattle.std.specs.Prelude.{◌≡◌, ◌+◌, ◌-◌, ◌<◌, ◌==◌, ℕ, if◌then◌else◌, OnOk, OnErr};
ghost use Rattle.sb_diary.specs.Books.{count_in};

use sb_record::NoMemory;
use std::collections::BTreeMap;

// The count at an epoch.
pub(crate) fn count_at(counts: &BTreeMap<u64, u64>, epoch: u64) -> u64
    ensures { result ≡ count_in counts.now epoch }
{
    match counts.get(&epoch) {
        Some(count) => *count,
        None => 0,
    }
}

// Adds one at an epoch.
pub(crate) fn count_one(counts: &mut BTreeMap<u64, u64>, epoch: u64) -> Result<(), NoMemory>
    requires { count_in counts.old epoch < u64.MAX }
    ensures counted { OnOk result ((q : ℕ) → count_in counts.new q
        ≡ (if epoch == q then count_in counts.old q + 1 else count_in counts.old q)) }
    ensures same { OnErr result ((q : ℕ) → count_in counts.new q ≡ count_in counts.old q) }
{
    let count = count_at(counts, epoch);
    counts.insert(epoch, count + 1)?;
    Ok(())
}

// Takes one away at an epoch.
pub(crate) fn uncount_one(counts: &mut BTreeMap<u64, u64>, epoch: u64)
    ensures { (q : ℕ) → count_in counts.new q
        ≡ (if epoch == q then count_in counts.old q - 1 else count_in counts.old q) }
{
    if count_at(counts, epoch) <= 1 {
        counts.remove(&epoch);
        return;
    }
    if let Some(count) = counts.get_mut(&epoch) {
        *count -= 1;
    }
}
