//! How two values are combined, and the pairs of one keyed window.

ghost use Rattle.std.specs.Prelude.{◌≡◌, ◌+◌, ◌*◌, ◌≤◌, ◌++◌, length, map, take, vec_len, vec_capacity, IsOk, OnOk, OnErr};
ghost use Rattle.sb_windowed.specs.Joins as spec;

use sb_window::NoMemory;

/// One of the two inputs of a join.
#[derive(Clone, Copy, Debug, PartialEq, Eq)]
pub enum Side {
    Left,
    Right,
}

/// What becomes of the values of a pair.
#[derive(Clone, Copy, Debug, PartialEq, Eq)]
pub enum Combine {
    /// Their sum, modulo 2^64 and read as signed.
    Add,
    /// The left value minus the right one, modulo 2^64 and read as signed.
    Sub,
    /// Their product, modulo 2^64 and read as signed.
    Mul,
    /// The lesser.
    Min,
    /// The greater.
    Max,
    /// The left value.
    Left,
    /// The right value.
    Right,
}

impl Combine {
    /// The combined value of a pair.
    pub fn combine(self, left: i64, right: i64) -> i64
        ensures { result ≡ spec.pair_value self left right }
    {
        match self {
            Combine::Add => left.wrapping_add(right),
            Combine::Sub => left.wrapping_sub(right),
            Combine::Mul => left.wrapping_mul(right),
            Combine::Min => left.min(right),
            Combine::Max => left.max(right),
            Combine::Left => left,
            Combine::Right => right,
        }
    }
}

/// Appends the combined value of each pair of a left and a right value, the pairs of the first left value first. It
/// takes no memory where there is room for all of them.
///
/// # Errors
///
/// [`NoMemory`] where there is no memory for all of them; then none is appended.
pub fn pair_values(
    combine: Combine,
    left: &[i64],
    right: &[i64],
    into: &mut Vec<i64>,
) -> Result<(), NoMemory>
    ensures ok { OnOk result (into.new.items ≡ into.old.items ++ spec.pair_values combine left.now right.now) }
    ensures err { OnErr result (into.new.items ≡ into.old.items) }
    ensures succeeds { vec_len into.old + length left.now * length right.now ≤ vec_capacity into.old → IsOk result }
{
    let before = into.len();
    for &x in left {
        if pair_with_each(combine, x, right, into).is_err() {
            into.truncate(before);
            return Err(NoMemory);
        }
    }
    Ok(())
}

// Appends the combined values of one left value with each right one, or some of them where there is no memory for more.
fn pair_with_each(
    combine: Combine,
    left: i64,
    right: &[i64],
    into: &mut Vec<i64>,
) -> Result<(), NoMemory>
    ensures ok { OnOk result (into.new.items ≡ into.old.items ++ map (spec.pair_value combine left) right.now) }
    ensures len { OnOk result (vec_len into.new ≡ vec_len into.old + length right.now) }
    ensures capacity { vec_capacity into.old ≤ vec_capacity into.new }
    ensures err { OnErr result (take (vec_len into.old) into.new.items ≡ into.old.items) }
    ensures succeeds { vec_len into.old + length right.now ≤ vec_capacity into.old → IsOk result }
{
    for &y in right {
        into.push(combine.combine(left, y))?;
    }
    Ok(())
}
