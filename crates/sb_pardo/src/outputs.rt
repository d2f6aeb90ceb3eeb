//! What an operation gives for a list of records.

ghost use Rattle.std.specs.Prelude.{◌≡◌, ◌≤◌, ◌<◌, ◌+◌, ◌*◌, ◌++◌, ℕ, OnOk, OnErr, flat_map, map, length, vec_len, vec_capacity};
ghost use Rattle.sb_pardo.specs.Outputs as spec;
ghost use Rattle.sb_pardo.specs.Outputs.{outputs_of};
ghost use Rattle.sb_pardo.specs.Validity.{IsValid, IsValidChange};

use crate::changes::{changed, value_plus, with_key};
use crate::filters::passes;
use crate::operation::{Change, Field, Op, Test};
use crate::table::Table;
use sb_record::{Key, NoMemory, Record};

/// Appends what the operation gives for each record, in the records' order. The only error is that there is no memory
/// for as many records as the operation can give; `into` is then as it was.
pub fn apply(op: &Op, records: &[Record], into: &mut Vec<Record>) -> Result<(), NoMemory>
    requires { IsValid op.now }
    ensures ok { OnOk result (into.new.items ≡ into.old.items ++ flat_map (outputs_of op.now) records.now) }
    ensures full { OnErr result
        (vec_capacity into.old < vec_len into.old + length records.now * spec.most_outputs op.now) }
    ensures err { OnErr result (into.new.items ≡ into.old.items) }
{
    make_room(records.len(), most_outputs(op), into)?;
    match op {
        Op::Filter(field, test, number) => filter_each(*field, *test, *number, records, into),
        Op::Map(change) => change_each(*change, records, into),
        Op::Expand(addends) => expand_each(addends.as_slice(), records, into),
        Op::Lookup(table) => look_up_each(table, records, into),
    }
    Ok(())
}

/// The most records that the operation gives for one.
fn most_outputs(op: &Op) -> usize
    ensures { result ≡ spec.most_outputs op.now }
{
    match op {
        Op::Expand(addends) => addends.as_slice().len(),
        Op::Filter(_, _, _) | Op::Map(_) | Op::Lookup(_) => 1,
    }
}

/// Makes room for so many records with so many outputs each.
fn make_room(records: usize, outputs: usize, into: &mut Vec<Record>) -> Result<(), NoMemory>
    ensures same { into.new.items ≡ into.old.items }
    ensures ok { OnOk result (vec_len into.new + records * outputs ≤ vec_capacity into.new) }
    ensures full { OnErr result (vec_capacity into.old < vec_len into.old + records * outputs) }
{
    let room = records.checked_mul(outputs).ok_or(NoMemory)?;
    into.reserve(room)?;
    Ok(())
}

/// Appends the records that pass the test.
fn filter_each(field: Field, test: Test, number: i64, records: &[Record], into: &mut Vec<Record>)
    requires { vec_len into.old + length records.now ≤ vec_capacity into.old }
    ensures { into.new.items ≡ into.old.items ++ flat_map (outputs_of (Op.Filter field test number)) records.now }
{
    for input in records {
        if passes(field, test, number, input) {
            into.push_reserved(*input);
        }
    }
}

/// Appends the records, changed.
fn change_each(change: Change, records: &[Record], into: &mut Vec<Record>)
    requires valid { IsValidChange change }
    requires room { vec_len into.old + length records.now ≤ vec_capacity into.old }
    ensures { into.new.items ≡ into.old.items ++ flat_map (outputs_of (Op.Map change)) records.now }
{
    for input in records {
        into.push_reserved(changed(change, input));
    }
}

/// Appends the records with each addend added to their values.
fn expand_each(addends: &[i64], records: &[Record], into: &mut Vec<Record>)
    requires { vec_len into.old + length records.now * length addends.now ≤ vec_capacity into.old }
    ensures { into.new.items ≡ into.old.items ++ flat_map (outputs_of (Op.Expand addends.now)) records.now }
{
    for input in records {
        expand(addends, input, into);
    }
}

/// Appends the record with each addend added to its value.
fn expand(addends: &[i64], input: &Record, into: &mut Vec<Record>)
    requires { vec_len into.old + length addends.now ≤ vec_capacity into.old }
    ensures items { into.new.items ≡ into.old.items ++ map (spec.value_plus input.now) addends.now }
    ensures len { vec_len into.new ≡ vec_len into.old + length addends.now }
    ensures capacity { vec_capacity into.new ≡ vec_capacity into.old }
{
    // Without a name of this type the check does not find it in this function.
    let _key: &Key = &input.key;
    for addend in addends {
        into.push_reserved(value_plus(input, *addend));
    }
}

/// Appends the records whose keys are in the table, under the images.
fn look_up_each(table: &Table, records: &[Record], into: &mut Vec<Record>)
    requires { vec_len into.old + length records.now ≤ vec_capacity into.old }
    ensures { into.new.items ≡ into.old.items ++ flat_map (outputs_of (Op.Lookup table.now)) records.now }
{
    for input in records {
        if let Some(image) = table.image(&input.key) {
            into.push_reserved(with_key(input, image));
        }
    }
}
