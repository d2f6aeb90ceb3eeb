//! The addends of expansions.

ghost use Rattle.std.specs.Prelude.{◌≡◌, ◌≢◌, IfOk};
ghost use Rattle.toml.specs.View.{array_view, table_view};
ghost use Rattle.sb_plan.specs.Answers.{AnswersTests};
ghost use Rattle.sb_plan.specs.Failures.{by_text};
ghost use Rattle.sb_plan.specs.Kinds as kinds;

use crate::fault::{PlanCause, PlanKey};
use crate::keys::array_at;
use crate::stop::Stop;
use sb_pipeline::{Kind, MAX_ADDENDS, NoMemory, Op, Sequence};
use std::alloc::Global;
use toml::Table;
use toml::value::Array;

/// The expansion of a table's `addends`.
#[tactic(auto, unfolding(crate::specs::Kinds::expand_at))]
pub(crate) fn expand_at(alloc: Global, table: &Table) -> Result<Kind, Stop>
    ensures exact { AnswersTests result (by_text (kinds.expand_at (table_view table.now))) }
    ensures cause { result ≢ Err Stop.Folder }
{
    let array = array_at(table, PlanKey::Addends)?;
    let addends = match integers_of(alloc, array) {
        Ok(Some(addends)) => addends,
        Ok(None) => return Err(Stop::Cause(PlanCause::WrongType(PlanKey::Addends))),
        Err(NoMemory) => return Err(Stop::Memory),
    };
    let count = addends.as_slice().len();
    if 1 <= count && count <= MAX_ADDENDS {
        Ok(Kind::Do(Op::Expand(addends)))
    } else {
        Err(Stop::Cause(PlanCause::OutOfRange(PlanKey::Addends)))
    }
}

/// The integers that the elements are, if all of them are integers.
fn integers_of(alloc: Global, array: &Array) -> Result<Option<Sequence<i64>>, NoMemory>
    ensures { IfOk result (λ integers. integers ≡ kinds.integers_of (array_view array.now)) }
{
    let mut integers = Vec::new(alloc);
    for value in array {
        let Some(integer) = value.as_integer() else {
            return Ok(None);
        };
        if integers.push(integer).is_err() {
            return Err(NoMemory);
        }
    }
    Ok(Some(Sequence::new(integers)))
}
