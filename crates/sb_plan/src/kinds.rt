//! What a table says of its transform, by the keys of its kind.

ghost use Rattle.std.specs.Prelude.{◌≡◌, ◌≢◌, ◌≤◌, Some, Err, IfOk};
ghost use Rattle.toml.specs.View.{table_view};
ghost use Rattle.sb_outside.specs.Folders.{Files};
ghost use Rattle.sb_plan.specs.Answers.{AnswersTests, BlamesInTests, IsWantedIn};
ghost use Rattle.sb_plan.specs.Keys.{word_at};
ghost use Rattle.sb_plan.specs.Wants.{WantsNoFile, no_files};
ghost use Rattle.sb_plan.specs.Words as word;
ghost use Rattle.sb_plan.specs.Kinds as kinds;
ghost use Rattle.sb_plan.specs.Soundness.{IsOfKind};

use crate::addends::expand_at;
use crate::fault::{PlanCause, PlanKey};
use crate::keys::{integer_at, number_at, text_at, value_at};
use crate::stop::Stop;
use crate::table::lookup_at;
use crate::words::{
    ChangeName, KindName, aggregate_named, change_by, change_named, combine_named, field_named,
    test_named,
};
use sb_outside::Folder;
use sb_pipeline::{Agg, Combine, Field, Keys, Kind, MAX_GAP, MAX_SIZE, MAX_TOP, Op, Test, Windows};
use std::alloc::Global;
use toml::Table;

#[tactic(auto, unfolding(crate::specs::Keys::word_at))]
fn field_at(keys: Keys, table: &Table) -> Result<Field, PlanCause>
    ensures { result ≡ word_at (word.field_named keys) PlanKey.Field (table_view table.now) }
{
    field_named(keys, text_at(table, PlanKey::Field)?).ok_or(PlanCause::OutOfRange(PlanKey::Field))
}

#[tactic(auto, unfolding(crate::specs::Keys::word_at))]
fn test_at(table: &Table) -> Result<Test, PlanCause>
    ensures { result ≡ word_at word.test_named PlanKey.Test (table_view table.now) }
{
    test_named(text_at(table, PlanKey::Test)?).ok_or(PlanCause::OutOfRange(PlanKey::Test))
}

#[tactic(auto, unfolding(crate::specs::Keys::word_at))]
fn change_at(keys: Keys, table: &Table) -> Result<ChangeName, PlanCause>
    ensures { result ≡ word_at (word.change_named keys) PlanKey.Change (table_view table.now) }
{
    change_named(keys, text_at(table, PlanKey::Change)?).ok_or(PlanCause::OutOfRange(
        PlanKey::Change,
    ))
}

#[tactic(auto, unfolding(crate::specs::Keys::word_at))]
fn combine_at(table: &Table) -> Result<Combine, PlanCause>
    ensures { result ≡ word_at word.combine_named PlanKey.Give (table_view table.now) }
{
    combine_named(text_at(table, PlanKey::Give)?).ok_or(PlanCause::OutOfRange(PlanKey::Give))
}

#[tactic(auto, unfolding(crate::specs::Kinds::filter_at))]
fn filter_at(keys: Keys, table: &Table) -> Result<Kind, PlanCause>
    ensures { result ≡ kinds.filter_at keys (table_view table.now) }
{
    let field = field_at(keys, table)?;
    let test = test_at(table)?;
    let number = integer_at(table, PlanKey::Number)?;
    Ok(Kind::Do(Op::Filter(field, test, number)))
}

#[tactic(auto, unfolding(crate::specs::Kinds::map_at))]
fn map_at(keys: Keys, table: &Table) -> Result<Kind, PlanCause>
    ensures { result ≡ kinds.map_at keys (table_view table.now) }
{
    let name = change_at(keys, table)?;
    let number = integer_at(table, PlanKey::Number)?;
    match change_by(name, number) {
        Some(change) => Ok(Kind::Do(Op::Map(change))),
        None => Err(PlanCause::OutOfRange(PlanKey::Number)),
    }
}

/// The windows of a size from 1 to [`MAX_SIZE`].
#[tactic(auto, unfolding(crate::specs::Kinds::windows_every))]
fn windows_every(table: &Table, size: u64) -> Result<Windows, PlanCause>
    requires some_size { 1 ≤ size }
    requires most_size { size ≤ MAX_SIZE }
    ensures { result ≡ kinds.windows_every size (table_view table.now) }
{
    if value_at(table, PlanKey::Every).is_none() {
        return Ok(Windows::new(size, size).unwrap());
    }
    let every = number_at(table, PlanKey::Every, 1, MAX_SIZE)?;
    match Windows::new(size, every) {
        Ok(windows) => Ok(windows),
        Err(_) => Err(PlanCause::OutOfRange(PlanKey::Every)),
    }
}

#[tactic(auto, unfolding(crate::specs::Kinds::windows_at))]
fn windows_at(table: &Table) -> Result<Windows, PlanCause>
    ensures { result ≡ kinds.windows_at (table_view table.now) }
{
    let size = number_at(table, PlanKey::Size, 1, MAX_SIZE)?;
    windows_every(table, size)
}

#[tactic(auto, unfolding(crate::specs::Kinds::group_at))]
fn group_at(table: &Table, agg: Agg) -> Result<Kind, PlanCause>
    ensures { result ≡ kinds.group_at agg (table_view table.now) }
{
    let windows = windows_at(table)?;
    Ok(Kind::Group(agg, windows))
}

#[tactic(auto, unfolding(crate::specs::Kinds::top_at))]
fn top_at(table: &Table) -> Result<Kind, PlanCause>
    ensures { result ≡ kinds.top_at (table_view table.now) }
{
    let windows = windows_at(table)?;
    let keep = number_at(table, PlanKey::Keep, 1, u64::from(MAX_TOP))?;
    Ok(Kind::Group(Agg::Top(keep as u32), windows))
}

#[tactic(auto, unfolding(crate::specs::Keys::word_at))]
fn give_at(table: &Table) -> Result<Agg, PlanCause>
    ensures { result ≡ word_at word.aggregate_named PlanKey.Give (table_view table.now) }
{
    aggregate_named(text_at(table, PlanKey::Give)?).ok_or(PlanCause::OutOfRange(PlanKey::Give))
}

#[tactic(auto, unfolding(crate::specs::Kinds::session_at))]
fn session_at(table: &Table) -> Result<Kind, PlanCause>
    ensures { result ≡ kinds.session_at (table_view table.now) }
{
    let gap = number_at(table, PlanKey::Gap, 1, MAX_GAP)?;
    let agg = give_at(table)?;
    Ok(Kind::Session(agg, gap))
}

#[tactic(auto, unfolding(crate::specs::Kinds::join_at))]
fn join_at(table: &Table) -> Result<Kind, PlanCause>
    ensures { result ≡ kinds.join_at (table_view table.now) }
{
    let size = number_at(table, PlanKey::Size, 1, MAX_SIZE)?;
    let combine = combine_at(table)?;
    Ok(Kind::Join(combine, Windows::new(size, size).unwrap()))
}

/// The transform of a kind, where keys are these.
#[tactic(auto, unfolding(crate::specs::Kinds::transform_at))]
pub(crate) fn transform_at<F: Folder>(
    alloc: Global,
    keys: Keys,
    kind: KindName,
    table: &Table,
    folder: &mut F,
) -> Result<Kind, Stop>
    requires named { word.IsNamed kind }
    ensures exact { (files : Files) → F.files folder.old ≡ Some files
        → AnswersTests result (kinds.transform_at files keys kind (table_view table.now)) }
    ensures alone { WantsNoFile (λ files. kinds.transform_at files keys kind (table_view table.now))
        → AnswersTests result (kinds.transform_at no_files keys kind (table_view table.now)) }
    ensures unblamed { WantsNoFile (λ files. kinds.transform_at files keys kind (table_view table.now))
        → result ≢ Err Stop.Folder }
    ensures valid { IfOk result (IsOfKind kind) }
    ensures same { F.files folder.new ≡ F.files folder.old }
    ensures blames { BlamesInTests
        (IsWantedIn (F.files folder.old) (λ files. kinds.transform_at files keys kind (table_view table.now)))
        (F.failed folder.old) (F.failed folder.new) result }
{
    match kind {
        KindName::Filter => Ok(filter_at(keys, table)?),
        KindName::Map => Ok(map_at(keys, table)?),
        KindName::Expand => expand_at(alloc, table),
        KindName::Lookup => lookup_at(alloc, keys, table, folder),
        KindName::Group(agg) => Ok(group_at(table, agg)?),
        KindName::Top => Ok(top_at(table)?),
        KindName::Session => Ok(session_at(table)?),
        KindName::Join => Ok(join_at(table)?),
    }
}
