//! One table of a plan file.

ghost use Rattle.std.specs.Prelude.{◌≡◌, ◌≢◌, Some, IfOk, is_some, string_bytes};
ghost use Rattle.std.specs.List.{list_all};
ghost use Rattle.std.specs.BTreeMap.{keys};
ghost use Rattle.toml.specs.View.{table_view};
ghost use Rattle.sb_outside.specs.Folders.{Files};
ghost use Rattle.sb_plan.specs.Answers.{AnswersTests, BlamesInTests, IsWantedIn};
ghost use Rattle.sb_plan.specs.Failures.{by_text};
ghost use Rattle.sb_plan.specs.Wants.{WantsNoFile, no_files};
ghost use Rattle.sb_plan.specs.Entries as entries;
ghost use Rattle.sb_plan.specs.Soundness.{IsValidEntry, names_join};

use crate::fault::{PlanCause, PlanKey};
use crate::keys::{is_one_of, text_at};
use crate::kinds::transform_at;
use crate::name::{Name, name_at};
use crate::stop::Stop;
use crate::wiring::Part;
use crate::words::{KindName, kind_named};
use sb_outside::Folder;
use sb_pipeline::{Keys, Kind, NoMemory};
use std::alloc::Global;
use toml::Table;

/// All that a table says by itself: its transform, and the names of its inputs.
#[derive(Drop)]
pub(crate) struct Entry {
    pub name: Name,
    pub kind: Kind,
    pub left: Name,
    /// Only a join has a right input.
    pub right: Option<Name>,
}

/// The entry of a table, if keys and the transforms before it are these.
#[tactic(auto, unfolding(crate::specs::Entries::entry_at))]
pub(crate) fn entry_at<F: Folder>(
    alloc: Global,
    keys: Keys,
    table: &Table,
    parts: &[Part],
    folder: &mut F,
) -> Result<Entry, Stop>
    ensures exact { (files : Files) → F.files folder.old ≡ Some files
        → AnswersTests result (entries.entry_at files keys parts.now (table_view table.now)) }
    ensures alone { WantsNoFile (λ files. entries.entry_at files keys parts.now (table_view table.now))
        → AnswersTests result (entries.entry_at no_files keys parts.now (table_view table.now)) }
    ensures unblamed { WantsNoFile (λ files. entries.entry_at files keys parts.now (table_view table.now))
        → result ≢ Err Stop.Folder }
    ensures valid { IfOk result IsValidEntry }
    ensures same { F.files folder.new ≡ F.files folder.old }
    ensures blames { BlamesInTests
        (IsWantedIn (F.files folder.old) (λ files. entries.entry_at files keys parts.now (table_view table.now)))
        (F.failed folder.old) (F.failed folder.new) result }
{
    let name = name_at(table, parts)?;
    let kind_name = kind_at(table)?;
    if !has_known_keys(table, kind_name) {
        return Err(Stop::Cause(PlanCause::UnknownField));
    }
    let left = text_at(table, PlanKey::From)?;
    let kind = transform_at(alloc, keys, kind_name, table, folder)?;
    let right = match right_at(alloc, table, kind_name) {
        Ok(right) => right,
        Err(stop) => return Err(stop),
    };
    let name = Name::new(alloc, name)?;
    let left = Name::new(alloc, left)?;
    Ok(Entry {
        name,
        kind,
        left,
        right,
    })
}

#[tactic(auto, unfolding(crate::specs::Entries::kind_at))]
fn kind_at(table: &Table) -> Result<KindName, PlanCause>
    ensures { result ≡ entries.kind_at (table_view table.now) }
{
    kind_named(text_at(table, PlanKey::Kind)?).ok_or(PlanCause::UnknownKind)
}

/// The right input, which only a join has.
#[tactic(auto, unfolding(crate::specs::Entries::right_at))]
fn right_at(alloc: Global, table: &Table, kind: KindName) -> Result<Option<Name>, Stop>
    ensures exact { AnswersTests result (by_text (entries.right_at kind (table_view table.now))) }
    ensures two { IfOk result (λ right. is_some right ≡ names_join kind) }
    ensures cause { result ≢ Err Stop.Folder }
{
    match kind {
        KindName::Join => {
            let text = text_at(table, PlanKey::With)?;
            let name = Name::new(alloc, text)?;
            Ok(Some(name))
        }
        _ => Ok(None),
    }
}

/// Whether a table of this kind may have all of its keys.
fn has_known_keys(table: &Table, kind: KindName) -> bool
    ensures { result ≡ entries.all_keys (entries.is_key_of kind) (table_view table.now) }
{
    are_known_keys(table, kind)
}

fn are_known_keys(table: &Table, kind: KindName) -> bool
    ensures { result ≡ list_all (λ k. entries.is_key_of kind (string_bytes k)) (keys table.now) }
{
    table.keys().all(|key| is_key_of(kind, key.as_str()))
}

fn is_key_of(kind: KindName, text: &str) -> bool
    ensures { result ≡ entries.is_key_of kind text.now }
{
    is_one_of(text, &[PlanKey::Name, PlanKey::Kind, PlanKey::From])
        || is_one_of(text, own_keys(kind))
}

/// The keys of a kind.
fn own_keys(kind: KindName) -> &'static [PlanKey]
    ensures { result.now ≡ entries.own_keys kind }
{
    match kind {
        KindName::Filter => &[PlanKey::Field, PlanKey::Test, PlanKey::Number],
        KindName::Map => &[PlanKey::Change, PlanKey::Number],
        KindName::Expand => &[PlanKey::Addends],
        KindName::Lookup => &[PlanKey::Table],
        KindName::Group(_) => &[PlanKey::Size, PlanKey::Every],
        KindName::Top => &[PlanKey::Size, PlanKey::Every, PlanKey::Keep],
        KindName::Session => &[PlanKey::Gap, PlanKey::Give],
        KindName::Join => &[PlanKey::Size, PlanKey::Give, PlanKey::With],
    }
}
