//! The tables of look-ups, which stand in files of their own.

ghost use Rattle.std.specs.Prelude.{◌≡◌, ◌≢◌, ◌+◌, ℕ, List, Some, IfOk, take};
ghost use Rattle.toml.specs.View.{table_view};
ghost use Rattle.sb_outside.specs.Folders.{Files};
ghost use Rattle.sb_plan.specs.Answers.{AnswersTests, BlamesInTests, IsNoFault, IsWantedIn};
ghost use Rattle.sb_plan.specs.Failures.{by_text};
ghost use Rattle.sb_plan.specs.Wants.{WantsNoFile, no_files};
ghost use Rattle.sb_plan.specs.Kinds as kinds;
ghost use Rattle.sb_plan.specs.Soundness.{IsOfKind};

use crate::MAX_TABLE_BYTES;
use crate::fault::{PlanCause, PlanKey};
use crate::keys::text_at;
use crate::stop::Stop;
use crate::words::KindName;
use sb_outside::{Folder, FolderFault};
use sb_pipeline::{Keys, Kind, Op, Table as Images, TableStop};
use std::alloc::Global;
use toml::Table;

/// The look-up of a table's `table`, which names a file of the folder, where keys are these.
#[tactic(auto, unfolding(crate::specs::Kinds::lookup_at, crate::specs::Keys::word_at))]
pub(crate) fn lookup_at<F: Folder>(
    alloc: Global,
    keys: Keys,
    table: &Table,
    folder: &mut F,
) -> Result<Kind, Stop>
    ensures exact { (files : Files) → F.files folder.old ≡ Some files
        → AnswersTests result (kinds.lookup_at files keys (table_view table.now)) }
    ensures alone { WantsNoFile (λ files. kinds.lookup_at files keys (table_view table.now))
        → AnswersTests result (kinds.lookup_at no_files keys (table_view table.now)) }
    ensures unblamed { WantsNoFile (λ files. kinds.lookup_at files keys (table_view table.now))
        → result ≢ Err Stop.Folder }
    ensures valid { IfOk result (IsOfKind KindName.Lookup) }
    ensures same { F.files folder.new ≡ F.files folder.old }
    ensures blames { BlamesInTests
        (IsWantedIn (F.files folder.old) (λ files. kinds.lookup_at files keys (table_view table.now)))
        (F.failed folder.old) (F.failed folder.new) result }
{
    let name = text_at(table, PlanKey::Table)?;
    if name.is_empty() {
        return Err(Stop::Cause(PlanCause::OutOfRange(PlanKey::Table)));
    }
    let bytes = load(alloc, name, folder)?;
    lookup_in(alloc, keys, &bytes)
}

/// The bytes of the named file, or so many that it is seen to be too long.
fn load<F: Folder>(alloc: Global, name: &str, folder: &mut F) -> Result<Vec<u8>, Stop>
    ensures bytes { (files : Files) → F.files folder.old ≡ Some files
        → IfOk result (λ loaded.
        (bytes : List ℕ) × (files name.now ≡ Some bytes) × (loaded.items ≡ take (MAX_TABLE_BYTES + 1) bytes)) }
    ensures no_fault { IsNoFault result }
    ensures same { F.files folder.new ≡ F.files folder.old }
    ensures blames { BlamesInTests (λ load. load ≡ record { name = name.now; most = MAX_TABLE_BYTES + 1 })
        (F.failed folder.old) (F.failed folder.new) result }
{
    let mut bytes = Vec::new(alloc);
    match folder.load(name, MAX_TABLE_BYTES + 1, &mut bytes) {
        Ok(()) => Ok(bytes),
        Err(FolderFault::Failed) => Err(Stop::Folder),
        Err(FolderFault::Memory) => Err(Stop::Memory),
    }
}

/// The look-up in the table of a text.
#[tactic(auto, unfolding(crate::specs::Kinds::lookup_in))]
fn lookup_in(alloc: Global, keys: Keys, bytes: &[u8]) -> Result<Kind, Stop>
    ensures exact { AnswersTests result (by_text (kinds.lookup_in keys bytes.now)) }
    ensures cause { result ≢ Err Stop.Folder }
{
    if bytes.len() > MAX_TABLE_BYTES {
        return Err(Stop::Cause(PlanCause::TableTooLong));
    }
    match Images::read(alloc, bytes, keys) {
        Ok(images) => Ok(Kind::Do(Op::Lookup(images))),
        Err(TableStop::Fault(fault)) => Err(Stop::Cause(PlanCause::TableRow(fault))),
        Err(TableStop::Memory) => Err(Stop::Memory),
    }
}
