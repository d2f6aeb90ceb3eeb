//! The text of a plan file.

ghost use Rattle.std.specs.Prelude.{◌≡◌, ◌≢◌, ◌≤◌, ℕ, [], length, string_bytes, Some, None, Err, IfOk};
ghost use Rattle.std.specs.List.{list_all};
ghost use Rattle.std.specs.BTreeMap.{keys};
ghost use Rattle.toml.specs.View.{array_view, table_view};
ghost use Rattle.sb_outside.specs.Folders.{Files};
ghost use Rattle.sb_plan.specs.PlanFiles.{AnswersPlan};
ghost use Rattle.sb_plan.specs.Answers.{IsWantedIn};
ghost use Rattle.sb_plan.specs.Wants.{BlamesLoad, IsWantedBy, WantsNoFile, no_files};
ghost use Rattle.sb_plan.specs.Entries.{all_keys};
ghost use Rattle.sb_plan.specs.PlanFiles as spec;
ghost use Rattle.sb_plan.specs.Soundness.{IsSound};

use crate::MAX_PLAN_BYTES;
use crate::element::take_element;
use crate::ending::finish;
use crate::fault::{PlanCause, PlanFault, PlanKey, PlanStop};
use crate::keys::{array_at, is_one_of};
use crate::settings::{keys_at, late_at};
use crate::wiring::Wiring;
use sb_outside::Folder;
use sb_pipeline::{Keys, LatePolicy, MAX_TRANSFORMS, Plan, Sequence};
use std::alloc::Global;
use toml::Table;
use toml::value::Array;

/// The plan that a text describes. The tables of look-ups are files of the folder.
///
/// # Errors
///
/// The first test that the text fails, in the order of the definition, and the place of the transform that fails it;
/// or `Folder` if a table could not be loaded at its turn, before any test that fails: then the folder has listed that
/// load, of at most [`MAX_TABLE_BYTES`](crate::MAX_TABLE_BYTES)` + 1` bytes, and no other. If the folder does not tell
/// its files, the plan and the fault are said only of a text that wants no table: one without look-ups, or one that
/// fails a test before the turn of the first one's table.
#[tactic(auto, unfolding(crate::specs::PlanFiles::plan_of))]
pub fn plan_of<F: Folder>(alloc: Global, text: &[u8], folder: &mut F) -> Result<Plan, PlanStop>
    // The plan of the text, or the first test that it fails.
    ensures exact { (files : Files) → F.files folder.old ≡ Some files
        → AnswersPlan result (spec.plan_of files text.now) }

    // The same of a text that wants no file, if the folder tells its files or not: and then no failed load is answered.
    ensures alone { WantsNoFile (λ files. spec.plan_of files text.now)
        → AnswersPlan result (spec.plan_of no_files text.now) }
    ensures unblamed { WantsNoFile (λ files. spec.plan_of files text.now) → result ≢ Err PlanStop.Folder }

    // `Folder` only if a load failed that the plan wants; no other answer changes the list of those that failed.
    ensures same { F.files folder.new ≡ F.files folder.old }
    ensures cause { BlamesLoad (IsWantedBy (F.files folder.old) text.now)
        (F.failed folder.old) (F.failed folder.new) result }
{
    if text.len() > MAX_PLAN_BYTES {
        return Err(at_document(PlanCause::TooLong));
    }
    let document = match document_of(alloc, text) {
        Ok(document) => document,
        Err(DocumentStop::NotToml) => return Err(at_document(PlanCause::NotToml)),
        Err(DocumentStop::Memory) => return Err(PlanStop::Memory),
    };
    if !has_document_keys(&document) {
        return Err(at_document(PlanCause::UnknownField));
    }
    let late = late_at(&document).map_err(at_document)?;
    let keys = keys_at(&document).map_err(at_document)?;
    let elements = array_at(&document, PlanKey::Transform).map_err(at_document)?;
    transforms_of(alloc, late, keys, elements, folder)
}

fn at_document(what: PlanCause) -> PlanStop
    ensures { result ≡ PlanStop.Fault (spec.fault_at 0 what) }
{
    PlanStop::Fault(PlanFault { at: 0, what })
}

/// Why a text is no document.
#[derive(Clone, Copy, Debug, PartialEq, Eq, Drop)]
enum DocumentStop {
    NotToml,
    Memory,
}

/// The table of a document.
fn document_of(alloc: Global, text: &[u8]) -> Result<Table, DocumentStop>
    ensures ok { IfOk result (λ document. spec.document_of text.now ≡ Some (table_view document)) }
    ensures not_toml { result ≡ Err DocumentStop.NotToml → spec.document_of text.now ≡ None }
{
    match toml::table_from_slice(alloc, text) {
        Ok(document) => Ok(document),
        Err(error) => {
            if error.is_memory() {
                Err(DocumentStop::Memory)
            } else {
                Err(DocumentStop::NotToml)
            }
        }
    }
}

/// Whether a document has no other keys than those of documents.
fn has_document_keys(document: &Table) -> bool
    ensures { result ≡ all_keys spec.is_document_key (table_view document.now) }
{
    are_document_keys(document)
}

fn are_document_keys(document: &Table) -> bool
    ensures { result ≡ list_all (λ k. spec.is_document_key (string_bytes k)) (keys document.now) }
{
    document.keys().all(|key| is_document_key(key.as_str()))
}

fn is_document_key(text: &str) -> bool
    ensures { result ≡ spec.is_document_key text.now }
{
    is_one_of(text, &[PlanKey::Transform, PlanKey::Late, PlanKey::Keys])
}

/// The plan of the elements of the array of transforms.
#[tactic(auto, unfolding(crate::specs::PlanFiles::transforms_of), using(crate::proofs::Elements::item_count_view))]
fn transforms_of<F: Folder>(
    alloc: Global,
    late: LatePolicy,
    keys: Keys,
    elements: &Array,
    folder: &mut F,
) -> Result<Plan, PlanStop>
    ensures exact { (files : Files) → F.files folder.old ≡ Some files
        → AnswersPlan result (spec.transforms_of files late keys (array_view elements.now)) }
    ensures alone { WantsNoFile (λ files. spec.transforms_of files late keys (array_view elements.now))
        → AnswersPlan result (spec.transforms_of no_files late keys (array_view elements.now)) }
    ensures unblamed { WantsNoFile (λ files. spec.transforms_of files late keys (array_view elements.now))
        → result ≢ Err PlanStop.Folder }
    ensures same { F.files folder.new ≡ F.files folder.old }
    ensures cause { BlamesLoad
        (IsWantedIn (F.files folder.old) (λ files. spec.transforms_of files late keys (array_view elements.now)))
        (F.failed folder.old) (F.failed folder.new) result }
{
    if elements.is_empty() {
        return Err(at_document(PlanCause::OutOfRange(PlanKey::Transform)));
    }
    if elements.len() > MAX_TRANSFORMS {
        return Err(at_document(PlanCause::TooMany));
    }
    match wire_elements(alloc, late, keys, elements, folder) {
        Ok(wiring) => finish(alloc, wiring),
        Err(stop) => Err(stop),
    }
}

/// The wiring of the elements.
fn wire_elements<F: Folder>(
    alloc: Global,
    late: LatePolicy,
    keys: Keys,
    elements: &Array,
    folder: &mut F,
) -> Result<Wiring, PlanStop>
    requires { length elements.now.items ≤ MAX_TRANSFORMS }
    ensures exact { (files : Files) → F.files folder.old ≡ Some files
        → AnswersPlan result (spec.with_elements_from files 1 (spec.first_wiring late keys) (array_view elements.now)) }
    ensures alone { WantsNoFile (λ files.
        spec.with_elements_from files 1 (spec.first_wiring late keys) (array_view elements.now))
        → AnswersPlan result
        (spec.with_elements_from no_files 1 (spec.first_wiring late keys) (array_view elements.now)) }
    ensures unblamed { WantsNoFile (λ files.
        spec.with_elements_from files 1 (spec.first_wiring late keys) (array_view elements.now))
        → result ≢ Err PlanStop.Folder }
    ensures sound { IfOk result (λ wiring. IsSound wiring × (length wiring.parts ≡ length elements.now.items)) }
    ensures same { F.files folder.new ≡ F.files folder.old }
    ensures cause { BlamesLoad
        (IsWantedIn (F.files folder.old)
        (λ files. spec.with_elements_from files 1 (spec.first_wiring late keys) (array_view elements.now)))
        (F.failed folder.old) (F.failed folder.new) result }
{
    let mut wiring = Wiring {
        parts: Sequence::new(Vec::new(alloc)),
        source_a: None,
        source_b: None,
        late,
        keys,
    };
    let mut place = 0u32;
    for value in elements {
        place += 1;
        match take_element(alloc, place, value, &mut wiring, folder) {
            Ok(()) => {}
            Err(stop) => return Err(stop),
        }
    }
    Ok(wiring)
}
