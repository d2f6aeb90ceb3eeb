//! What is loaded from a folder: the plan in a file, the bytes of record files, a checkpoint.

ghost use Rattle.std.specs.Prelude.{◌≡◌, ◌<◌, IfOk, Some, length, Ok, Err, ◌≢◌, ◌≤◌, ◌∷◌, ◌++◌, [], IfErr};
ghost use Rattle.sb_alone.specs.outside.Folders.{Files, Load};
ghost use Rattle.sb_alone.specs.base.pipeline.Plans.{IsPlan};
ghost use Rattle.sb_told.specs.plan.PlanFiles.{AnswersPlan};
ghost use Rattle.sb_told.specs.plan.Wants.{BlamesLoad};
ghost use Rattle.sb_answers.specs.Faults.{IsWantedFor};
ghost use Rattle.sb_answers.specs.Pipelines.{plan_in, GivesPlan, IsFaultOfCut};
ghost use Rattle.sb_told.specs.plan.declared.fault.PlanFault.{PlanFault as APlanFault};
ghost use Rattle.sb_checkpoint.specs.Reach.{HasNoSession};
ghost use Rattle.sb_alone.specs.base.Inputs.{by_stream};
ghost use Rattle.sb_answers.specs.FileSteps.{HasNoBytes, HaveNoBytes};
ghost use Rattle.sb_answers.specs.RecordFiles.{HasBytes, HaveBytes, IsLoadOfFile, record_load};
ghost use Rattle.sb_checkpoint.specs.Saved.{items_in};
ghost use Rattle.sb_answers.specs.CheckpointFiles.{GivesCheckpoint, checkpoint_load};
ghost use Rattle.sb_answers.specs.RestSteps.{HasNoCheckpoint, IsNoneIn, IsSaidIn, said_by};

use crate::limits::MAX_CHECKPOINT_BYTES;
use sb_alone::{ByStream, Folder, FolderFault, MAX_FILE_LENGTH, Plan};
use sb_checkpoint::{Checkpoint, CheckpointStop, first_session, read_checkpoint};
use sb_told::{MAX_PLAN_BYTES, PlanCause, PlanFault, PlanStop, Status, plan_of};
use std::alloc::Global;

/// The plan in a file.
pub fn load_plan<F: Folder>(alloc: Global, name: &str, folder: &mut F) -> Result<Plan, PlanStop>
    ensures exact { (files : Files) → F.files folder.old ≡ Some files → AnswersPlan result (plan_in files name.now) }
    ensures plan { IfOk result (λ plan. IsPlan plan) }
    ensures same { F.files folder.new ≡ F.files folder.old }
    ensures cause { BlamesLoad (IsWantedFor (F.files folder.old) name.now)
        (F.failed folder.old) (F.failed folder.new) result }
{
    let mut text = Vec::new(alloc);
    match folder.load(name, MAX_PLAN_BYTES + 1, &mut text) {
        Ok(()) => plan_of(alloc, &text, folder),
        Err(FolderFault::Failed) => Err(PlanStop::Folder),
        Err(FolderFault::Memory) => Err(PlanStop::Memory),
    }
}

/// The plan in a file, whose runs are cut in two.
pub fn plan_to_cut<F: Folder>(alloc: Global, name: &str, folder: &mut F) -> Result<Plan, PlanStop>
    ensures plan { IfOk result (λ plan. IsPlan plan × GivesPlan (F.files folder.old) name.now (Ok plan)
        × HasNoSession plan) }
    ensures fault { (fault : APlanFault) → result ≡ Err (PlanStop.Fault fault)
        → IsFaultOfCut (F.files folder.old) name.now fault }
    ensures same { F.files folder.new ≡ F.files folder.old }
    ensures cause { BlamesLoad (IsWantedFor (F.files folder.old) name.now)
        (F.failed folder.old) (F.failed folder.new) result }
{
    let plan = load_plan(alloc, name, folder)?;
    match first_session(&plan) {
        None => Ok(plan),
        Some(place) => Err(PlanStop::Fault(PlanFault {
            at: place + 1,
            what: PlanCause::HasSession,
        })),
    }
}

/// The bytes of the record files of both streams, or the status that says why there are none. A file that is too long is
/// told before the next is loaded.
pub fn load_both<F: Folder>(
    alloc: Global,
    file_a: &str,
    file_b: &str,
    folder: &mut F,
) -> Result<ByStream<Vec<u8>>, Status>
    ensures bytes { IfOk result (λ files. HaveBytes (F.files folder.old) file_a.now file_b.now
        (by_stream files.a.items files.b.items)) }
    ensures none { IfErr result (λ status. HaveNoBytes (F.files folder.old) file_a.now file_b.now status) }
    ensures same { F.files folder.new ≡ F.files folder.old }
    ensures loaded { result ≢ Err Status.Folder → F.failed folder.new ≡ F.failed folder.old }
    ensures failed { result ≡ Err Status.Folder → (load : Load)
        × IsLoadOfFile (F.files folder.old) file_a.now file_b.now load
        × (F.failed folder.new ≡ F.failed folder.old ++ load ∷ []) }
{
    let a = load_file(alloc, file_a, folder)?;
    let b = load_file(alloc, file_b, folder)?;
    Ok(ByStream { a, b })
}

/// The bytes of a record file, or the status that says why there are none.
fn load_file<F: Folder>(alloc: Global, name: &str, folder: &mut F) -> Result<Vec<u8>, Status>
    ensures bytes { IfOk result (λ bytes. HasBytes (F.files folder.old) name.now bytes.items) }
    ensures none { IfErr result (λ status. HasNoBytes (F.files folder.old) name.now status) }
    ensures same { F.files folder.new ≡ F.files folder.old }
    ensures loaded { result ≢ Err Status.Folder → F.failed folder.new ≡ F.failed folder.old }
    ensures failed { result ≡ Err Status.Folder
        → F.failed folder.new ≡ F.failed folder.old ++ record_load name.now ∷ [] }
{
    let mut bytes = Vec::new(alloc);
    match folder.load(name, MAX_FILE_LENGTH + 1, &mut bytes) {
        Ok(()) => {
            if bytes.len() > MAX_FILE_LENGTH {
                return Err(Status::FileTooLong);
            }
            Ok(bytes)
        }
        Err(FolderFault::Failed) => Err(Status::Folder),
        Err(FolderFault::Memory) => Err(Status::Memory),
    }
}

/// The checkpoint in a file, or the status that says why there is none.
pub fn load_checkpoint<F: Folder>(
    alloc: Global,
    plan: &Plan,
    name: &str,
    folder: &mut F,
) -> Result<Checkpoint, Status>
    requires { HasNoSession plan.now }
    ensures said { IfOk result (λ c. GivesCheckpoint (F.files folder.old) name.now plan.now (said_by c)) }
    ensures room { IfOk result (λ c. length (items_in c) ≤ c.lines) }
    ensures none { IfErr result (λ status. HasNoCheckpoint (F.files folder.old) name.now plan.now status) }
    ensures same { F.files folder.new ≡ F.files folder.old }
    ensures loaded { result ≢ Err Status.Folder → F.failed folder.new ≡ F.failed folder.old }
    ensures failed { result ≡ Err Status.Folder
        → F.failed folder.new ≡ F.failed folder.old ++ checkpoint_load name.now ∷ [] }
{
    let mut text = Vec::new(alloc);
    match folder.load(name, MAX_CHECKPOINT_BYTES + 1, &mut text) {
        Ok(()) => checkpoint_in(alloc, plan, &text),
        Err(FolderFault::Failed) => Err(Status::Folder),
        Err(FolderFault::Memory) => Err(Status::Memory),
    }
}

/// The checkpoint that a text is, or the status that says why it is none.
fn checkpoint_in(alloc: Global, plan: &Plan, text: &[u8]) -> Result<Checkpoint, Status>
    requires { HasNoSession plan.now }
    ensures said { IfOk result (λ c. IsSaidIn plan.now text.now (said_by c)) }
    ensures room { IfOk result (λ c. length (items_in c) ≤ c.lines) }
    ensures none { IfErr result (λ status. IsNoneIn plan.now text.now status) }
{
    if text.len() > MAX_CHECKPOINT_BYTES {
        return Err(Status::FileTooLong);
    }
    match read_checkpoint(alloc, plan, text) {
        Ok(checkpoint) => Ok(checkpoint),
        Err(CheckpointStop::Fault { line }) => Err(Status::Checkpoint { line }),
        Err(CheckpointStop::Memory) => Err(Status::Memory),
    }
}
