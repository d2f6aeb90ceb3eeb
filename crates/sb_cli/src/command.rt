//! The one call that the program makes.

ghost use Rattle.std.specs.Prelude.{◌≡◌, ◌<◌, ◌^◌, false, IsTrue, ℕ, List, [], length, map};
ghost use Rattle.sb_answer_runs.specs.answers.base.records.declared.item.Stream.{Stream as AStream};
ghost use Rattle.sb_answer_runs.specs.answers.outside.Sinks.{SinkCause, WritesAll};
ghost use Rattle.sb_answer_runs.specs.answers.outside.Sources.{Rose};
ghost use Rattle.sb_answer_runs.specs.answers.diary.Texts.{NodeDiary};
ghost use Rattle.sb_answer_runs.specs.answers.base.pipeline.Shapes.{Shape};
ghost use Rattle.sb_answer_runs.specs.answers.told.declared.late.LateRecords.{LateRecords};
ghost use Rattle.sb_answer_runs.specs.answers.told.declared.late.LateRecords.TheVariants.{OfInput};
ghost use Rattle.sb_answer_runs.specs.answers.Answers.{IsAnswer, ReadsNoMore, ending_with};
ghost use Rattle.sb_answer_runs.specs.answers.told.Outcomes.{IsNoTap, IsUnread};
ghost use Rattle.sb_answer_runs.specs.answers.CheckpointFiles.{Said, TellsCheckpoint};
ghost use Rattle.sb_answer_runs.specs.answers.Courses.{course_in};
ghost use Rattle.sb_answer_runs.specs.answers.Faults.{BlamesFile, HasCause, HidesNoFault, IsDoneOrMemory, NothingFails};
ghost use Rattle.sb_answer_runs.specs.answers.Faults.{NothingFailsBehind, NothingFailsInAudit, NothingFailsInFiles, faults_of};
ghost use Rattle.sb_answer_runs.specs.answers.told.Notes.{HasNoted};
ghost use Rattle.sb_answer_runs.specs.answers.Offered.{BlamesTap, IsOffered};
ghost use Rattle.sb_answer_runs.specs.answers.Pipelines.{HasOneWorker, ReadsInput, WritesAsItReads};
ghost use Rattle.sb_answer_runs.specs.answers.Pipelines.{TellsCutPlan, TellsPlan, TellsPlanIn, options_in};
ghost use Rattle.sb_answer_runs.specs.answers.RecordFiles.{TellsBoth};
ghost use Rattle.sb_answer_runs.specs.answers.told.Statuses.{note_text, notes_text};
ghost use Rattle.sb_answer_runs.specs.answers.words.declared.options.Options.{Options};
ghost use Rattle.sb_answer_runs.specs.answers.words.Texts.{texts};
ghost use Rattle.sb_answer_runs.specs.answers.words.Words.{Asked, IsCommand, IsNoCommand};
ghost use Rattle.sb_answer_runs.specs.answers.words.Words.Asked.{Sum, Audit, Work, Feeds, Resume};

use sb_answer_runs::{
    ByStream, Ending, Request, Status, Tap, answer_audit, answer_feeds, answer_file, answer_part,
    answer_resume, answer_save, answer_slow, answer_sum, answer_watch, answer_work, note_of,
};
use sb_arguments::read_words;
use sb_base::NoMemory;
use sb_outside::{Folder, Sink, SinkFault, Source, write_all_of};
use std::sync::Wait;
use std::thread::Threads;
use std::time::Clock;

/// Does what the words of a command line ask for: reads a plan and its tables from `folder` and records and watermarks
/// from `input`, and writes rows to `out`, and to `notes` a line for each late record that the plan drops, the diaries
/// of a run that is done if they are asked for, and at most one line more. With `--taps` each row that was written is
/// offered to `taps`, fewer than 2^32, and those that have enough are dropped. `work` makes its records itself: it
/// reads nothing, calls no tap, and writes a summary of their rows to `out`. `watch` writes one row. `feeds` reads no
/// input: it has the lines of stream a from one file and those of stream b from another. `part`, `save` and `resume`
/// are a run that is cut in two: the rows of a first part, its checkpoint, and the rows of the rest.
///
/// What is said of bytes holds of sources and sinks whose bytes are known, and what is said of files of a folder whose
/// files are known. The words come first, then the plan, then the input: if the words are no command, or the plan is
/// refused or can't be loaded, the input is not read and no row is written. A run that ends as `Done` has read its
/// input to the end, and `out` has taken exactly the rows of the pipeline over all accepted records, and has passed
/// them on, whatever `--workers`, `--bundle` and `--pending` say. What becomes of the notes does not change the status.
///
/// With one worker it waits for nobody and starts no thread, but for `feeds`, which reads each file in a thread of its
/// own, and `watch`, whose table waits for its readers. With more, or for these two, whether it returns is not said.
pub fn streambox<
    W: AllocGlobal + Threads + Wait + Clock + Sync,
    S: Source,
    K: Sink,
    N: Sink,
    F: Folder,
>(
    rt: &W,
    words: &[String],
    input: &mut S,
    out: &mut K,
    notes: &mut N,
    folder: &mut F,
    taps: &mut Vec<Box<dyn Tap>>,
) -> Status
    requires { length taps.old.items < 2 ^ 32 }

    // What was written and what the user was told, by how the run ended, over the items that were accepted.
    ensures answer { (wanted : Asked) → IsCommand wanted (texts words.now)
        → (late : LateRecords) × (diaries : List NodeDiary)
        × IsAnswer (F.files folder.old) wanted (S.left input.old) (S.left input.new)
        (K.taken out.old) (K.taken out.new) (ending_with result late diaries)
        × HasNoted (N.taken notes.old) (N.taken notes.new)
        (N.sink_state notes.old) (N.sink_state notes.new) (notes_text late diaries result) }

    // What the taps were offered with `--taps`; without it they are not called.
    ensures offered { (wanted : Asked) → IsCommand wanted (texts words.now) → IsTrue (options_in wanted).taps
        → IsOffered (F.files folder.old) wanted (S.left input.old) (S.left input.new)
        (K.taken out.old) (K.taken out.new)
        (map (λ t. tap_state t) taps.old.items) (map (λ t. tap_state t) taps.new.items) result }
    ensures unoffered { (wanted : Asked) → IsCommand wanted (texts words.now) → (options_in wanted).taps ≡ false
        → (taps.new ≡ taps.old) × IsNoTap result }

    // Words that are no command.
    ensures no_command { IsNoCommand (texts words.now) → result ≡ Status.Words }
    ensures told { IsNoCommand (texts words.now)
        → HasNoted (N.taken notes.old) (N.taken notes.new)
        (N.sink_state notes.old) (N.sink_state notes.new) (note_text Status.Words) }
    ensures untouched { IsNoCommand (texts words.now)
        → (input.new ≡ input.old) × (out.new ≡ out.old) × (folder.new ≡ folder.old) × (taps.new ≡ taps.old) }

    // If the words or the plan are refused, or a file can't be loaded.
    ensures unread { IsUnread result
        → (input.new ≡ input.old) × (out.new ≡ out.old) × (taps.new ≡ taps.old) }

    // Files are loaded if a plan file is asked for, and none is changed.
    ensures same { F.files folder.new ≡ F.files folder.old }
    ensures sum_loads_nothing { (size : ℕ) (options : Options)
        → IsCommand (Sum size options) (texts words.now) → folder.new ≡ folder.old }
    ensures audit_loads_nothing { IsCommand Audit (texts words.now) → folder.new ≡ folder.old }

    // The lines of `feeds` are those of its files.
    ensures feeds_reads_no_input { (name file_a file_b : List ℕ) (options : Options)
        → IsCommand (Feeds name file_a file_b options) (texts words.now) → input.new ≡ input.old }

    // The records of `work` are made: of all that it was handed it uses `out` alone.
    ensures work_uses_out_alone { (records : ℕ) (options : Options)
        → IsCommand (Work records options) (texts words.now)
        → (input.new ≡ input.old) × (folder.new ≡ folder.old) × (taps.new ≡ taps.old) }

    // Faults come from where they say: a read, a write, or the load of a file that is wanted at its turn.
    ensures cause { HasCause
        (faults_of (S.faults input.old) (K.sink_state out.old) (F.failed folder.old))
        (faults_of (S.faults input.new) (K.sink_state out.new) (F.failed folder.new)) result }
    ensures blames { (wanted : Asked) → IsCommand wanted (texts words.now) → result ≡ Status.Folder
        → BlamesFile (F.files folder.old) wanted (F.failed folder.old) (F.failed folder.new) }
    ensures blames_tap { (place : ℕ) → result ≡ Status.Tap place → BlamesTap place
        (map (λ t. tap_state t) taps.old.items) (map (λ t. tap_state t) taps.new.items) }

    // With one worker no read has failed before a tap or a write fails. Where the output fails as it passes on what it
    // took, one may have, and all that was due there had been written.
    ensures read_no_more { (wanted : Asked) (place : ℕ) → IsCommand wanted (texts words.now) → HasOneWorker wanted
        → result ≡ Status.Tap place → S.faults input.new ≡ S.faults input.old }
    ensures read_no_more_at_output { (wanted : Asked) → IsCommand wanted (texts words.now) → WritesAsItReads wanted
        → result ≡ Status.Output → ReadsNoMore (F.files folder.old) wanted (S.left input.old) (S.left input.new)
        (K.taken out.old) (K.taken out.new) (S.faults input.old) (S.faults input.new) }

    // A run that is done has met the end of its input.
    ensures end { (wanted : Asked) → IsCommand wanted (texts words.now) → ReadsInput wanted → result ≡ Status.Done
        → S.has_ended input.new }

    // None is passed over, and a run in which nothing fails is done.
    ensures no_fault_hidden { HidesNoFault
        (faults_of (S.faults input.old) (K.sink_state out.old) (F.failed folder.old))
        (faults_of (S.faults input.new) (K.sink_state out.new) (F.failed folder.new)) result }
    ensures complete { (wanted : Asked) (plan : Shape) → IsCommand wanted (texts words.now)
        → TellsPlan (F.files folder.old) wanted plan
        → NothingFails (S.left input.old) (S.left input.new) (λ given. course_in wanted plan given)
        (faults_of (S.faults input.old) (K.sink_state out.old) (F.failed folder.old))
        (faults_of (S.faults input.new) (K.sink_state out.new) (F.failed folder.new))
        (map (λ t. tap_state t) taps.old.items) (map (λ t. tap_state t) taps.new.items)
        → IsDoneOrMemory result }
    ensures resume_complete { (name checkpoint : List ℕ) (options : Options) (plan : Shape) (said : Said)
        → IsCommand (Resume name checkpoint options) (texts words.now)
        → TellsCutPlan (F.files folder.old) name plan → TellsCheckpoint (F.files folder.old) checkpoint plan said
        → NothingFailsBehind plan said (S.left input.old) (S.left input.new)
        (faults_of (S.faults input.old) (K.sink_state out.old) (F.failed folder.old))
        (faults_of (S.faults input.new) (K.sink_state out.new) (F.failed folder.new))
        → IsDoneOrMemory result }
    ensures feeds_complete { (name file_a file_b : List ℕ) (options : Options) (plan : Shape)
        (files : AStream → List ℕ) → IsCommand (Feeds name file_a file_b options) (texts words.now)
        → TellsPlanIn (F.files folder.old) name plan → TellsBoth (F.files folder.old) file_a file_b files
        → NothingFailsInFiles plan files
        (faults_of (S.faults input.old) (K.sink_state out.old) (F.failed folder.old))
        (faults_of (S.faults input.new) (K.sink_state out.new) (F.failed folder.new))
        (map (λ t. tap_state t) taps.old.items) (map (λ t. tap_state t) taps.new.items)
        → IsDoneOrMemory result }
    ensures audit_complete { IsCommand Audit (texts words.now)
        → NothingFailsInAudit (S.left input.old) (S.left input.new)
        (faults_of (S.faults input.old) (K.sink_state out.old) (F.failed folder.old))
        (faults_of (S.faults input.new) (K.sink_state out.new) (F.failed folder.new))
        → IsDoneOrMemory result }
    ensures work_complete { (records : ℕ) (options : Options)
        → IsCommand (Work records options) (texts words.now)
        → (Rose (K.sink_state out.old).faults (K.sink_state out.new).faults → ⊥) → IsDoneOrMemory result }
{
    let ending = respond(rt, words, input, out, folder, taps);
    tell(notes, &ending);
    ending.status
}

/// Does what the words ask for.
fn respond<W: AllocGlobal + Threads + Wait + Clock + Sync, S: Source, K: Sink, F: Folder>(
    rt: &W,
    words: &[String],
    input: &mut S,
    out: &mut K,
    folder: &mut F,
    taps: &mut Vec<Box<dyn Tap>>,
) -> Ending
    requires { length taps.old.items < 2 ^ 32 }
    ensures answer { (wanted : Asked) → IsCommand wanted (texts words.now)
        → IsAnswer (F.files folder.old) wanted (S.left input.old) (S.left input.new)
        (K.taken out.old) (K.taken out.new) result }
    ensures offered { (wanted : Asked) → IsCommand wanted (texts words.now) → IsTrue (options_in wanted).taps
        → IsOffered (F.files folder.old) wanted (S.left input.old) (S.left input.new)
        (K.taken out.old) (K.taken out.new)
        (map (λ t. tap_state t) taps.old.items) (map (λ t. tap_state t) taps.new.items) result.status }
    ensures unoffered { (wanted : Asked) → IsCommand wanted (texts words.now) → (options_in wanted).taps ≡ false
        → (taps.new ≡ taps.old) × IsNoTap result.status }
    ensures no_command { IsNoCommand (texts words.now)
        → (result.status ≡ Status.Words) × (result.late ≡ OfInput []) × (result.diaries ≡ [])
        × (input.new ≡ input.old) × (out.new ≡ out.old) × (folder.new ≡ folder.old) × (taps.new ≡ taps.old) }
    ensures unread { IsUnread result.status
        → (input.new ≡ input.old) × (out.new ≡ out.old) × (taps.new ≡ taps.old) }
    ensures resume_calls_no_tap { (name checkpoint : List ℕ) (options : Options)
        → IsCommand (Resume name checkpoint options) (texts words.now) → IsNoTap result.status }
    ensures same { F.files folder.new ≡ F.files folder.old }
    ensures sum_loads_nothing { (size : ℕ) (options : Options)
        → IsCommand (Sum size options) (texts words.now) → folder.new ≡ folder.old }
    ensures audit_loads_nothing { IsCommand Audit (texts words.now) → folder.new ≡ folder.old }
    ensures feeds_reads_no_input { (name file_a file_b : List ℕ) (options : Options)
        → IsCommand (Feeds name file_a file_b options) (texts words.now) → input.new ≡ input.old }
    ensures work_uses_out_alone { (records : ℕ) (options : Options)
        → IsCommand (Work records options) (texts words.now)
        → (input.new ≡ input.old) × (folder.new ≡ folder.old) × (taps.new ≡ taps.old) }
    ensures cause { HasCause
        (faults_of (S.faults input.old) (K.sink_state out.old) (F.failed folder.old))
        (faults_of (S.faults input.new) (K.sink_state out.new) (F.failed folder.new)) result.status }
    ensures blames { (wanted : Asked) → IsCommand wanted (texts words.now) → result.status ≡ Status.Folder
        → BlamesFile (F.files folder.old) wanted (F.failed folder.old) (F.failed folder.new) }
    ensures blames_tap { (place : ℕ) → result.status ≡ Status.Tap place → BlamesTap place
        (map (λ t. tap_state t) taps.old.items) (map (λ t. tap_state t) taps.new.items) }
    ensures read_no_more { (wanted : Asked) (place : ℕ) → IsCommand wanted (texts words.now) → HasOneWorker wanted
        → result.status ≡ Status.Tap place → S.faults input.new ≡ S.faults input.old }
    ensures read_no_more_at_output { (wanted : Asked) → IsCommand wanted (texts words.now) → WritesAsItReads wanted
        → result.status ≡ Status.Output → ReadsNoMore (F.files folder.old) wanted (S.left input.old) (S.left input.new)
        (K.taken out.old) (K.taken out.new) (S.faults input.old) (S.faults input.new) }
    ensures end { (wanted : Asked) → IsCommand wanted (texts words.now) → ReadsInput wanted
        → result.status ≡ Status.Done → S.has_ended input.new }
    ensures no_fault_hidden { HidesNoFault
        (faults_of (S.faults input.old) (K.sink_state out.old) (F.failed folder.old))
        (faults_of (S.faults input.new) (K.sink_state out.new) (F.failed folder.new)) result.status }
{
    let alloc = rt.alloc();
    match read_words(alloc, words) {
        Ok(Some(Request::Sum(size, options))) => answer_sum(rt, size, options, input, out, taps),
        Ok(Some(Request::Audit)) => answer_audit(alloc, input, out),
        Ok(Some(Request::Work(records, options))) => answer_work(rt, records, options, out),
        Ok(Some(Request::Run(name, options))) => {
            answer_file(rt, name, options, input, out, folder, taps)
        }
        Ok(Some(Request::Slow(name))) => answer_slow(alloc, name, input, out, folder),
        Ok(Some(Request::Watch(name, key, options))) => {
            answer_watch(rt, name, key, options, input, out, folder)
        }
        Ok(Some(Request::Feeds(name, file_a, file_b, options))) => {
            let files = ByStream {
                a: file_a,
                b: file_b,
            };
            answer_feeds(rt, name, files, options, out, folder, taps)
        }
        Ok(Some(Request::Part(name, options))) => {
            answer_part(rt, name, options, input, out, folder)
        }
        Ok(Some(Request::Save(name))) => answer_save(alloc, name, input, out, folder),
        Ok(Some(Request::Resume(name, checkpoint, options))) => answer_resume(
            rt, name, checkpoint, options, input, out, folder,
        ),
        Ok(None) => Ending::of(alloc, Status::Words),
        Err(NoMemory) => Ending::of(alloc, Status::Memory),
    }
}

/// Tells the user what was dropped, the diaries and how the run ended, as far as the notes take it.
fn tell<N: Sink>(notes: &mut N, ending: &Ending)
    ensures { HasNoted (N.taken notes.old) (N.taken notes.new) (N.sink_state notes.old) (N.sink_state notes.new)
        (notes_text ending.now.late ending.now.diaries ending.now.status) }
{
    let _ = write_notes(notes, ending);
}

/// Writes a line for each late record that was dropped, then the diaries, and then one for how the run ended.
fn write_notes<N: Sink>(notes: &mut N, ending: &Ending) -> Result<(), SinkFault>
    ensures bytes { WritesAll (N.taken notes.old) (N.taken notes.new)
        (notes_text ending.now.late ending.now.diaries ending.now.status) result }
    ensures cause { SinkCause (N.sink_state notes.old) (N.sink_state notes.new) result }
{
    ending.late.write(notes)?;
    ending.diaries.write(notes)?;
    write_all_of(notes, note_of(ending.status).as_slice())
}
