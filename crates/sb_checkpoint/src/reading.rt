//! The text of a checkpoint, read line by line.

ghost use Rattle.std.specs.Prelude.{◌≡◌, ◌==◌, ◌&&◌, ◌≤◌, ◌<◌, ◌∷◌, [], ℕ, false, IfOk, IfSome, IfNone, length, if◌then◌else◌};
ghost use Rattle.std.specs.List.{position};
ghost use Rattle.sb_outside.specs.Lines.{line_feed};
ghost use Rattle.sb_pipeline.specs.records.Reading.{item_of};
ghost use Rattle.sb_checkpoint.specs.Reach as reach_spec;
ghost use Rattle.sb_checkpoint.specs.Saved.{items_in};
ghost use Rattle.sb_checkpoint.specs.Texts as spec;

use crate::checkpoint::Checkpoint;
use crate::gathering::{add, is_whole};
use crate::line_reading::{is_end, read_head};
use crate::line_text::item_count;
use crate::reaching::reach;
use sb_pipeline::{Malformed, NoMemory, Plan, read_line};
use std::alloc::Global;

/// Why a checkpoint can't be read.
#[derive(Clone, Copy, Debug, PartialEq, Eq)]
pub enum CheckpointStop {
    /// Its first faulty line, from 1.
    Fault { line: u64 },
    /// There was no memory.
    Memory,
}

impl From<NoMemory> for CheckpointStop {
    ghost use Rattle.sb_checkpoint.specs.declared.reading.CheckpointStop.TheVariants.{Memory};

    ghost from_gives = { λ _ stop. stop ≡ Memory };

    fn from(_: NoMemory) -> CheckpointStop {
        CheckpointStop::Memory
    }
}

/// Where the first line feed stands, if there is one.
fn first_line_feed(text: &[u8]) -> Option<usize>
    ensures { result ≡ position (λ b. b == line_feed) text.now }
{
    text.iter().position(|byte| *byte == b'\n')
}

/// The first line of a text, without its line feed, and what follows it, if there is a line feed.
fn first_line(text: &[u8]) -> Option<(&[u8], &[u8])>
    ensures none { IfNone result (spec.pieces text.now ≡ text.now ∷ []) }
    ensures some { IfSome result (λ p. spec.pieces text.now ≡ p.0.now ∷ spec.pieces p.1.now) }
    ensures shorter { IfSome result (λ p. length p.1.now < length text.now) }
{
    let end = first_line_feed(text)?;
    Some((&text[..end], &text[end + 1..]))
}

/// Adds the item of this line, if it may stand behind those of the checkpoint, and says whether it may. `reach` is that
/// of the plan.
fn add_line(
    plan: &Plan,
    reach: u64,
    checkpoint: &mut Checkpoint,
    line: &[u8],
) -> Result<bool, NoMemory>
    requires { reach ≡ reach_spec.reach plan.now }
    ensures may { IfOk result (λ b. b
        ≡ spec.may_stand plan.now checkpoint.old.low (items_in checkpoint.old) (item_of plan.now.keys line.now)) }
    ensures items { IfOk result (λ b. items_in checkpoint.new
        ≡ (if b then spec.with_item (items_in checkpoint.old) (item_of plan.now.keys line.now)
        else items_in checkpoint.old)) }
    ensures lines { checkpoint.new.lines ≡ checkpoint.old.lines }
    ensures low { checkpoint.new.low ≡ checkpoint.old.low }
{
    match read_line(line, plan.keys()) {
        Ok(item) => add(plan, reach, checkpoint, item),
        Err(Malformed) => Ok(false),
    }
}

/// Whether the line is the last one of the checkpoint, and the checkpoint can be that of an input.
fn is_last(plan: &Plan, checkpoint: &Checkpoint, line: &[u8]) -> bool
    ensures { result ≡ (spec.is_same line.now (spec.end_text (length (items_in checkpoint.now)))
        && spec.is_whole plan.now checkpoint.now.lines checkpoint.now.low (items_in checkpoint.now)) }
{
    is_end(line, item_count(checkpoint)) && is_whole(plan, checkpoint)
}

/// Reads a line that is none of an item, and what follows it: the number of the faulty line, if it is not the last line
/// of the checkpoint, or if it is and something follows.
fn fault_from(plan: &Plan, checkpoint: &Checkpoint, line: &[u8], more: &[u8]) -> Option<u64>
    requires { spec.may_stand plan.now checkpoint.now.low (items_in checkpoint.now) (item_of plan.now.keys line.now)
        ≡ false }
    ensures { spec.read_lines plan.now checkpoint.now.lines checkpoint.now.low (items_in checkpoint.now)
        (line.now ∷ spec.pieces more.now) ≡ spec.answer_of (items_in checkpoint.now) result }
{
    let count = item_count(checkpoint);
    if !is_last(plan, checkpoint, line) {
        return Some(count + 2);
    }
    if more.is_empty() {
        None
    } else {
        Some(count + 3)
    }
}

/// Reads the lines behind the first one into a checkpoint that has no item yet.
fn read_items(plan: &Plan, checkpoint: &mut Checkpoint, text: &[u8]) -> Result<(), CheckpointStop>
    requires sessions { reach_spec.HasNoSession plan.now }
    requires empty { items_in checkpoint.old ≡ [] }
    ensures lines { checkpoint.new.lines ≡ checkpoint.old.lines }
    ensures low { checkpoint.new.low ≡ checkpoint.old.low }
    ensures read { IfOk result (λ _. spec.read_lines plan.now checkpoint.old.lines checkpoint.old.low []
        (spec.pieces text.now) ≡ Ok (items_in checkpoint.new)) }
    ensures fault { (line : ℕ) → result ≡ Err (CheckpointStop.Fault line)
        → spec.read_lines plan.now checkpoint.old.lines checkpoint.old.low [] (spec.pieces text.now) ≡ Err line }
{
    let reach = reach(plan);
    let mut rest = text;
    'lines: while let Some((line, more)) = first_line(rest) {
        if !add_line(plan, reach, checkpoint, line)? {
            return match fault_from(plan, checkpoint, line, more) {
                None => Ok(()),
                Some(line) => Err(CheckpointStop::Fault { line }),
            };
        }
        rest = more;
    }
    let line = item_count(checkpoint) + 2;
    Err(CheckpointStop::Fault { line })
}

/// Reads the text of a checkpoint for a plan in which no transform gathers records by session. It is faulty at the
/// first line that has no place there, or where it ends too early: then the line after the last one is faulty.
///
/// # Errors
///
/// The number of the first faulty line, or out of memory.
pub fn read_checkpoint(
    alloc: Global,
    plan: &Plan,
    text: &[u8],
) -> Result<Checkpoint, CheckpointStop>
    requires { reach_spec.HasNoSession plan.now }
    ensures read { IfOk result (λ c. spec.IsRead plan.now (spec.pieces text.now) c.lines c.low (items_in c)) }
    ensures room { IfOk result (λ c. length (items_in c) ≤ c.lines) }
    ensures fault { (line : ℕ) → result ≡ Err (CheckpointStop.Fault line)
        → spec.IsFaultAt plan.now (spec.pieces text.now) line }
{
    let Some((head, rest)) = first_line(text) else {
        return Err(CheckpointStop::Fault { line: 1 });
    };
    let Some((lines, low)) = read_head(head) else {
        return Err(CheckpointStop::Fault { line: 1 });
    };
    let mut checkpoint = Checkpoint {
        lines,
        low,
        records: Vec::new(alloc),
        mark_a: 0,
        mark_b: 0,
    };
    read_items(plan, &mut checkpoint, rest)?;
    Ok(checkpoint)
}
