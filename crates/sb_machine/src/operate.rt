//! What a node does with a bundle, and at a closing.

ghost use Rattle.std.specs.Prelude.{◌≡◌, ◌≤◌, ◌<◌, ◌++◌, [], ◌∷◌, if◌then◌else◌, true, All, length, nat_lt, slice_get};
ghost use Rattle.std.specs.Prelude.{filter, not};
ghost use Rattle.std.specs.Prelude.{OnOk, OnErr, IfOk, IsOk};
ghost use Rattle.std.specs.List.{list_any};
ghost use Rattle.sb_slow.specs.base.records.Records.{at_least};
ghost use Rattle.sb_slow.specs.base.windowed.Sessions.{is_session_open};
ghost use Rattle.sb_slow.specs.base.records.Elements as elements_spec;
ghost use Rattle.sb_slow.specs.base.records.Elements.{on_lane};
ghost use Rattle.sb_slow.specs.base.pipeline.Operators.{operator_at};
ghost use Rattle.sb_slow.specs.base.window.Windows.{window_ends};
ghost use Rattle.sb_core.specs.Closings as spec;

use sb_slow::{
    END_MARK, KeptRec, Kind, MAX_GAP, NoMemory, Plan, Record, Windows, all_records, apply, output,
    push_on_lane, session_ends, sort_below,
};
use std::alloc::Global;

/// What a bundle gives below before a closing.
pub(crate) fn delivery(
    alloc: Global,
    plan: &Plan,
    node: u32,
    records: &[Record],
) -> Result<Vec<Record>, NoMemory>
    requires { node ≤ length plan.now.steps }
    ensures { IfOk result (λ given.
        given.items ≡ spec.delivery (operator_at (slice_get plan.now.steps node)) records.now) }
{
    let mut given = Vec::new(alloc);
    if node < plan.transforms() {
        if let Kind::Do(op) = plan.kind(node) {
            apply(op, records, &mut given)?;
        }
    }
    Ok(given)
}

/// Whether the node is a ParDo.
fn is_pardo(plan: &Plan, node: u32) -> bool
    requires { node ≤ length plan.now.steps }
    ensures { result ≡ spec.is_pardo (operator_at (slice_get plan.now.steps node)) }
{
    node < plan.transforms() && matches!(plan.kind(node), Kind::Do(_))
}

/// Appends what a node keeps of a finished bundle: a ParDo nothing, which takes no memory.
pub(crate) fn absorb(
    alloc: Global,
    plan: &Plan,
    node: u32,
    lane: u32,
    records: &[Record],
    kept: &mut Vec<KeptRec>,
) -> Result<(), NoMemory>
    requires { node ≤ length plan.now.steps }
    ensures ok { OnOk result (kept.new.items
        ≡ kept.old.items
        ++ spec.kept_elements (operator_at (slice_get plan.now.steps node)) (on_lane lane records.now)) }
    ensures err { OnErr result (kept.new.items ≡ kept.old.items) }
    ensures pardo { spec.is_pardo (operator_at (slice_get plan.now.steps node)) ≡ true → IsOk result }
{
    if is_pardo(plan, node) {
        return Ok(());
    }
    let mut elements = Vec::new(alloc);
    push_on_lane(lane, records, &mut elements)?;
    kept.append(&mut elements)?;
    Ok(())
}

/// Whether a time has a window with an end above the mark.
fn is_open(windows: &Windows, time: u64, mark: u64) -> bool
    requires { time < END_MARK }
    ensures { result ≡ list_any (λ end. nat_lt mark end) (window_ends windows.now time) }
{
    for end in windows.ends(time) {
        if mark < end {
            return true;
        }
    }
    false
}

/// The elements that have a window with an end above the mark.
fn still_open(
    alloc: Global,
    windows: &Windows,
    mark: u64,
    kept: &[KeptRec],
) -> Result<Vec<KeptRec>, NoMemory>
    requires { All (λ e. e.rec.time < END_MARK) kept.now }
    ensures { IfOk result (λ open_.
        open_.items ≡ filter (λ e. list_any (λ end. nat_lt mark end) (window_ends windows.now e.rec.time)) kept.now) }
{
    let mut left = Vec::new(alloc);
    for element in kept {
        push_if(is_open(windows, element.rec.time, mark), element, &mut left)?;
    }
    Ok(left)
}

/// The elements whose session, among these, ends above the mark.
fn in_open_sessions(
    alloc: Global,
    gap: u64,
    mark: u64,
    kept: &[KeptRec],
) -> Result<Vec<KeptRec>, NoMemory>
    requires gap { gap ≤ MAX_GAP }
    requires times { All (λ e. e.rec.time < END_MARK) kept.now }
    ensures { IfOk result (λ open_.
        open_.items ≡ filter (λ e. is_session_open gap mark (elements_spec.all_records kept.now) e.rec) kept.now) }
{
    let records = all_records(alloc, kept)?;
    let ends = session_ends(alloc, gap, &records)?;
    let mut left = Vec::new(alloc);
    for (place, element) in kept.iter().enumerate() {
        push_if(mark < ends[place], element, &mut left)?;
    }
    Ok(left)
}

/// Appends the element, where it passes.
fn push_if(passes: bool, element: &KeptRec, left: &mut Vec<KeptRec>) -> Result<(), NoMemory>
    ensures { OnOk result (left.new.items ≡ left.old.items ++ (if passes then element.now ∷ [] else [])) }
{
    if passes {
        let rec = Record { ..element.rec };
        left.push(KeptRec {
            lane: element.lane,
            rec,
        })?;
    }
    Ok(())
}

/// The elements with a time from the mark on.
fn from_mark(alloc: Global, mark: u64, kept: &[KeptRec]) -> Result<Vec<KeptRec>, NoMemory>
    ensures { IfOk result (λ left. left.items ≡ filter (λ e. not (nat_lt e.rec.time mark)) kept.now) }
{
    let mut left = Vec::new(alloc);
    for element in kept {
        if element.rec.time >= mark {
            left.push(*element)?;
        }
    }
    Ok(left)
}

/// What a node still keeps when a mark closes.
pub(crate) fn kept_at(
    alloc: Global,
    plan: &Plan,
    node: u32,
    mark: u64,
    kept: &[KeptRec],
) -> Result<Vec<KeptRec>, NoMemory>
    requires node { node ≤ length plan.now.steps }
    requires times { All (λ e. e.rec.time < END_MARK) kept.now }
    ensures { IfOk result (λ left.
        left.items ≡ spec.kept_at (operator_at (slice_get plan.now.steps node)) mark kept.now) }
{
    if node == plan.transforms() {
        return from_mark(alloc, mark, kept);
    }
    match plan.kind(node) {
        Kind::Do(_) => {
            let mut left = Vec::new(alloc);
            left.extend_from_slice(kept)?;
            Ok(left)
        }
        Kind::Session(_, gap) => in_open_sessions(alloc, *gap, mark, kept),
        Kind::Group(_, windows) | Kind::Join(_, windows) => still_open(alloc, windows, mark, kept),
    }
}

/// Keeps the rows with a time from the floor on.
fn keep_from(rows: &mut Vec<Record>, floor: u64)
    ensures { rows.new.items ≡ at_least floor rows.old.items }
{
    rows.retain(|row| row.time >= floor);
}

/// The rows that a closing from a floor to a mark gives below.
pub(crate) fn rows_at(
    alloc: Global,
    plan: &Plan,
    node: u32,
    floor: u64,
    mark: u64,
    kept: &[KeptRec],
) -> Result<Vec<Record>, NoMemory>
    requires node { node ≤ length plan.now.steps }
    requires times { All (λ e. e.rec.time < END_MARK) kept.now }
    ensures { IfOk result (λ rows.
        rows.items ≡ spec.rows_at (operator_at (slice_get plan.now.steps node)) floor mark kept.now) }
{
    if node == plan.transforms() || is_pardo(plan, node) {
        return Ok(Vec::new(alloc));
    }
    // What is kept gives rows of windows that closed before, too: they went below with those closings.
    let mut rows = output(alloc, plan.kind(node), kept)?;
    keep_from(&mut rows, floor);
    sort_below(&mut rows, mark)?;
    Ok(rows)
}

/// What a closing of the sink adds to the rows.
pub(crate) fn rows_at_sink(
    alloc: Global,
    plan: &Plan,
    node: u32,
    mark: u64,
    kept: &[KeptRec],
) -> Result<Vec<Record>, NoMemory>
    requires { node ≤ length plan.now.steps }
    ensures { IfOk result (λ rows.
        rows.items ≡ spec.rows_at_sink (operator_at (slice_get plan.now.steps node)) mark kept.now) }
{
    if node < plan.transforms() {
        return Ok(Vec::new(alloc));
    }
    let mut rows = all_records(alloc, kept)?;
    sort_below(&mut rows, mark)?;
    Ok(rows)
}
