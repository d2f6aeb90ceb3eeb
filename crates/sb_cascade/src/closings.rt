//! What a worker does with a closing: it begins, its rows and its mark go below, and it ends.

ghost use Rattle.std.specs.Prelude.{◌≡◌, ◌<◌, ◌≤◌, ◌⊎◌, ℕ, Bool, true, false, [], drop, take, length};
ghost use Rattle.std.specs.Prelude.{IfErr, IfOk, OnErr, OnOk, MatchBool, Ok};
ghost use Rattle.sb_hand.specs.core.Closings.{is_sink};
ghost use Rattle.sb_cascade.specs.Calls.{HasClosing, HasSame, IsEmptyHanded, IsReady, IsSame, LeftBy};
ghost use Rattle.sb_cascade.specs.Calls.{plan_of, rows_left, setting_of, view_of};
ghost use Rattle.sb_shared.specs.Shown.{operator_of};
ghost use Rattle.sb_cascade.specs.Told.{AreRows, Is, IsBeginning, IsEnd, IsPassing};
ghost use Rattle.sb_cascade.specs.Working.{LeftBelow};
ghost use Rattle.sb_cascade.specs.Closings.{StopsBy};
ghost use Rattle.sb_shared.specs.declared.telling.Change.TheVariants as change;

use crate::cascade::Cascade;
use crate::pass::CascadePass;
use sb_hand::{Bundle, Closing, NoMemory, NotYet, Record, Sequence};
use sb_shared::{BeginStop, Change, Reason};
use std::alloc::Global;
use std::snapshot::Snapshot;
use std::sync::Wait;

/// Why a closing did not begin.
#[derive(Drop)]
pub enum CloseStop {
    /// The node does not allow it now, and this is why.
    NotYet(NotYet),
    /// There was not enough memory.
    Memory,
}

/// A copy of the first so many rows.
fn first_of(alloc: Global, rows: &[Record], count: usize) -> Result<Sequence<Record>, NoMemory>
    requires { count ≤ length rows.now }
    ensures { IfOk result (λ records. records ≡ take count rows.now) }
{
    let (next, _) = rows.split_at(count);
    Ok(Sequence::new(Vec::from_slice(alloc, next)?))
}

impl Cascade {
    /// Begins a closing of a node: of the first lane whose oldest container can close. At the sink the rows go to the
    /// tray, and the closing has none. It may wait for the node's turn.
    ///
    /// # Errors
    ///
    /// [`CloseStop::NotYet`] only if, under the turn, no closing could begin. [`CloseStop::Memory`]: either nothing has
    /// changed, or what the node keeps is unknown, and the state word says that there was no memory.
    pub fn begin_close<R: Wait>(
        &self,
        rt: &R,
        pass: &mut CascadePass,
        node: u32,
    ) -> Result<Closing, CloseStop>
        requires pass { IsReady self.now pass.old × IsEmptyHanded pass.old }
        requires node { node ≤ length (plan_of self.now).steps }
        ensures pass { IsReady self.now pass.new × IsSame pass.old pass.new }
        ensures begun { IfOk result (λ c. (c.node ≡ node)
            × HasClosing c (is_sink (operator_of (setting_of self.now) node)) pass.new
            × LeftBy node (IsBeginning c) pass.old pass.new) }
        ensures none { IfOk result (λ c. is_sink (operator_of (setting_of self.now) node) ≡ true
            → rows_left c pass.new ≡ []) }
        ensures stopped { OnErr result (HasSame pass.old pass.new) }
        ensures cause { IfErr result (λ stop. StopsBy node pass.old pass.new stop) }
    {
        let is_sink = node == self.setting.plan.transforms();
        let mut guard = self.turns.enter(rt, node, &mut pass.seat);
        match guard.state.begin(node, is_sink) {
            Ok(closing) => {
                let told = Snapshot::of(&closing);
                let change = Change::Begin {
                    closing: told,
                    passed: is_sink,
                };
                self.leave(guard, &mut pass.seat, change);
                pass.gone = 0;
                Ok(closing)
            }
            Err(BeginStop::NotYet(why)) => {
                self.leave(guard, &mut pass.seat, Change::NotYet(why));
                Err(CloseStop::NotYet(why))
            }
            Err(BeginStop::Memory) => {
                self.leave(guard, &mut pass.seat, Change::Nothing);
                Err(CloseStop::Memory)
            }
            Err(BeginStop::Spent) => {
                self.turns.stop(&mut pass.seat, Reason::Memory);
                self.leave(guard, &mut pass.seat, Change::Spent);
                Err(CloseStop::Memory)
            }
        }
    }

    /// Puts the next rows of a closing, as many as a bundle may have, into the lane below. False exactly if no row was
    /// left. It may wait for the turn of the node below.
    ///
    /// # Errors
    ///
    /// [`NoMemory`]; then nothing has changed.
    pub fn deliver_rows<R: Wait>(
        &self,
        rt: &R,
        pass: &mut CascadePass,
        closing: &Closing,
    ) -> Result<bool, NoMemory>
        requires pass { IsReady self.now pass.old × HasClosing closing.now false pass.old }
        requires node { closing.now.node < length (plan_of self.now).steps }
        ensures pass { IsReady self.now pass.new × IsSame pass.old pass.new × HasClosing closing.now false pass.new }
        ensures more { IfOk result (λ more. MatchBool more
            ((0 < length (rows_left closing.now pass.old))
            × LeftBelow self.now closing.now.node (AreRows closing.now) pass.old pass.new)
            ((rows_left closing.now pass.old ≡ []) × HasSame pass.old pass.new)) }
        ensures still { result ≡ Ok false → view_of pass.new ≡ view_of pass.old }
        ensures rows { OnOk result (rows_left closing.now pass.new
            ≡ drop (setting_of self.now).bundle (rows_left closing.now pass.old)) }
        ensures fewer { result ≡ Ok true
            → length (rows_left closing.now pass.new) < length (rows_left closing.now pass.old) }
        ensures same { OnErr result (HasSame pass.old pass.new) }
        ensures tried { OnErr result ((view_of pass.new ≡ view_of pass.old)
            ⊎ LeftBelow self.now closing.now.node (Is change.Nothing) pass.old pass.new) }
    {
        let first = pass.gone;
        if first >= closing.rows.len() {
            return Ok(false);
        }
        let (_, rest) = closing.rows.as_slice().split_at(first);
        let most = self.setting.bundle;
        let count = (most as usize).min(rest.len());
        let records = first_of(self.alloc, rest, count)?;
        let down = self.setting.plan.down(closing.node);
        let bundle = Bundle {
            number: 0,
            epoch: closing.serial,
            floor: closing.floor,
            records,
        };
        let mut guard = self.turns.enter(rt, down.node, &mut pass.seat);
        match guard.state.put(down.lane, pass.link, bundle) {
            Ok(place) => {
                let told = Snapshot::of(closing);
                let change = Change::Rows {
                    closing: told,
                    first,
                    most,
                    place,
                };
                self.leave(guard, &mut pass.seat, change);
                pass.link = Some(place);
                pass.gone = first + count;
                Ok(true)
            }
            Err(_) => {
                self.leave(guard, &mut pass.seat, Change::Nothing);
                Err(NoMemory)
            }
        }
    }

    /// Passes the mark of a closing that has no row left to the lane below. It may wait for the turn of the node below.
    ///
    /// # Errors
    ///
    /// [`NoMemory`]; then nothing has changed.
    pub fn pass_mark<R: Wait>(
        &self,
        rt: &R,
        pass: &mut CascadePass,
        closing: &Closing,
    ) -> Result<(), NoMemory>
        requires pass { IsReady self.now pass.old × HasClosing closing.now false pass.old }
        requires node { closing.now.node < length (plan_of self.now).steps }
        requires rows { rows_left closing.now pass.old ≡ [] }
        ensures pass { IsReady self.now pass.new × IsSame pass.old pass.new }
        ensures passed { OnOk result (HasClosing closing.now true pass.new
            × LeftBelow self.now closing.now.node (IsPassing closing.now) pass.old pass.new) }
        ensures none { OnOk result (rows_left closing.now pass.new ≡ []) }
        ensures same { OnErr result (HasSame pass.old pass.new) }
        ensures tried { OnErr result (LeftBelow self.now closing.now.node (Is change.Nothing) pass.old pass.new) }
    {
        let down = self.setting.plan.down(closing.node);
        let mut guard = self.turns.enter(rt, down.node, &mut pass.seat);
        match guard.state.seal(down.lane, closing.mark) {
            Ok(()) => {
                let told = Snapshot::of(closing);
                self.leave(guard, &mut pass.seat, Change::Pass(told));
                pass.link = None;
                Ok(())
            }
            Err(_) => {
                self.leave(guard, &mut pass.seat, Change::Nothing);
                Err(NoMemory)
            }
        }
    }

    /// Ends a closing whose mark is passed, or of the sink: its container is removed. It takes no memory, but may wait
    /// for the node's turn.
    pub fn end_close<R: Wait>(&self, rt: &R, pass: &mut CascadePass, closing: Closing)
        requires pass { IsReady self.now pass.old × HasClosing closing true pass.old }
        requires rows { rows_left closing pass.old ≡ [] }
        requires node { closing.node ≤ length (plan_of self.now).steps }
        ensures pass { IsReady self.now pass.new × IsSame pass.old pass.new × IsEmptyHanded pass.new }
        ensures left { LeftBy closing.node (IsEnd closing) pass.old pass.new }
    {
        let mut guard = self.turns.enter(rt, closing.node, &mut pass.seat);
        guard.state.end(closing.lane, closing.epoch);
        let told = Snapshot::of(&closing);
        self.leave(guard, &mut pass.seat, Change::End(told));
        pass.link = None;
    }
}
