//! The cascade, and how its turns are left.

ghost use Rattle.std.specs.Prelude.{◌≡◌, ◌≤◌, ◌+◌, [], length};
ghost use Rattle.std.specs.Vec.{vec_capacity};
ghost use Rattle.sb_shared.specs.turn.Passes.{Holds, IsPassOf, IsSamePass, about, node_count, seat_view};
ghost use Rattle.sb_shared.specs.turn.Turning.{left_view};
ghost use Rattle.sb_shared.specs.Found.{IsFound};
ghost use Rattle.sb_shared.specs.Leavings.{Does, Looks};
ghost use Rattle.sb_shared.specs.SharedNodes.{lines_of};
ghost use Rattle.sb_shared.specs.Views.{after};

use sb_hand::{NodeState, Plan};
use sb_shared::{Change, Guard, Keeping, Pass, Setting, Turns};
use std::alloc::Global;
use std::sync::Wait;
use std::time::Duration;

/// The cascade that workers share.
#[derive(Drop)]
pub struct Cascade {
    pub(crate) alloc: Global,
    pub(crate) turns: Turns<Keeping>,
    pub(crate) setting: Setting,
    /// For the states of the nodes, once the cascade is shut.
    pub(crate) room: Vec<NodeState>,
    ghost roomy: { (room.items ≡ []) × (length setting.plan.steps + 1 ≤ vec_capacity room) },
    ghost many: { node_count turns ≡ length setting.plan.steps + 1 },
    ghost same: { about turns ≡ setting },
}

impl Cascade {
    /// The plan. It takes no memory.
    pub fn plan(&self) -> &Plan
        ensures { result.now ≡ self.now.setting.plan }
    {
        &self.setting.plan
    }

    /// Says whether the feeder wants help, and if so calls the helpers that sleep. At first it does. No promise rests
    /// on it.
    pub fn want_help(&self, is_wanted: bool) {
        self.turns.want_help(is_wanted);
    }

    /// Whether the feeder wants help, as it said last.
    pub fn is_help_wanted(&self) -> bool {
        self.turns.is_help_wanted()
    }

    /// How often helpers were called: where help came to be wanted, and where the state word was raised.
    pub fn help_calls(&self) -> u64 {
        self.turns.help_calls()
    }

    /// Sleeps until helpers are called, or for `most`. It doesn't if they were called since there were so many calls.
    pub fn sleep_till_called<R: Wait>(&self, rt: &R, calls: u64, most: Duration) {
        self.turns.sleep_till_called(rt, calls, most);
    }

    /// Leaves a turn: the state goes home, and the change is what was done.
    pub(crate) fn leave(&self, guard: Guard<Keeping>, pass: &mut Pass<Keeping>, change: Change)
        requires pass { IsPassOf self.now.turns pass.old × (guard.node ≤ length self.now.setting.plan.steps) }
        requires turn { Holds guard.node guard.found.value pass.old }
        requires found { IsFound self.now.setting (seat_view pass.old).client guard.node guard.found.value }
        requires looks { Looks self.now.setting guard.node guard.found.value guard.state change }
        requires does { Does self.now.setting (seat_view pass.old).client (seat_view pass.old).seen
            guard.node guard.found.value guard.state change }
        ensures pass { IsSamePass pass.old pass.new }
        ensures turn { pass.new.me ≡ (
          left_view guard.node (lines_of guard.state) change
              (after (seat_view pass.old).client guard.node change) (seat_view pass.old),
          [],
        ) }
    {
        // For the proof: a diary has at most so many lines.
        let _ = guard.state.lines();
        self.turns.leave(guard, pass, change);
    }
}
