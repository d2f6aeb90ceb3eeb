//! How a cascade is made of a hand, split among workers, and handed back to one hand.

ghost use Rattle.std.specs.Prelude.{◌≡◌, ◌≤◌, ◌+◌, ℕ, Bool, [], map, length, IfOk, Some, None, slice_get};
ghost use Rattle.std.specs.List.{list_any};
ghost use Rattle.std.specs.Vec.{vec_capacity};
ghost use mathlib.Core.Option.{some};
ghost use lib.ListN.{get_elem?};
ghost use Rattle.sb_hand.specs.base.pipeline.Shapes.{Shape};
ghost use Rattle.sb_hand.specs.Hands.{IsNewHand};
ghost use Rattle.sb_hand.specs.node.declared.state.NodeState.{NodeState as ANode};
ghost use Rattle.sb_shared.specs.turn.Passes.{ShowsEmpty};
ghost use Rattle.sb_shared.specs.turn.Turning.{joined_with, opening_view, split_off};
ghost use Rattle.sb_cascade.specs.Calls.{HasSame, IsEmptyHanded, IsFeeder, IsReady};
ghost use Rattle.sb_cascade.specs.Calls.{hands, passes_out, setting_of, view_of};
ghost use Rattle.sb_cascade.specs.Ends.{fresh_state};
ghost use Rattle.sb_cascade.specs.Lives.{GivesBack, IsShared};
ghost use Rattle.sb_shared.specs.SharedNodes.{SharedView, owed_lines};
ghost use Rattle.sb_shared.specs.Views.{first_hands, idle_hands, no_feed};

use crate::cascade::Cascade;
use crate::pass::CascadePass;
use sb_hand::{Hand, HandParts, NoMemory, NodeState, Record};
use sb_shared::{Keeping, Pass, Setting, SharedNode, Turns};
use std::alloc::Global;

/// A pass that has nothing in hand.
fn empty_pass(seat: Pass<Keeping>) -> CascadePass
    ensures seat { result.seat ≡ seat }
    ensures none { (result.delivered ≡ None) × (result.kept ≡ None) × (result.link ≡ None) }
{
    CascadePass {
        seat,
        delivered: None,
        gone: 0,
        kept: None,
        link: None,
    }
}

/// The states of new nodes.
fn fresh_states(alloc: Global, nodes: Vec<NodeState>) -> Result<Vec<SharedNode>, NoMemory>
    requires { (k : ℕ) (own : ANode) → slice_get nodes.items k ≡ Some own → owed_lines own.lanes.items ≡ 0 }
    ensures { IfOk result (λ states. states.items ≡ map fresh_state nodes.items) }
{
    let mut states = Vec::new(alloc);
    for own in nodes {
        states.push(SharedNode::new(alloc, own)?)?;
    }
    Ok(states)
}

/// What the states of the nodes come to, taken together.
#[derive(Drop)]
struct Gathered {
    nodes: Vec<NodeState>,
    tray: Vec<Record>,
    spent: bool,
}

/// The states of the nodes, the tray of the last one, the sink, and whether one of them is spent. It takes no memory.
fn gather(alloc: Global, room: Vec<NodeState>, states: Vec<SharedNode>) -> Gathered
    requires room { (room.items ≡ []) × (length states.items ≤ vec_capacity room) }
    ensures nodes { result.nodes.items ≡ map (λ x. x.own) states.items }
    ensures tray { (k : ℕ) (x : SharedView) → k + 1 ≡ length states.items → get_elem? states.items k ≡ some x
        → result.tray.items ≡ x.tray }
    ensures spent { result.spent ≡ list_any (λ x. x.spent) states.items }
{
    let mut nodes = room;
    let mut tray = Vec::new(alloc);
    let mut spent = false;
    for state in states {
        spent = spent || state.is_spent();
        let (own, rows) = state.into_parts();
        nodes.push_reserved(own);
        tray = rows;
    }
    Gathered { nodes, tray, spent }
}

impl Cascade {
    /// A cascade of the nodes of a new hand, and the feeder's pass. If there is no memory, the hand is dropped.
    ///
    /// # Errors
    ///
    /// [`NoMemory`].
    pub fn share(alloc: Global, hand: Hand) -> Result<(Cascade, CascadePass), NoMemory>
        requires { (plan : Shape) × (bundle pending : ℕ) × (keeps : Bool) × IsNewHand plan bundle pending keeps hand }
        ensures cascade { (plan : Shape) (bundle pending : ℕ) (keeps : Bool) → IsNewHand plan bundle pending keeps hand
            → IfOk result (λ t. IsShared plan bundle pending keeps (setting_of t.0)) }
        ensures pass { IfOk result (λ t. IsReady t.0 t.1 × IsFeeder t.1 × IsEmptyHanded t.1
            × (view_of t.1 ≡ opening_view first_hands)) }
    {
        let keeps = hand.diary(0).keeps();
        let parts = hand.into_parts();
        let HandParts {
            plan,
            bundle,
            pending,
            nodes,
            tray: _,
            spent: _,
        } = parts;
        let room = Vec::with_capacity(alloc, nodes.len())?;
        let states = fresh_states(alloc, nodes)?;
        let setting = Setting {
            plan,
            bundle,
            pending,
            keeps,
        };
        let (turns, seat) = Turns::new(alloc, states, &setting)?;
        let cascade = Cascade {
            alloc,
            turns,
            setting,
            room,
        };
        Ok((cascade, empty_pass(seat)))
    }

    /// A pass for another worker, which knows and has nothing yet. The feeder's pass counts it until it is joined. It
    /// takes no memory and waits for nobody.
    pub fn split(&self, pass: &mut CascadePass) -> CascadePass
        requires pass { IsReady self.now pass.old × IsFeeder pass.old }
        ensures pass { IsReady self.now pass.new × IsFeeder pass.new × HasSame pass.old pass.new }
        ensures view { view_of pass.new ≡ split_off (view_of pass.old) }
        ensures other { IsReady self.now result × IsEmptyHanded result × (view_of result ≡ opening_view idle_hands) }
    {
        empty_pass(self.turns.split(&mut pass.seat))
    }

    /// Takes a pass back that has nothing in hand. The feeder's pass keeps what it did and saw. It takes no memory and
    /// waits for nobody.
    pub fn join(&self, pass: &mut CascadePass, other: CascadePass)
        requires pass { IsReady self.now pass.old × IsFeeder pass.old }
        requires other { IsReady self.now other × IsEmptyHanded other × ((hands other).feed ≡ no_feed) }
        ensures pass { IsReady self.now pass.new × IsFeeder pass.new × HasSame pass.old pass.new }
        ensures view { view_of pass.new ≡ joined_with (view_of pass.old) (view_of other) }
    {
        let CascadePass {
            seat,
            delivered: _,
            gone: _,
            kept: _,
            link: _,
        } = other;
        self.turns.join(&mut pass.seat, seat);
    }

    /// Hands the cascade back to one hand, which shows what the cascade showed; its tray has the rows that were not
    /// drained. The caller owes the feeder's pass with nothing in hand, no other pass out, and the shelf shown to be
    /// empty. It takes no memory and waits for nobody.
    pub fn shut(self, pass: CascadePass) -> Hand
        requires pass { IsReady self pass × IsFeeder pass × IsEmptyHanded pass × (passes_out pass ≡ 0) }
        requires shelf { ShowsEmpty pass.seat }
        ensures { GivesBack (setting_of self) (view_of pass) result }
    {
        let Cascade {
            alloc,
            turns,
            setting,
            room,
        } = self;
        let CascadePass {
            seat,
            delivered: _,
            gone: _,
            kept: _,
            link: _,
        } = pass;
        let Gathered { nodes, tray, spent } = gather(alloc, room, turns.close(seat));
        let Setting {
            plan,
            bundle,
            pending,
            keeps: _,
        } = setting;
        Hand::from_parts(
            alloc,
            HandParts {
                plan,
                bundle,
                pending,
                nodes,
                tray,
                spent,
            },
        )
    }
}
