//! How the turns begin, and how the states come back.
ghost use Rattle.std.specs.Prelude.{◌≡◌, ℕ, ◌+◌, ◌*◌, ◌<◌, ◌≤◌, List, length, replicate, map, [], ◌∷◌, ◌++◌};
ghost use Rattle.std.specs.Prelude.{None, IfOk};
ghost use Rattle.std.specs.Slots.{slots_items, slots_len, IsFull};
ghost use Rattle.std.specs.Vec.{vec_capacity};
ghost use mathlib.Core.Option.{some};
ghost use lib.ListN.{get_elem?};
ghost use Rattle.crossbeam_utils.specs.Padded.{padded_value};
ghost use Rattle.crossbeam_utils.specs.declared.cache_padded.CachePadded.{CachePadded};
ghost use Rattle.sb_turn.specs.declared.turns.Slot.TheVariants.{Empty, State as Lies};
ghost use Rattle.sb_turn.specs.Turning.{opening_view, HasState};
ghost use Rattle.sb_turn.specs.Owed.{Closes};
ghost use Rattle.sb_turn.specs.Passes as passes;
ghost use Rattle.sb_turn.specs.Passes.{IsPassOf, IsFree, IsFirst, ShowsEmpty, node_count, seat_view, AllShort};

use crate::hints::Hints;
use crate::keep::Keep;
use crate::shelf::PLACES;
use crate::turns::{Pass, Slot, Turns};
use atomic_table::{Closed, Table};
use crossbeam_utils::CachePadded;
use sb_record::NoMemory;
use std::alloc::{AllocError, Global};

/// The most nodes: 12 transforms and the sink.
pub const MAX_NODES: u32 = 13;

// What the table begins with: the state word and the word of each turn and place, and the slots, each state in its own.
struct Layout<S, P> {
    words: Vec<u64>,
    slots: Vec<Slot<S, P>>,
}

fn lay_out<K: Keep>(
    alloc: Global,
    states: Vec<K::State>,
) -> Result<Layout<K::State, K::Piece>, AllocError>
    requires { AllShort K.lines_of states.items }
    ensures words { IfOk result (λ l. l.words.items
        ≡ 0 ∷ (map (λ x. 2 * K.lines_of x) states.items ++ replicate PLACES 0)) }
    ensures slots { IfOk result (λ l. (cs : List (CachePadded K.State)) × (map padded_value cs ≡ states.items)
        × (l.slots.items ≡ map Lies cs ++ replicate PLACES Empty)) }
{
    let mut words = vec![in alloc; 0u64]?;
    let mut slots = Vec::new(alloc);
    for state in states {
        words.push(2 * K::lines(&state))?;
        slots.push(Slot::State(CachePadded::new(state)))?;
    }
    for _ in 0..PLACES {
        words.push(0)?;
        slots.push(Slot::Empty)?;
    }
    Ok(Layout { words, slots })
}

// The states, out of their slots. What lies behind them is dropped.
fn states_of<S: Drop, P: Drop>(
    mut closed: Closed<Slot<S, P>, Global>,
    count: u32,
    mut room: Vec<S>,
) -> Vec<S>
    requires slots { IsFull closed.slots × (slots_len closed.slots ≡ count + PLACES) }
    requires states { (k : ℕ) → k < count → (x : S)
        × HasState (get_elem? (map some (slots_items closed.slots)) k) x }
    requires room { (room.items ≡ []) × (count ≤ vec_capacity room) }
    ensures { (length result.items ≡ count) × ((k : ℕ) (x : S) → get_elem? result.items k ≡ some x
        → HasState (get_elem? (map some (slots_items closed.slots)) k) x) }
{
    for i in 0..count {
        match closed.take(i as usize) {
            Slot::State(padded) => room.push_reserved(padded.into_inner()),
            _ => unreachable!(),
        }
    }
    for k in 0..PLACES {
        closed.take(count as usize + k as usize);
    }
    closed.free();
    room
}

impl<K: Keep> Turns<K> {
    /// A turn for each of 1 to 13 states, and an empty shelf. The pass is the first pass, which alone may be split,
    /// joined to and given to `close`. The room that `close` needs is taken here. If there is no memory, the states
    /// are dropped.
    pub fn new(
        alloc: Global,
        states: Vec<K::State>,
        about: &K::About,
    ) -> Result<(Turns<K>, Pass<K>), NoMemory>
        requires count { (1 ≤ length states.items) × (length states.items ≤ MAX_NODES) }
        requires lines { AllShort K.lines_of states.items }
        requires rule { K.rule about.now (replicate PLACES None) 0 states.items
            (replicate (length states.items) []) (K.first about.now ∷ []) }
        ensures { IfOk result (λ t. (node_count t.0 ≡ length states.items) × IsPassOf t.0 t.1 × IsFirst t.1
            × (t.1.me ≡ (opening_view (K.first about.now), [])) × (passes.about t.0 ≡ about.now)) }
    {
        let count = states.len() as u32;
        let Ok(room) = Vec::with_capacity(alloc, states.len()) else {
            return Err(NoMemory);
        };
        let Ok(Layout { words, slots }) = lay_out::<K>(alloc, states) else {
            return Err(NoMemory);
        };
        match Table::new(alloc, words.as_slice(), slots, about) {
            Ok((table, pass)) => Ok((
                Turns {
                    table,
                    count,
                    room,
                    hints: Hints::new(),
                },
                pass,
            )),
            Err(_) => Err(NoMemory),
        }
    }

    /// Gives the states back. The caller owes the first pass, with no other pass out, nothing in hand and the shelf
    /// shown to be empty. The call waits for nobody and asks for no memory.
    pub fn close(self, pass: Pass<K>) -> Vec<K::State>
        requires pass { IsPassOf self pass × IsFirst pass × IsFree pass × ((seat_view pass).count ≡ 0) }
        requires shelf { ShowsEmpty pass }
        ensures { Closes K.lines_of K.is_event K.idle (K.rule (passes.about self)) (seat_view pass) result.items }
    {
        let Turns {
            table,
            count,
            room,
            hints: _,
        } = self;
        states_of(table.close_with(pass), count, room)
    }
}
