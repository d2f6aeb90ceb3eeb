//! The table under the turns and the shelf, what a pass knows, and what a turn gives.
ghost use Rattle.std.specs.Prelude.{◌≡◌, ℕ, ◌+◌, ◌≤◌, []};
ghost use Rattle.std.specs.Vec.{vec_capacity};

use crate::hints::Hints;
use crate::keep::Keep;
use atomic_table::{Seat, Table, TableRule};
use crossbeam_utils::CachePadded;
use std::alloc::Global;
use std::collections::LinkedList;
use std::marker::PhantomData;
use std::snapshot::Snapshot;

/// What a pass did or saw. No value of it is made: it stands in traces, of which contracts alone speak.
pub enum Entry<C> {
    /// A try found the node's word held.
    Held(u32),
    /// The pass left the node. `number` is how many lines its state then had: of an event, its number in the node.
    Left { node: u32, number: u64, change: C },
    /// It loaded the state word.
    Saw(u64),
    /// It raised the state word.
    Raised(u64),
    /// It looked at a place in vain, and found the word there.
    Looked { place: u64, word: u64 },
    /// It claimed a place.
    Claimed(u64),
}

/// A turn that a pass has. No value of it is made.
pub struct Hold<S> {
    /// The node.
    pub node: u32,
    /// Its state, as it was found.
    pub found: S,
}

/// What lies in a slot. Each state has cache lines of its own.
#[derive(Drop)]
pub enum Slot<S, P> {
    /// Nothing: the state or the piece is out, or the place is free.
    Empty,
    /// The state of a node.
    State(CachePadded<S>),
    /// A piece on the shelf.
    Piece(P),
}

/// What a pass knows. No value of it is made.
pub struct View<S, C, W> {
    /// False of a pass that is spent.
    pub active: bool,
    /// Of the first pass: the passes that were split off and not joined.
    pub count: u64,
    /// The greatest state number that it saw or raised.
    pub seen: u64,
    /// Of the first pass: the state word, if it is known since no other pass is out.
    pub exact: Option<u64>,
    /// The turn that it has.
    pub hold: Option<Hold<S>>,
    /// The place that it has in hand.
    pub place: Option<u64>,
    /// Of the first pass: the places that it knows to be empty.
    pub empties: LinkedList<u64>,
    /// What it did and saw.
    pub trace: LinkedList<Entry<C>>,
    /// What the passes that it joined did and saw.
    pub joined: LinkedList<Entry<C>>,
    /// What the caller's rule sees of it.
    pub client: W,
}

/// The rule of the table: that of the caller, and that the words and slots are as the views say.
pub struct Ruling<K> {
    keep: PhantomData<K>,
}

impl<K: Keep> TableRule<Slot<K::State, K::Piece>, View<K::State, K::Change, K::View>, K::About>
    for Ruling<K> {
    ghost use Rattle.sb_turn.specs.Turning.{Ruled, opening_view};

    ghost holds = { λ a. Ruled K.lines_of K.is_event K.idle (K.rule a) };

    ghost first = { λ a. opening_view (K.first a) };
}

/// The right to take steps, for one thread at a time. It has no bytes.
pub type Pass<K> = Seat<
    Slot<<K as Keep>::State, <K as Keep>::Piece>,
    View<<K as Keep>::State, <K as Keep>::Change, <K as Keep>::View>,
>;

/// A turn, with its node's state. It must be given to `leave`.
pub struct Guard<K: Keep> {
    /// The node.
    pub node: u32,
    /// The node's state, to read and to change.
    pub state: K::State,
    /// The state as the turn was entered. It takes no memory, and contracts alone read it.
    pub found: Snapshot<K::State>,
}

/// States, each under a turn of its own, and a shelf with 64 places.
#[derive(Drop)]
pub struct Turns<K: Keep> {
    pub(crate) table: Table<
        Slot<K::State, K::Piece>,
        View<K::State, K::Change, K::View>,
        K::About,
        Ruling<K>,
        Global,
    >,
    pub(crate) count: u32,
    pub(crate) room: Vec<K::State>,
    pub(crate) hints: Hints,
    ghost roomy: { (room.items ≡ []) × (count ≤ vec_capacity room) },
    ghost sized: { (table.shared.table_id.words ≡ count + 65) × (table.shared.table_id.slots ≡ count + 64) },
    ghost few: { count ≤ 13 },
}
