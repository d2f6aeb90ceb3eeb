//! What a caller keeps under the turns and on the shelf, and the rule that it wants kept.
ghost use Rattle.std.specs.Prelude.{◌≡◌, ℕ, Bool, List, Option, [], ◌∷◌, ◌++◌};
ghost use Rattle.sb_turn.specs.Facts.{Finds, Fits};

use std::marker::Brand;

/// The most lines of a state, 2^60: twice as many, and one more, fit into its turn's word.
pub const MAX_STATE_LINES: u64 = 1_152_921_504_606_846_976;

/// What lies under the turns and on the shelf, and the rule over it.
///
/// The rule is a fact about the pieces on the shelf, the state word, the states as they were last left, the events of
/// each node and what each pass knows. It holds between any two steps of any threads. A caller owes at each call that
/// changes something that the rule stays; what a caller may rely on, the rule has to give (`finds`, `fits`).
///
/// No value of `View` is made: contracts alone speak of it.
pub trait Keep {
    /// What lies under a turn.
    type State: Drop;

    /// What lies on the shelf.
    type Piece: Drop;

    /// What a leaving does. It may be an event, which adds a line to the state.
    type Change: Drop;

    /// What the rule sees of a pass: what the pass knows.
    type View;

    /// What the rule must know and no state tells. `new` borrows one value of it.
    type About;

    /// The number of lines of a state, at most 2^60.
    ghost lines_of: { Self.State → ℕ };

    /// Whether a change is an event.
    ghost is_event: { Self.Change → Bool };

    /// What the first pass knows at first.
    ghost first: { Self.About → Self.View };

    /// What a pass knows that was split off, and one that is spent.
    ghost idle: { Self.View };

    /// What a pass knows after it left a node with a change.
    ghost after: { Self.View → ℕ → Self.Change → Self.View };

    /// What a pass knows after it laid a piece on the shelf.
    ghost laid: { Self.View → Self.Piece → Self.View };

    /// What a pass knows after it took a piece off the shelf.
    ghost claimed: { Self.View → Self.Piece → Self.View };

    /// What a pass knows after it raised the state word.
    ghost told: { Self.View → ℕ → Self.View };

    /// The rule, of the places of the shelf, the state word, the state of each node as it was last left, the events of
    /// each node and what each pass knows.
    ghost rule: { Self.About → List (Option Self.Piece) → ℕ
        → List Self.State → List (List Self.Change) → List Self.View → Type 0 };

    /// Which change a pass that knows this may tell as it leaves a node: of the node, the state that it found there and
    /// the state that goes home. What a trace tells of a leaving without an event rests on this alone, since such a
    /// change is nothing that the rule sees.
    ghost allows: { Self.About → Self.View → ℕ → Self.State → Self.State → Self.Change → Type 0 };

    /// What a pass that knows this may rely on of the state of a node, as it enters.
    ghost finds: { Self.About → Self.View → ℕ → Self.State → Type 0 };

    /// What a pass may rely on of a piece that it claims.
    ghost fits: { Self.About → Self.Piece → Type 0 };

    /// The number of lines of a state.
    fn lines(state: &Self::State) -> u64
        ensures { result ≡ lines_of state.now };

    /// A new pass breaks nothing.
    ghost splits: { (a : Self.About) (shelf : List (Option Self.Piece)) (n : ℕ) (states : List Self.State)
        (logs : List (List Self.Change)) (views : List Self.View)
        → rule a shelf n states logs views → rule a shelf n states logs (views ++ idle ∷ []) };

    /// The rule gives what a pass may rely on as it enters.
    ghost found: { (a : Self.About) → Finds (rule a) (finds a) };

    /// The rule gives what a pass may rely on of a piece.
    ghost fitting: { (a : Self.About) → Fits (rule a) (fits a) };
}

/// A fact that a look at the state word tells a pass, of what it knows. The rule has to give it.
pub trait Lesson<W> {
    /// The fact.
    ghost fact: { W → Type 0 };
}

/// A call that must know a value to say its fact names `Brand`, and gives the fact by its ghost arguments.
impl<W> Lesson<W> for Brand {
    ghost fact = { λ _. Unit {0} };
}
