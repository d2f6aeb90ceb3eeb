//! A list that clauses alone see.

ghost use Rattle.std.specs.Prelude.{◌≡◌, [], ◌∷◌, ◌++◌};

use std::marker::Model;
use std::snapshot::Snapshot;

/// A list that contracts see whole, and of which only the last entry is there when the program runs: it takes the room
/// of one entry, however long the list is. So an engine that runs for weeks can state what it did and keep none of it.
#[derive(Drop)]
#[cycle(trail)]
pub struct Trail<T> {
    link: Link<T>,
}

// The end of a list, and what stood before it, which has no bytes.
#[derive(Drop)]
#[cycle(trail)]
enum Link<T> {
    Start,
    More(Snapshot<Trail<T>>, T),
}

impl<T> Model for Trail<T> {
    ghost use Rattle.std.specs.Prelude.{List, length};

    ghost Value = { List T };

    ghost use Rattle.sb_record.specs.Trails.{entries};

    ghost view = { λ t. entries t.link };

    ghost size = { length };

    ghost use Rattle.std.proofs.Common.{arith, length-append};

    ghost size_decreases = { λ a h. Prim.grind (arith, length-append) };
}

impl<T> Trail<T> {
    /// The list without entries.
    pub fn start() -> Trail<T>
        ensures { result ≡ [] }
    {
        Trail { link: Link::Start }
    }

    /// The list with one entry more. It takes no memory.
    pub fn with(&self, entry: T) -> Trail<T>
        ensures { result ≡ self.now ++ entry ∷ [] }
    {
        Trail {
            link: Link::More(Snapshot::of(self), entry),
        }
    }
}
