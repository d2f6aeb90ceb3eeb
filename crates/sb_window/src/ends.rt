//! The ends of the windows of a time, one after another.

ghost use Rattle.std.specs.Prelude.{◌≡◌, ◌+◌, ◌*◌, ◌^◌, ◌<◌};
ghost use Rattle.std.specs.Iterator.{YieldsFirst, item_count};
ghost use Rattle.sb_window.specs.Progressions.{progression};

use std::marker::Model;

/// The ends of the windows of a time, least first.
#[derive(Drop)]
pub struct Ends {
    next: u64,
    every: u64,
    left: u64,
}

impl Model for Ends {
    ghost use Rattle.std.specs.Prelude.{ℕ, List, ◌+◌, ◌*◌, ◌^◌, ◌<◌};
    ghost use Rattle.sb_window.specs.Progressions.{progression};

    ghost Value = { List ℕ };

    ghost view = { λ s. progression s.next s.every s.left };

    ghost invariant = { λ s. s.next + s.left * s.every < 2 ^ 64 };
}

impl Ends {
    /// So many ends from the first on, each `every` after the one before.
    pub(crate) fn new(first: u64, every: u64, count: u64) -> Ends
        requires { first + count * every < 2 ^ 64 }
        ensures { result ≡ progression first every count }
    {
        Ends {
            next: first,
            every,
            left: count,
        }
    }
}

impl Iterator for Ends {
    type Item = u64;

    ghost next_gives = { YieldsFirst (λ s. s) };

    ghost remaining = { item_count (λ s. s) };

    fn next(&mut self) -> Option<u64> {
        if self.left == 0 {
            return None;
        }
        let end = self.next;
        self.next += self.every;
        self.left -= 1;
        Some(end)
    }
}
