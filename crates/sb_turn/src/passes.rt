//! How passes are split off and joined.
ghost use Rattle.std.specs.Prelude.{◌≡◌, true, []};
ghost use Rattle.sb_turn.specs.Turning.{split_off, joined_with, opening_view};
ghost use Rattle.sb_turn.specs.Passes.{IsPassOf, IsFree, IsFirst, IsSamePass, seat_view};

use crate::keep::Keep;
use crate::plays::Cut;
use crate::turns::{Pass, Turns};

impl<K: Keep> Turns<K> {
    /// A pass for another thread, which knows and holds nothing yet. The first pass counts it until it is joined. The
    /// call waits for nobody and asks for no memory.
    pub fn split(&self, pass: &mut Pass<K>) -> Pass<K>
        requires pass { IsPassOf self.now pass.old × IsFirst pass.old × ((seat_view pass.old).active ≡ true) }
        ensures pass { IsSamePass pass.old pass.new × (pass.new.me ≡ (split_off (seat_view pass.old), pass.old.me.1)) }
        ensures other { IsPassOf self.now result × (result.me ≡ (opening_view K.idle, [])) }
    {
        self.table.shared.split_seat::<Cut<K>>(pass)
    }

    /// Takes a pass back that holds nothing. The first pass keeps what it did and saw, in a list of its own. The call
    /// waits for nobody and asks for no memory.
    pub fn join(&self, pass: &mut Pass<K>, other: Pass<K>)
        requires pass { IsPassOf self.now pass.old × IsFirst pass.old × ((seat_view pass.old).active ≡ true) }
        requires other { IsPassOf self.now other × IsFree other × ((seat_view other).client ≡ K.idle) }
        ensures pass { IsSamePass pass.old pass.new
            × (pass.new.me ≡ (joined_with (seat_view pass.old) (seat_view other), pass.old.me.1)) }
    {
        self.table.shared.join_seat::<Cut<K>>(pass, other);
    }
}
