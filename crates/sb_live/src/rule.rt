//! What the writer and the readers know, and how it is tied to the table.

ghost use Rattle.std.specs.Prelude.{[]};
ghost use Rattle.sb_live.specs.Following.{Follows, Sees};

use crate::change::Change;
use crate::table::Table;
use atomic_table::{Join, Split};
use crossbeam_utils::rule::{Outcome, Protocol};

/// The list of one end, the writer or a reader. No value of it is made, and a clause reads an array as a list of any
/// length.
pub type Known = [Change; 0];

/// Each list begins the changes that the table was made of.
pub struct Follow;

impl Protocol<Table, Known> for Follow {
    ghost holds = { λ table. Follows table.changes };

    ghost first = { [] };
}

/// An end now has the list of the table.
pub struct See;

impl Outcome<Table, Known> for See {
    ghost then = { λ known _ table. Sees known table.changes };
}

/// The writer tells its list, and keeps it.
pub struct Told;

impl Split<Known> for Told {
    ghost left = { λ known. known };

    ghost right = { λ known. known };
}

/// A reader takes the list that it is told.
pub struct Taken;

impl Join<Known> for Taken {
    ghost both = { λ _ told. told };

    ghost spent = { [] };
}
