//! A tap that writes the first rows.

ghost use Rattle.std.specs.Prelude.{◌≡◌, ◌<◌, ◌≤◌, ◌%◌, ◌^◌, [], ◌∷◌, ◌++◌, length, nat_le, not};
ghost use Rattle.sb_record.specs.Rows.{row_text};
ghost use Rattle.sb_outside.specs.Sinks.{WritesAll};
ghost use Rattle.sb_emit.specs.Taps.{Answers, wish_of};
ghost use Rattle.sb_emit.specs.TapKinds.{head_state, tap_fault_of};

use crate::seen_rows::SeenRows;
use crate::tap::{Tap, TapFault, Wish};
use sb_outside::{Sink, SinkFault};
use sb_record::{END_MARK, Record, row_bytes};
use std::marker::Model;

// What a sink refused, as a tap.
fn refusal_of(fault: SinkFault) -> TapFault
    ensures { result ≡ tap_fault_of fault }
{
    match fault {
        SinkFault::Failed => TapFault::Failed,
        SinkFault::Memory => TapFault::Memory,
    }
}

// How many rows are enough, and those that were seen.
#[derive(Drop)]
struct Head {
    most: u32,
    full: bool,
    seen: SeenRows,
}

impl Model for Head {
    ghost use Rattle.std.specs.Prelude.{◌≡◌, nat_le, length};
    ghost use Rattle.sb_emit.specs.TapKinds.{HeadRows};

    ghost Value = { HeadRows };

    ghost view = { λ h. record { most = h.most; seen = h.seen } };

    ghost invariant = { λ h. h.full ≡ nat_le h.most (length h.seen) };
}

impl Head {
    // Sees one row more: whether more are wanted.
    fn see(&mut self, row: &Record) -> Wish
        ensures seen { self.new ≡ record { most = self.old.most; seen = self.old.seen ++ row.now ∷ [] } }
        ensures wish { result ≡ wish_of (not (nat_le self.old.most (length (self.old.seen ++ row.now ∷ [])))) }
    {
        self.seen.add(row);
        if self.seen.count() >= u64::from(self.most) {
            self.full = true;
        }
        if self.full { Wish::Enough } else { Wish::More }
    }
}

/// Writes each row that it sees to a sink, and has enough from the row on whose number, from 1, is `most`.
///
/// A row that the sink refused may have been written in part.
#[derive(Drop)]
pub struct HeadTap<K> {
    sink: K,
    head: Head,
}

impl<K> Model for HeadTap<K> {
    ghost use Rattle.sb_emit.specs.TapKinds.{Heading};

    ghost Value = { Heading K };

    ghost view = { λ t. record { sink = t.sink; head = t.head } };
}

impl<K: Sink> HeadTap<K> {
    /// A tap that has enough of `most` rows, at least one.
    pub fn new(most: u32, sink: K) -> HeadTap<K>
        requires { 1 ≤ most }
        ensures { result ≡ record { sink = sink; head = record { most = most; seen = [] } } }
    {
        let head = Head {
            most,
            full: false,
            seen: SeenRows::new(),
        };
        HeadTap { sink, head }
    }

    /// The sink, which has taken the rows that were seen.
    pub fn into_sink(self) -> K
        ensures { result ≡ self.sink }
    {
        self.sink
    }
}

impl<K: Sink + Drop> Tap for HeadTap<K> {
    ghost tap_state = { λ t. head_state t.head (K.sink_state t.sink) };

    fn row(&mut self, row: &Record) -> Result<Wish, TapFault>
        requires { row.now.time < END_MARK }
        ensures answers { Answers row.now
            (head_state self.old.head (K.sink_state self.old.sink))
            (head_state self.new.head (K.sink_state self.new.sink)) result }
        ensures most { self.new.head.most ≡ self.old.head.most }
        ensures bytes { WritesAll (K.taken self.old.sink) (K.taken self.new.sink) (row_text row.now) result }
    {
        let text = row_bytes(row);
        let bytes = text.as_slice();
        let mut written = 0usize;
        'writes: while written < bytes.len() {
            match self.sink.write(&bytes[written..]) {
                Ok(taken) => written += taken,
                Err(fault) => return Err(refusal_of(fault)),
            }
        }
        Ok(self.head.see(row))
    }

    fn seen(&self) -> u64
        ensures { result ≡ length self.now.head.seen % 2 ^ 64 }
    {
        self.head.seen.count()
    }
}
