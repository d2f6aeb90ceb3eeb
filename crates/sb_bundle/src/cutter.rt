//! The cutter, which makes bundles of the records of a stream.

ghost use Rattle.std.specs.Prelude.{◌≡◌, ◌≤◌, ◌<◌, length, IfOk, OnErr, IfSome};
ghost use Rattle.sb_bundle.specs.Bundles.{IsBundleOf};
ghost use Rattle.sb_bundle.specs.Cuts as spec;

use crate::bundle::{Bundle, MAX_BUNDLE};
use sb_record::{NoMemory, Record, Sequence};
use std::alloc::Global;
use std::marker::Model;
use std::mem;

/// Cuts the epochs of a stream into bundles of a fixed size. It holds the records that fill no bundle yet, and asks
/// for memory as they come.
#[derive(Drop)]
pub struct Cutter {
    alloc: Global,
    size: u32,
    epoch: u64,
    floor: u64,
    held: Vec<Record>,
    /// How many records the last bundle had: the next is given room for as many at once.
    room: usize,
}

impl Model for Cutter {
    ghost use Rattle.sb_bundle.specs.Cutting.{Cutting, IsCutting};

    ghost Value = { Cutting };

    ghost view = { λ s. record {
      size = s.size;
      epoch = s.epoch;
      floor = s.floor;
      held = s.held.items;
    } };

    ghost invariant = { λ s. IsCutting (record {
      size = s.size;
      epoch = s.epoch;
      floor = s.floor;
      held = s.held.items;
    }) };
}

impl Cutter {
    /// A cutter before the first record of a stream, for bundles of so many records, 1 to 65,536.
    pub fn new(alloc: Global, size: u32) -> Cutter
        requires some { 1 ≤ size }
        requires most { size ≤ MAX_BUNDLE }
        ensures { result ≡ spec.first_cutting size }
    {
        Cutter {
            alloc,
            size,
            epoch: 0,
            floor: 0,
            held: Vec::new(alloc),
            room: 0,
        }
    }

    /// How many watermarks there were.
    pub fn epoch(&self) -> u64
        ensures { result ≡ self.now.epoch }
    {
        self.epoch
    }

    /// The last watermark, 0 before the first.
    pub fn floor(&self) -> u64
        ensures { result ≡ self.now.floor }
    {
        self.floor
    }

    /// How many records are held: fewer than fill a bundle.
    pub fn held(&self) -> usize
        ensures value { result ≡ length self.now.held }
        ensures fewer { result < self.now.size }
    {
        self.held.len()
    }

    // Room for a bundle like the last one. If there is no memory for so many records, it is asked for as they come.
    #[inline(never)]
    fn make_room(&mut self)
        ensures { self.new ≡ self.old }
    {
        let _ = self.held.reserve_exact(self.room);
    }

    /// Takes the next record, whose time is not below the floor. Where it fills a bundle, this is given, and nothing is
    /// held. Where memory is wanting, the record is not taken.
    #[inline(always)]
    pub fn push(&mut self, next: Record) -> Result<Option<Bundle>, NoMemory>
        requires { self.old.floor ≤ next.time }
        ensures given { IfOk result (λ given. given ≡ spec.given_with next self.old) }
        ensures after { IfOk result (λ _. self.new ≡ spec.after_record next self.old) }
        ensures sound { IfOk result (λ given. IfSome given (IsBundleOf self.old)) }
        ensures err { OnErr result (self.new ≡ self.old) }
    {
        if self.held.is_empty() {
            self.make_room();
        }
        let Ok(()) = self.held.push(Record { ..next }) else {
            return Err(NoMemory);
        };
        if self.held.len() < self.size as usize {
            return Ok(None);
        }
        let records = mem::replace(&mut self.held, Vec::new(self.alloc));
        self.room = records.len();
        Ok(Some(Bundle {
            number: 0,
            epoch: self.epoch,
            floor: self.floor,
            records: Sequence::new(records),
        }))
    }

    /// Takes a watermark, which is not below the floor: it ends the epoch and is the floor of the next. What is held is
    /// given as the epoch's last bundle, where there is anything. It takes no memory.
    pub fn mark(&mut self, mark: u64) -> Option<Bundle>
        requires rising { self.old.floor ≤ mark }
        requires countable { self.old.epoch < u64.MAX }
        ensures given { result ≡ spec.given_at_mark self.old }
        ensures after { self.new ≡ spec.after_mark mark self.old }
        ensures sound { IfSome result (IsBundleOf self.old) }
    {
        let rest = mem::replace(&mut self.held, Vec::new(self.alloc));
        let (epoch, floor) = (self.epoch, self.floor);
        self.epoch += 1;
        self.floor = mark;
        if rest.is_empty() {
            return None;
        }
        self.room = rest.len();
        Some(Bundle {
            number: 0,
            epoch,
            floor,
            records: Sequence::new(rest),
        })
    }
}
