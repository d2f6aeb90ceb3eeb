//! What is left of a bundle in hand once it is processed.

ghost use Rattle.std.specs.Prelude.{◌≡◌};

use crate::claim::Claim;
use std::marker::Model;
use std::snapshot::Snapshot;

/// What is left of a claim once [`process`](crate::process) has taken its records: enough to deliver what they gave,
/// and to finish the bundle. Contracts see it as the claim that it stands for.
#[derive(Drop)]
pub struct Receipt {
    node: u32,
    lane: u32,
    number: u64,
    epoch: u64,
    floor: u64,
    claim: Snapshot<Claim>,
}

impl Model for Receipt {
    ghost use Rattle.sb_work.specs.declared.claim.Claim.{Claim as AClaim};
    ghost use Rattle.sb_work.specs.Receipts.{IsReceiptOf};

    ghost Value = { AClaim };

    ghost view = { λ r. r.claim.value };

    ghost invariant = { λ r. IsReceiptOf r.claim.value r.node r.lane r.number r.epoch r.floor };
}

impl Receipt {
    /// What is left of this claim without its records.
    pub(crate) fn of(claim: &Claim) -> Receipt
        ensures { result ≡ claim.now }
    {
        Receipt {
            node: claim.node,
            lane: claim.lane,
            number: claim.bundle.number,
            epoch: claim.bundle.epoch,
            floor: claim.bundle.floor,
            claim: Snapshot::of(claim),
        }
    }

    /// The node: a transform, or the sink after them.
    pub fn node(&self) -> u32
        ensures { result ≡ self.now.node }
    {
        self.node
    }

    /// The lane of the node where the bundle waited.
    pub fn lane(&self) -> u32
        ensures { result ≡ self.now.lane }
    {
        self.lane
    }

    /// The number that the lane gave the bundle.
    pub fn number(&self) -> u64
        ensures { result ≡ self.now.bundle.number }
    {
        self.number
    }

    /// How many watermarks stood before the records of the bundle.
    pub fn epoch(&self) -> u64
        ensures { result ≡ self.now.bundle.epoch }
    {
        self.epoch
    }

    /// The watermark before the epoch of the bundle.
    pub fn floor(&self) -> u64
        ensures { result ≡ self.now.bundle.floor }
    {
        self.floor
    }
}
