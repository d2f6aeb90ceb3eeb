//! Finding what workers have in hand.

ghost use Rattle.std.specs.Prelude.{◌≡◌, None, IfSome, IfNone};
ghost use Rattle.sb_core.specs.containers.Choices.{first_and_rest};
ghost use Rattle.sb_core.specs.Finding.{IsCloseAt, IsCloseOfAt, IsFirst, IsWorkAt};
ghost use Rattle.sb_core.specs.Moments as spec;

use sb_core::Held;
use sb_slow::Record;

/// Whether it is the bundle of this number.
fn is_work(held: &Held, of_node: u32, of_lane: u32, of_number: u64) -> bool
    ensures { result ≡ spec.is_work of_node of_lane of_number held.now }
{
    match held {
        Held::Work {
            node,
            lane,
            number,
            ..
        } => *node == of_node && *lane == of_lane && *number == of_number,
        Held::Close { .. } => false,
    }
}

/// Whether it is a closing of this node.
fn is_close(held: &Held, of_node: u32) -> bool
    ensures { result ≡ spec.is_close of_node held.now }
{
    match held {
        Held::Work { .. } => false,
        Held::Close { node, .. } => *node == of_node,
    }
}

/// Whether it is a closing of this node and lane.
fn is_close_of(held: &Held, of_node: u32, of_lane: u32) -> bool
    ensures { result ≡ spec.is_close_of of_node of_lane held.now }
{
    match held {
        Held::Work { .. } => false,
        Held::Close { node, lane, .. } => *node == of_node && *lane == of_lane,
    }
}

/// The place of the bundle of this number.
pub(crate) fn find_work(held: &[Held], node: u32, lane: u32, number: u64) -> Option<usize>
    ensures { IsFirst (spec.is_work node lane number) held.now result }
{
    held.iter().position(|h| is_work(h, node, lane, number))
}

/// The place of the closing of this node.
pub(crate) fn find_close(held: &[Held], node: u32) -> Option<usize>
    ensures { IsFirst (spec.is_close node) held.now result }
{
    held.iter().position(|h| is_close(h, node))
}

/// The place of the closing of this node and lane.
pub(crate) fn find_close_of(held: &[Held], node: u32, lane: u32) -> Option<usize>
    ensures { IsFirst (spec.is_close_of node lane) held.now result }
{
    held.iter().position(|h| is_close_of(h, node, lane))
}

/// A bundle that is in hand, where it stands.
#[derive(Drop)]
pub(crate) struct WorkAt<'a> {
    pub place: usize,
    pub epoch: u64,
    pub floor: u64,
    pub records: &'a [Record],
    pub delivered: bool,
}

/// The bundle of this number, if it is in hand.
pub(crate) fn work_at(
    held: &[Held],
    of_node: u32,
    of_lane: u32,
    of_number: u64,
) -> Option<WorkAt<'_>>
    ensures found { IfSome result (λ w.
        IsWorkAt of_node of_lane of_number held.now w.place w.epoch w.floor w.records.now w.delivered) }
    ensures none { IfNone result (first_and_rest (spec.is_work of_node of_lane of_number) held.now ≡ None) }
{
    let place = find_work(held, of_node, of_lane, of_number)?;
    match &held[place] {
        Held::Work {
            epoch,
            floor,
            records,
            delivered,
            ..
        } => Some(WorkAt {
            place,
            epoch: *epoch,
            floor: *floor,
            records: records.as_slice(),
            delivered: *delivered,
        }),
        Held::Close { .. } => None,
    }
}

/// A closing that is in hand, where it stands.
#[derive(Drop)]
pub(crate) struct CloseAt<'a> {
    pub place: usize,
    pub lane: u32,
    pub epoch: u64,
    pub serial: u64,
    pub floor: u64,
    pub mark: u64,
    pub rows: &'a [Record],
    pub passed: bool,
}

/// The closing of this node, if it is in hand.
pub(crate) fn close_at(held: &[Held], of_node: u32) -> Option<CloseAt<'_>>
    ensures found { IfSome result (λ c.
        IsCloseAt of_node held.now c.place c.lane c.epoch c.serial c.floor c.mark c.rows.now c.passed) }
    ensures none { IfNone result (first_and_rest (spec.is_close of_node) held.now ≡ None) }
{
    let place = find_close(held, of_node)?;
    match &held[place] {
        Held::Close {
            lane,
            epoch,
            serial,
            floor,
            mark,
            rows,
            passed,
            ..
        } => Some(CloseAt {
            place,
            lane: *lane,
            epoch: *epoch,
            serial: *serial,
            floor: *floor,
            mark: *mark,
            rows: rows.as_slice(),
            passed: *passed,
        }),
        Held::Work { .. } => None,
    }
}

/// The closing of this node and lane, if it is in hand.
pub(crate) fn close_of_at(held: &[Held], of_node: u32, of_lane: u32) -> Option<CloseAt<'_>>
    ensures found { IfSome result (λ c.
        IsCloseOfAt of_node of_lane held.now c.place c.epoch c.serial c.floor c.mark c.rows.now c.passed) }
    ensures none { IfNone result (first_and_rest (spec.is_close_of of_node of_lane) held.now ≡ None) }
{
    let place = find_close_of(held, of_node, of_lane)?;
    match &held[place] {
        Held::Close {
            lane,
            epoch,
            serial,
            floor,
            mark,
            rows,
            passed,
            ..
        } => Some(CloseAt {
            place,
            lane: *lane,
            epoch: *epoch,
            serial: *serial,
            floor: *floor,
            mark: *mark,
            rows: rows.as_slice(),
            passed: *passed,
        }),
        Held::Work { .. } => None,
    }
}
