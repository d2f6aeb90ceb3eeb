//! The laws of the engine, over every plan, every moment and every list of events. Each function has its law for a
//! contract, and does nothing.

ghost use Rattle.sb_core.specs.Laws as law;
ghost use Rattle.sb_core.specs.NewRows as rows;
ghost use Rattle.sb_core.specs.OneLane as lane;
ghost use Rattle.sb_core.specs.Parts as part;
ghost use Rattle.sb_core.specs.Rest as rest;

/// Each event whose condition holds keeps a moment sound, and exact for what was fed with what the event feeds.
pub fn events_keep_sound()
    ensures { law.EventsKeepSound }
{}

/// From the first moment of a plan every list of events leads to a sound moment that is exact for what was fed.
pub fn runs_are_sound()
    ensures { law.RunsAreSound }
{}

/// The rows of a sound and exact moment are the plan's rows below the watermark up to which the sink has closed,
/// whatever still comes.
pub fn rows_are_the_plans()
    ensures { law.RowsAreThePlans }
{}

/// Where each stream is sealed with the last watermark and no container is left, the rows are all of the plan's.
pub fn rows_are_all()
    ensures { law.RowsAreAll }
{}

/// The rows after every list of events from the first moment: those of the plan below the sink's watermark for every
/// continuation, and all of them at the end.
pub fn runs_give_the_rows()
    ensures { law.RunsGiveTheRows }
{}

/// What workers have in hand may stand in any order.
pub fn held_in_any_order()
    ensures { law.HeldInAnyOrder }
{}

/// An event of the bundle or closing at the head of what is held leaves there what becomes of it.
pub fn events_at_the_head()
    ensures { law.EventsAtTheHead }
{}

/// A bundle that is taken and a closing that begins may come to the head of what is held.
pub fn new_at_the_head()
    ensures { law.NewAtTheHead }
{}

/// An event changes one node, that of its place.
pub fn one_node_changes()
    ensures { law.OneNodeChanges }
{}

/// Where no lane of a node is closing, no closing of the node is held.
pub fn idle_by_its_lanes()
    ensures { law.IdleByItsLanes }
{}

/// An event that concerns nothing that is held does to a sound moment what it does to the part of its node.
pub fn parts_are_events()
    ensures { part.PartsAreEvents }
{}

/// So does an event of the bundle or closing at the head of what is held.
pub fn held_parts_are_events()
    ensures { part.HeldPartsAreEvents }
{}

/// The law of an event by the part of its node alone, where it concerns nothing that is held.
pub fn parts_keep_sound()
    ensures { part.PartsKeepSound }
{}

/// The law of an event of the bundle or closing at the head of what is held, by the part of its node alone.
pub fn held_parts_keep_sound()
    ensures { part.HeldPartsKeepSound }
{}

/// Each event whose condition holds is what it does to the part of its node: of its node alone, or of the bundle or
/// closing that it concerns as well.
pub fn events_are_parts()
    ensures { part.EventsAreParts }
{}

/// An event that concerns nothing that is held changes the lane of its place alone. Of these only a watermark adds to
/// the lane's marks.
pub fn one_lane_changes()
    ensures { lane.OneLaneChanges }
{}

/// So does an event of a bundle or closing. Of these only a closing that passes its watermark adds to the marks.
pub fn held_one_lane_changes()
    ensures { lane.HeldOneLaneChanges }
{}

/// The rows that an event adds have times from the watermark on up to which the sink had closed.
pub fn new_rows_are_later()
    ensures { rows.NewRowsAreLater }
{}

/// An event of a bundle or closing adds no rows.
pub fn held_add_no_rows()
    ensures { rows.HeldAddNoRows }
{}

/// With no work left the sink has closed up to the low watermark.
pub fn closes_low()
    ensures { rest.ClosesLow }
{}

/// So the rows are the plan's below the low watermark, whatever still comes.
pub fn rows_at_rest()
    ensures { rest.RowsAtRest }
{}

/// With each stream sealed with the last watermark and no work left, no container is left.
pub fn settles()
    ensures { rest.Settles }
{}

/// Then the rows are all of the plan's.
pub fn rows_at_the_end()
    ensures { rest.RowsAtTheEnd }
{}
