//! What holds of each hand, for those who run it. Each function has its law for a contract, and does nothing.

ghost use Rattle.sb_hand.specs.HandLaws as law;
ghost use Rattle.sb_hand.specs.Limits as limit;

/// A stream has at most 1,024 bundles that wait or are out.
pub fn limits()
    ensures { limit.Limits }
{}

/// Where each node is idle, the moment that a hand shows is at rest.
pub fn idle_is_rest()
    ensures { law.IdleIsRest }
{}

/// Then no bundle waits or is out in any lane.
pub fn idle_is_finished()
    ensures { law.IdleIsFinished }
{}

/// The events of a bundle that is worked off feed nothing.
pub fn bundles_feed_nothing()
    ensures { law.BundlesFeedNothing }
{}

/// Nor do the events of a whole closing.
pub fn closings_feed_nothing()
    ensures { law.ClosingsFeedNothing }
{}

/// The moment that a hand shows has the lane that takes a stream.
pub fn shows_sources()
    ensures { law.ShowsSources }
{}

/// Each stream that the plan uses is taken, by the lane of its place.
pub fn takes_sources()
    ensures { law.TakesSources }
{}

/// Each transform and the sink has its lanes.
pub fn has_its_lanes()
    ensures { law.HasItsLanes }
{}

/// If the moment that a hand shows is done, the hand is settled.
pub fn done_is_empty()
    ensures { law.DoneIsEmpty }
{}
