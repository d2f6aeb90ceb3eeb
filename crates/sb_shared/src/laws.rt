//! What holds of a cascade between any two steps of its passes. Each function has its law for a contract, and does
//! nothing.

ghost use Rattle.sb_shared.specs.Laws as law;

/// Each leaving of a node is exactly one event of the core, or changes nothing that is shown.
pub fn each_leaving_is_one_event()
    ensures { law.EachLeavingIsOneEvent }
{}

/// A step that leaves no node changes nothing that is shown, and no diary: to enter a node, to lay a bundle on the
/// shelf or to claim one, to split a pass off or to join one, to raise the state word or to load it.
pub fn only_leavings_change_what_is_shown()
    ensures { law.OnlyLeavingsChangeWhatIsShown }
{}

/// Each bundle that was taken, and each closing that has begun, is in the hands of one pass or on one place of the
/// shelf.
pub fn each_is_held_once()
    ensures { law.EachIsHeldOnce }
{}
