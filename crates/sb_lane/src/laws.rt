//! The laws of lanes. The contracts of a lane say what becomes of it by functions on the core's lanes; these laws say
//! that such changes keep the order of containers and watermarks, and that they are changes of the core. Each function
//! has its law for a contract, and does nothing.

ghost use Rattle.sb_lane.specs.Laws as law;

/// A bundle that comes keeps a lane in order, if its floor fits its epoch and its times lie from there on.
pub fn arrivals_keep_order()
    ensures { law.ArrivalsKeepOrder }
{}

/// The floor of the next epoch fits it.
pub fn next_epoch_fits()
    ensures { law.NextEpochFits }
{}

/// A container that is made keeps a lane in order, if its floor fits its epoch.
pub fn places_keep_order()
    ensures { law.PlacesKeepOrder }
{}

/// A watermark keeps a lane in order, if it fits the next epoch.
pub fn seals_keep_order()
    ensures { law.SealsKeepOrder }
{}

/// Taking a bundle keeps a lane in order.
pub fn takes_keep_order()
    ensures { law.TakesKeepOrder }
{}

/// Finishing a bundle keeps a lane in order.
pub fn finishes_keep_order()
    ensures { law.FinishesKeepOrder }
{}

/// A closing that begins keeps a lane in order.
pub fn begins_keep_order()
    ensures { law.BeginsKeepOrder }
{}

/// In a lane in order a container that is closing is of a sealed epoch, and its end keeps the order.
pub fn ends_keep_order()
    ensures { law.EndsKeepOrder }
{}

/// The bundle that a lane gives is the one that the core takes by its number.
pub fn takes_are_the_cores()
    ensures { law.TakesAreTheCores }
{}

/// In a lane in order a bundle is finished as in the core.
pub fn finishes_are_the_cores()
    ensures { law.FinishesAreTheCores }
{}

/// In a lane in order a closing that can begin is that of the first epoch that has not ended, and the core lets it
/// begin.
pub fn closings_are_the_cores()
    ensures { law.ClosingsAreTheCores }
{}
