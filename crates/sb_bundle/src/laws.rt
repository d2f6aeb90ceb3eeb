//! The limit of bundles as a number, and the laws of cutting, over any list of calls of a cutter. Each function has its
//! law for a contract, and does nothing.

ghost use Rattle.sb_bundle.specs.Laws as law;

/// A bundle has at most 65,536 records.
pub fn limits()
    ensures { law.Limits }
{}

/// The bundles given, joined, followed by the records held, are the records pushed, in order.
pub fn no_record_is_lost()
    ensures { law.NoRecordIsLost }
{}

/// The bundles of an epoch that has ended are its records, in order, cut into lengths of the cutter's size, the last
/// shorter.
pub fn ended_epochs_are_cut()
    ensures { law.EndedEpochsAreCut }
{}

/// The bundles of the epoch that has not ended have the cutter's size, and with the records held they are its records,
/// in order.
pub fn last_epoch_is_cut()
    ensures { law.LastEpochIsCut }
{}
