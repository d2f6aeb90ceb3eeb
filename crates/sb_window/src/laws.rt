//! The limits of windows as numbers, and the laws that every way of working out windows and aggregations rests on. Each
//! function has its law for a contract, and does nothing.

ghost use Rattle.std.specs.Prelude.{◌≡◌};
ghost use Rattle.sb_window.specs.Laws as law;
ghost use Rattle.sb_window.specs.Windows.{keyed_window_cmp};

use crate::keyed_window::KeyedWindow;

/// The greatest size of a window is 10^12, and a time lies in at most 64 windows.
pub fn limits()
    ensures { law.Limits }
{}

/// Keyed windows are ordered by end, then key.
pub fn keyed_windows_are_ordered()
    ensures { ⟦<KeyedWindow as Ord>⟧.cmp ≡ keyed_window_cmp }
{}

/// The ends of the windows of a time are as many as fit into a window's size; they rise, and each is a multiple of
/// `every` that is above the time, and at most a window's size above it.
pub fn window_ends_are_spaced()
    ensures { law.WindowEndsAreSpaced }
{}

/// Where an aggregation gives the same of values in another order, records in another order give the same rows.
pub fn rows_do_not_depend_on_order()
    ensures { law.RowsDoNotDependOnOrder }
{}

/// The rows of the windows that a watermark closes depend on the records with times below it alone.
pub fn closed_windows_depend_on_earlier_records()
    ensures { law.ClosedWindowsDependOnEarlierRecords }
{}

/// The sum of values is the same in every order.
pub fn sums_do_not_depend_on_order()
    ensures { law.SumsDoNotDependOnOrder }
{}
