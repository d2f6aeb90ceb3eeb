//! How entries of runs are kept, compared, joined and copied.

ghost use Rattle.std.specs.Prelude.{◌≡◌, ◌+◌, ◌^◌, ◌<◌, OnOk, IfOk};
ghost use Rattle.sb_window.specs.Windows.{keyed_window_cmp};
ghost use Rattle.sb_runs.specs.Runs.{later_entry};

use sb_window::{KeyedWindow, NoMemory};
use std::cmp::Ordering;

/// Keeps a keyed window with its value in a form of its own, joins the values of a window into one, and copies entries.
///
/// Entries are moved often, as runs are merged: so one that knows of its windows and values that they are small keeps
/// them in few bytes.
pub trait Joiner {
    /// A keyed window with its value, as they are kept.
    type Entry: Drop;

    /// What contracts see of the values.
    type Value: Drop;

    ghost use Rattle.sb_window.specs.declared.keyed_window.KeyedWindow.{KeyedWindow as Window};

    // the keyed window and the value of an entry
    ghost seen: { Self.Entry → Window × Self.Value };

    // what is made of a value and of one that comes after it
    ghost joined: { Self → Self.Value → Self.Value → Self.Value };

    /// Where the window of an entry ends.
    fn end(entry: &Self::Entry) -> u64
        ensures { result ≡ (seen entry.now).0.end };

    /// How the keyed windows of two entries compare: by end, then key.
    fn compare(one: &Self::Entry, other: &Self::Entry) -> Ordering
        ensures { result ≡ keyed_window_cmp (seen one.now).0 (seen other.now).0 };

    /// Joins to the value of an entry that of one that comes after it. The keyed window stays.
    ///
    /// # Errors
    ///
    /// [`NoMemory`]; both are lost then.
    fn join(&self, entry: &mut Self::Entry, later: Self::Entry) -> Result<(), NoMemory>
        ensures { OnOk result (seen entry.new
            ≡ ((seen entry.old).0, joined self.now (seen entry.old).1 (seen later).1)) };

    /// A copy of an entry, with a window that ends so much later.
    ///
    /// # Errors
    ///
    /// [`NoMemory`].
    fn later(&self, entry: &Self::Entry, by: u64) -> Result<Self::Entry, NoMemory>
        requires { (seen entry.now).0.end + by < 2 ^ 64 }
        ensures { IfOk result (λ copy. seen copy ≡ later_entry by (seen entry.now)) };
}

/// How two keyed windows compare: by end, then key.
#[inline(always)]
pub fn compare_windows(one: &KeyedWindow, other: &KeyedWindow) -> Ordering
    ensures { result ≡ keyed_window_cmp one.now other.now }
{
    if one.end != other.end {
        return one.end.cmp(&other.end);
    }
    one.key.cmp(&other.key)
}

/// The keyed window that ends so much later.
pub fn later_window(window: &KeyedWindow, by: u64) -> KeyedWindow
    requires { window.now.end + by < 2 ^ 64 }
    ensures { result ≡ record { end = window.now.end + by; key = window.now.key } }
{
    KeyedWindow {
        end: window.end + by,
        key: window.key,
    }
}
