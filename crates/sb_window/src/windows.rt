//! Windows of event time: their size, and how far apart they are.
//!
//! A window is named by its end. The windows of a time are the multiples of `every` above the time, up to `size` above
//! it: `size / every` of them. Fixed windows have `every` equal to `size`. A watermark closes the windows that end at
//! or before it: no record still to come lies in them.

ghost use Rattle.std.specs.Prelude.{◌≡◌, ◌<◌, IfOk};
ghost use Rattle.sb_window.specs.Spacing.{AreWindows};
ghost use Rattle.sb_window.specs.Windows as spec;

use crate::ends::Ends;
use sb_record::END_MARK;
use std::marker::Model;

/// The greatest size of a window, in the unit of the times of records.
pub const MAX_SIZE: u64 = 1_000_000_000_000;

/// In how many windows a time may lie.
pub const MAX_WINDOWS_OF_A_TIME: u64 = 64;

/// Why there are no such windows: the first that is wrong.
#[derive(Clone, Copy, Debug, PartialEq, Eq)]
pub enum BadWindow {
    /// The size is not 1 to 10^12.
    Size,
    /// `every` is 0, does not divide the size, or is less than its 64th part.
    Every,
}

/// Windows of one size, an equal stretch of time apart.
#[derive(Clone, Copy, Debug, PartialEq, Eq)]
pub struct Windows {
    size: u64,
    every: u64,
}

impl Model for Windows {
    ghost use Rattle.sb_window.specs.Spacing.{Spacing, AreWindows};

    ghost Value = { Spacing };

    ghost view = { λ s. record { size = s.size; every = s.every } };

    ghost invariant = { λ s. AreWindows (record { size = s.size; every = s.every }) };

    ghost inverse = { λ w. record { size = w.size; every = w.every } };
}

impl Windows {
    /// Windows of a size from 1 to 10^12, one for each multiple of `every`, which divides the size into at most 64
    /// parts.
    pub fn new(size: u64, every: u64) -> Result<Windows, BadWindow>
        ensures value { result ≡ spec.spacing_of size every }
        ensures sound { IfOk result AreWindows }
    {
        if size == 0 || size > MAX_SIZE {
            return Err(BadWindow::Size);
        }
        if every == 0 || size % every != 0 || size / every > MAX_WINDOWS_OF_A_TIME {
            return Err(BadWindow::Every);
        }
        Ok(Windows { size, every })
    }

    /// How long each window is.
    pub fn size(&self) -> u64
        ensures value { result ≡ self.now.size }
        ensures sound { AreWindows self.now }
    {
        self.size
    }

    /// How far apart the ends of the windows are.
    pub fn every(&self) -> u64
        ensures value { result ≡ self.now.every }
        ensures sound { AreWindows self.now }
    {
        self.every
    }

    /// The ends of the windows of a time, which is below [`END_MARK`], least first. It takes no memory.
    pub fn ends(&self, time: u64) -> Ends
        requires { time < END_MARK }
        ensures { result ≡ spec.window_ends self.now time }
    {
        let first = time - time % self.every + self.every;
        Ends::new(first, self.every, self.size / self.every)
    }
}
