//! The state word's meanings.
ghost use Rattle.std.specs.Prelude.{◌≡◌, ◌≤◌};
ghost use Rattle.sb_turn.specs.Reasons.{number_of};

/// Whether the work goes on, or why it ends. The later stands above the earlier.
#[derive(Clone, Copy, PartialEq, Eq, Debug)]
pub enum Reason {
    /// It goes on.
    Running,
    /// The input ended.
    Ended,
    /// Something outside failed.
    Fault,
    /// There was no memory.
    Memory,
}

/// The number of a reason in the state word, 0 to 3.
pub(crate) fn number(reason: Reason) -> u64
    ensures { (result ≡ number_of reason) × (result ≤ 3) }
{
    match reason {
        Reason::Running => 0,
        Reason::Ended => 1,
        Reason::Fault => 2,
        Reason::Memory => 3,
    }
}

/// The reason of a number of the state word.
pub(crate) fn reason_of(number: u64) -> Reason
    requires { number ≤ 3 }
    ensures { number_of result ≡ number }
{
    match number {
        0 => Reason::Running,
        1 => Reason::Ended,
        2 => Reason::Fault,
        _ => Reason::Memory,
    }
}
