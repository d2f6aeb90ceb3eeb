//! Laws of rings. The function has its law for a contract, and does nothing.

ghost use Rattle.sb_feeds.specs.Laws as law;

/// A ring has 256 places.
pub fn limits()
    ensures { law.Limits }
{}
