//! Engines: what takes bundles and watermarks, and gives rows.

ghost use Rattle.std.specs.Prelude.{◌≡◌, ◌<◌, ◌++◌, ℕ, List, All, IfOk};
ghost use Rattle.sb_base.specs.records.declared.item.Record.{Record as ARecord};
ghost use Rattle.sb_base.specs.pipeline.Shapes.{Shape};
ghost use Rattle.sb_feed.specs.Feeds.{AreRowsSoFar, Fed, MayArrive, MaySeal, with_bundle, with_mark};

use sb_base::{Bundle, END_MARK, NoMemory, Plan, Record, Stream};

/// What takes the bundles and the watermarks of an input, and gives the rows of a plan.
///
/// Contracts see an engine by what it was fed and what it has given (`stands`), by its plan and the most records of a
/// bundle (`size`), and by what stays as it is from call to call (`same`).
pub trait Engine {
    // it was fed this, and has given these rows
    ghost stands: { Self → Fed → List ARecord → Type 0 };

    // the second is the first after some calls
    ghost same: { Self → Self → Type 0 };

    ghost plan: { Self → Shape };

    ghost size: { Self → ℕ };

    /// The plan that it runs.
    fn plan(&self) -> &Plan
        ensures { result.now ≡ plan self.now };

    /// A bundle of a stream comes: the rows that can be given then.
    ///
    /// # Errors
    ///
    /// [`NoMemory`]; then nothing is known of the engine.
    fn arrive(&mut self, stream: Stream, bundle: Bundle) -> Result<Vec<Record>, NoMemory>
        requires may { (f : Fed) × (rows : List ARecord) × stands self.old f rows
            × MayArrive (plan self.old) (size self.old) f stream bundle }
        ensures same { same self.old self.new }
        ensures gives { (f : Fed) (rows : List ARecord) → stands self.old f rows
            → MayArrive (plan self.old) (size self.old) f stream bundle
            → IfOk result (λ due. stands self.new (with_bundle stream bundle f) (rows ++ due.items)) }
        ensures times { IfOk result (λ due. All (λ r. r.time < END_MARK) due.items) };

    /// A watermark of a stream comes: the rows that can be given then.
    ///
    /// # Errors
    ///
    /// [`NoMemory`]; then nothing is known of the engine.
    fn seal(&mut self, stream: Stream, mark: u64) -> Result<Vec<Record>, NoMemory>
        requires may { (f : Fed) × (rows : List ARecord) × stands self.old f rows
            × MaySeal (plan self.old) f stream mark }
        ensures same { same self.old self.new }
        ensures gives { (f : Fed) (rows : List ARecord) → stands self.old f rows
            → MaySeal (plan self.old) f stream mark
            → IfOk result (λ due. stands self.new (with_mark stream mark f) (rows ++ due.items)) }
        ensures times { IfOk result (λ due. All (λ r. r.time < END_MARK) due.items) };

    // what it has given are the first rows of the plan
    ghost so_far: { (e : Self) (f : Fed) (rows : List ARecord) → stands e f rows → AreRowsSoFar (plan e) f rows };

    ghost same_here: { (e : Self) (f : Fed) (rows : List ARecord) → stands e f rows → same e e };

    ghost same_then: { (a b c : Self) → same a b → same b c → same a c };

    ghost same_plan: { (a b : Self) → same a b → plan b ≡ plan a };

    ghost same_size: { (a b : Self) → same a b → size b ≡ size a };
}
