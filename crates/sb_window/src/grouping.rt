//! Groupings: what gathers records into windows or sessions, part by part, and gives rows as watermarks close them.

ghost use Rattle.std.specs.Prelude.{◌≡◌, ℕ, ◌≤◌, List, true, OnOk, OnErr, IfOk};
ghost use Rattle.sb_record.specs.declared.element.KeptRec.{KeptRec};
ghost use Rattle.sb_record.specs.declared.item.Record.{Record as ARecord};
ghost use Rattle.sb_record.specs.Reorderings.{IsReordered};
ghost use Rattle.sb_window.specs.Groupings.{IsFrom, Adds, Closes};

use sb_record::{NoMemory, Record};

/// What gathers the elements that a node takes (records on its lanes) and gives rows as watermarks close them. It keeps
/// partial results, merged part by part, so that workers can make the parts side by side and in any order.
///
/// Contracts see a grouping by what it would give (`gives`): the rows if some further elements were absorbed and
/// everything was closed. A part stands for elements (`stands`): those that it was made of.
pub trait Grouping {
    /// What is made of a bundle outside of any turn, and absorbed as a whole.
    type Part: Drop;

    // no memory was found in an earlier call, so the content is unknown
    ghost spent: { Self → Type 0 };

    // the watermark of the last closing, 0 before the first
    ghost closed: { Self → ℕ };

    // the rows, from the closed mark on, of what was absorbed and of these elements
    ghost gives: { Self → List KeptRec → List ARecord };

    // the part was made for a grouping like this
    ghost fits: { Self → Self.Part → Type 0 };

    // the part was made of these elements, in any order
    ghost stands: { Self.Part → List KeptRec → Type 0 };

    /// Whether an earlier call found no memory. From then on the content is unknown, and each call that may find none
    /// answers so.
    fn is_spent(&self) -> bool
        ensures yes { result ≡ true → spent self.now }
        ensures not { spent self.now → result ≡ true };

    /// Adds a part, none of whose elements has a time below the closed mark.
    ///
    /// # Errors
    ///
    /// [`NoMemory`]; then the grouping is spent.
    fn absorb(&mut self, part: Self::Part) -> Result<(), NoMemory>
        requires fits { (spent self.old → ⊥) → fits self.old part }
        requires from { (spent self.old → ⊥)
            → (es : List KeptRec) × stands part es × IsFrom (closed self.old) es }
        ensures was { OnOk result (spent self.old → ⊥) }
        ensures is { OnOk result (spent self.new → ⊥) }
        ensures closed { OnOk result (closed self.new ≡ closed self.old) }
        ensures adds { OnOk result ((es : List KeptRec) → stands part es → IsFrom (closed self.old) es
            → Adds (closed self.old) (gives self.old) (gives self.new) es) }
        ensures fits { OnOk result ((p : Self.Part) → fits self.old p → fits self.new p) }
        ensures err { OnErr result (spent self.new) };

    /// Gives, in order, the rows of the windows or sessions that the mark closes, and keeps the rest.
    ///
    /// # Errors
    ///
    /// [`NoMemory`]; then the grouping is spent.
    fn close(&mut self, mark: u64) -> Result<Vec<Record>, NoMemory>
        requires from { (spent self.old → ⊥) → closed self.old ≤ mark }
        ensures was { OnOk result (spent self.old → ⊥) }
        ensures is { OnOk result (spent self.new → ⊥) }
        ensures closed { OnOk result (closed self.new ≡ mark) }
        ensures closes { IfOk result (λ rows. Closes mark (gives self.old) rows.items (gives self.new)) }
        ensures fits { OnOk result ((p : Self.Part) → fits self.old p → fits self.new p) }
        ensures err { OnErr result (spent self.new) };

    // elements in another order give the same rows, in any order
    ghost order: { (g : Self) (l m : List KeptRec) → IsReordered l m → IsReordered (gives g l) (gives g m) };
}
