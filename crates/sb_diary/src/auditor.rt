//! The auditor: it takes the lines of a diary text one by one, and says which is the first that is not legal.
//!
//! The work for a line does not grow with the number of lines before it, save that of finding the count of an epoch
//! among those that have unfinished bundles.

ghost use Rattle.std.specs.Prelude.{◌≡◌, ◌≤◌, None, Some, Err};
ghost use Rattle.sb_diary.specs.Audits as spec;
ghost use Rattle.sb_diary.specs.Audits.{IsTakenText, lines_in, stop_of};
ghost use Rattle.sb_diary.specs.declared.audit.AuditStop.{AuditStop as Stop};

use crate::audit::{AuditEnd, AuditFault, AuditStop};
use crate::text_book::TextBook;
use sb_record::MAX_LINES;
use std::alloc::Global;
use std::marker::Model;

/// Takes the lines of a diary text one by one. Once it has refused a line, or had no memory for one, it takes no more.
#[derive(Drop)]
pub struct Auditor {
    book: TextBook,
    stop: Option<AuditStop>,
}

impl Model for Auditor {
    ghost use Rattle.sb_diary.specs.Audits.{Auditing};

    ghost Value = { Auditing };

    ghost view = { λ a. record { text = a.book; stop = a.stop } };
}

impl Auditor {
    /// An auditor before the first line.
    pub fn new(alloc: Global) -> Auditor
        ensures { result ≡ spec.first_auditing }
    {
        Auditor {
            book: TextBook::new(alloc),
            stop: None,
        }
    }

    /// Takes the text of the next line, without its line end, or says why it can't. Each later line is then answered
    /// the same.
    pub fn line(&mut self, line: &[u8]) -> Result<(), AuditStop>
        ensures stopped { (stop : Stop) → self.old.stop ≡ Some stop
            → (result ≡ Err stop) × (self.new ≡ self.old) }
        ensures answer { self.old.stop ≡ None → IsTakenText self.old.text line.now self.new.text result }
        ensures stop { self.old.stop ≡ None → self.new.stop ≡ stop_of result }
    {
        if let Some(stop) = self.stop {
            return Err(stop);
        }
        let outcome = self.book.line(line);
        if let Err(stop) = outcome {
            self.stop = Some(stop);
        }
        outcome
    }

    /// Why the next line is refused if whoever reads the text finds that it has too many bytes.
    pub fn too_long(&self) -> AuditFault
        ensures value { result ≡ spec.too_long self.now.text }
        ensures most { lines_in self.now.text ≤ MAX_LINES }
    {
        self.book.too_long()
    }

    /// What is to be said of the lines that were taken.
    pub fn end(&self) -> AuditEnd
        ensures { result ≡ spec.end_of self.now.text }
    {
        self.book.end()
    }
}
