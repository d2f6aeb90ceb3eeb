//! What an auditor keeps of a whole diary text.

ghost use Rattle.std.specs.Prelude.{◌≡◌, ◌+◌, ◌<◌, ◌≤◌};
ghost use Rattle.sb_diary.specs.Audits as spec;
ghost use Rattle.sb_diary.specs.Audits.{IsTakenText, after_diary_line, lines_in};
ghost use Rattle.sb_diary.specs.Books.{Answers};

use crate::audit::{AuditEnd, AuditFault, AuditStop};
use crate::event::DiaryEvent;
use crate::line_stop::LineStop;
use crate::node_book::NodeBook;
use crate::reading::read_diary_line;
use crate::text::DiaryLine;
use sb_record::MAX_LINES;
use std::alloc::Global;
use std::marker::Model;

/// What the lines of a diary text say so far.
#[derive(Drop)]
pub(crate) struct TextBook {
    alloc: Global,
    transforms: u32,
    events: u64,
    // Whether each diary before the last head is settled.
    settled: bool,
    // The diary behind the last head.
    node: Option<NodeBook>,
}

impl Model for TextBook {
    ghost use Rattle.std.specs.Prelude.{◌+◌, ◌≤◌};
    ghost use Rattle.sb_record.specs.declared.intake.TheConstants.{MAX_LINES};
    ghost use Rattle.sb_diary.specs.Audits.{TextAudit};

    ghost Value = { TextAudit };

    ghost view = { λ b. record { transforms = b.transforms; events = b.events; settled = b.settled; diary = b.node } };

    ghost invariant = { λ b. b.transforms + b.events ≤ MAX_LINES };
}

impl TextBook {
    // A text before its first line.
    pub fn new(alloc: Global) -> TextBook
        ensures { result ≡ spec.first_text_audit }
    {
        TextBook {
            alloc,
            transforms: 0,
            events: 0,
            settled: true,
            node: None,
        }
    }

    // How many lines were taken.
    fn lines(&self) -> u64
        ensures value { result ≡ lines_in self.now }
        ensures most { result ≤ MAX_LINES }
    {
        u64::from(self.transforms) + self.events
    }

    // The text of the next line, or why it is refused.
    pub fn line(&mut self, line: &[u8]) -> Result<(), AuditStop>
        ensures { IsTakenText self.old line.now self.new result }
    {
        if self.lines() >= MAX_LINES {
            return Err(AuditStop::Fault(AuditFault::TooMany));
        }
        let number = self.lines() + 1;
        let Some(said) = read_diary_line(line) else {
            return Err(AuditStop::Fault(AuditFault::Malformed { line: number }));
        };
        match self.take(&said) {
            Ok(()) => Ok(()),
            Err(LineStop::NotLegal) => {
                Err(AuditStop::Fault(AuditFault::NotLegal { line: number }))
            }
            Err(LineStop::Memory) => Err(AuditStop::Memory),
        }
    }

    // Why the next line is refused if it has too many bytes.
    pub fn too_long(&self) -> AuditFault
        ensures value { result ≡ spec.too_long self.now }
        ensures most { lines_in self.now ≤ MAX_LINES }
    {
        if self.lines() >= MAX_LINES {
            return AuditFault::TooMany;
        }
        AuditFault::TooLong {
            line: self.lines() + 1,
        }
    }

    // What is to be said of the lines.
    pub fn end(&self) -> AuditEnd
        ensures { result ≡ spec.end_of self.now }
    {
        AuditEnd {
            transforms: self.transforms,
            events: self.events,
            settled: self.is_settled(),
        }
    }

    // Whether each diary is settled.
    fn is_settled(&self) -> bool
        ensures { result ≡ spec.is_text_settled self.now }
    {
        self.settled
            && match &self.node {
                Some(node) => node.is_settled(),
                None => true,
            }
    }

    // The next line.
    fn take(&mut self, line: &DiaryLine) -> Result<(), LineStop>
        requires { lines_in self.old < MAX_LINES }
        ensures { Answers (after_diary_line self.old line.now) self.old self.new result }
    {
        match line {
            DiaryLine::Head { node, lanes } => self.head(*node, *lanes),
            DiaryLine::Event(event) => self.event(event),
        }
    }

    // A head line.
    fn head(&mut self, node: u32, lanes: u32) -> Result<(), LineStop>
        requires { lines_in self.old < MAX_LINES }
        ensures { Answers (after_diary_line self.old (DiaryLine.Head node lanes)) self.old self.new result }
    {
        if node != self.transforms {
            return Err(LineStop::NotLegal);
        }
        let book = NodeBook::new(self.alloc, lanes)?;
        self.settled = self.is_settled();
        self.node = Some(book);
        self.transforms += 1;
        Ok(())
    }

    // A line of an event.
    fn event(&mut self, event: &DiaryEvent) -> Result<(), LineStop>
        requires { lines_in self.old < MAX_LINES }
        ensures { Answers (after_diary_line self.old (DiaryLine.Event event.now)) self.old self.new result }
    {
        let Some(node) = &mut self.node else {
            return Err(LineStop::NotLegal);
        };
        node.event(event)?;
        self.events += 1;
        Ok(())
    }
}
