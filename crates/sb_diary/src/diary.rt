//! The diary of a node while it is being written.
//!
//! What an engine does to a node is stated over all lines of the node's diary, and an engine that runs for weeks has no
//! room for them. So a [`Diary`] is a list that contracts see whole, and it keeps the lines themselves only if it was
//! made to. Either way room for a line is reserved before the line is pushed, so that pushing cannot fail.

ghost use Rattle.std.specs.Prelude.{◌≡◌, ◌≤◌, ◌<◌, ◌+◌, max, true, false, length, IsTrue, IsOk, OnOk, OnErr};
ghost use Rattle.sb_diary.specs.Diaries as spec;

use crate::event::DiaryEvent;
use sb_record::{NoMemory, Trail};
use std::alloc::Global;
use std::marker::Model;

/// The most lines of a diary: no machine has room for more.
pub const MAX_DIARY_LINES: u64 = 72_057_594_037_927_936;

/// The diary of a node: its lines so far, and room for more.
#[derive(Drop)]
pub struct Diary {
    lanes: u32,
    listed: Trail<DiaryEvent>,
    count: u64,
    spare: usize,
    /// The lines, if they are kept.
    kept: Option<Vec<DiaryEvent>>,
}

impl Model for Diary {
    ghost use Rattle.std.specs.Prelude.{◌≡◌, ◌≤◌, ◌+◌, length, is_some, IfSome, vec_capacity};
    ghost use Rattle.sb_diary.specs.declared.diary.TheConstants.{MAX_DIARY_LINES};
    ghost use Rattle.sb_diary.specs.Diaries.{Written};

    ghost Value = { Written };

    ghost view = { λ d. record { lanes = d.lanes; events = d.listed; keeps = is_some d.kept; spare = d.spare } };

    ghost invariant = { λ d. (d.count ≡ length d.listed) × (d.count + d.spare ≤ MAX_DIARY_LINES)
        × IfSome d.kept (λ v. (v.items ≡ d.listed) × (length d.listed + d.spare ≤ vec_capacity v)) };
}

impl Diary {
    /// The diary without lines of a node with so many lanes. It takes no memory.
    pub fn new(alloc: Global, lanes: u32, keeps: bool) -> Diary
        ensures { result ≡ spec.unwritten lanes keeps }
    {
        Diary {
            lanes,
            listed: Trail::start(),
            count: 0,
            spare: 0,
            kept: if keeps { Some(Vec::new(alloc)) } else { None },
        }
    }

    /// Makes room for at least so many lines more. Only a diary that keeps its lines takes memory for that. An error
    /// says that there was none, or that the diary would have more than [`MAX_DIARY_LINES`] lines; it changes nothing.
    pub fn reserve(&mut self, more: usize) -> Result<(), NoMemory>
        ensures ok { OnOk result (self.new ≡ spec.with_spare (max self.old.spare more) self.old) }
        ensures err { OnErr result (self.new ≡ self.old) }
        ensures enough { more ≤ self.old.spare → IsOk result }
        ensures unkept { self.old.keeps ≡ false → length self.old.events + more ≤ MAX_DIARY_LINES → IsOk result }
        ensures most { length self.new.events + self.new.spare ≤ MAX_DIARY_LINES }
    {
        if more <= self.spare {
            return Ok(());
        }
        if more as u64 > MAX_DIARY_LINES - self.count {
            return Err(NoMemory);
        }
        if let Some(lines) = &mut self.kept {
            lines.try_reserve(more)?;
        }
        self.spare = more;
        Ok(())
    }

    /// Adds a line at the end. It takes no memory, but room that was reserved.
    pub fn push(&mut self, event: DiaryEvent)
        requires { 1 ≤ self.old.spare }
        ensures { self.new ≡ spec.with_line event self.old }
    {
        self.listed = self.listed.with(event);
        self.count += 1;
        self.spare -= 1;
        if let Some(lines) = &mut self.kept {
            let _ = lines.push(event);
        }
    }

    /// The lines, if they are kept.
    pub fn events(&self) -> &[DiaryEvent]
        requires { IsTrue self.now.keeps }
        ensures { result.now ≡ self.now.events }
    {
        match &self.kept {
            Some(lines) => lines.as_slice(),
            None => &[],
        }
    }

    /// How many lanes the node has.
    pub fn lanes(&self) -> u32
        ensures { result ≡ self.now.lanes }
    {
        self.lanes
    }

    /// Whether the lines are kept.
    pub fn keeps(&self) -> bool
        ensures { result ≡ self.now.keeps }
    {
        self.kept.is_some()
    }

    /// How many lines there are.
    pub fn count(&self) -> u64
        ensures { result ≡ length self.now.events }
    {
        self.count
    }
}
