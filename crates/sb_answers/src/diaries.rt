//! The diaries that a run tells: its engine has them until they are written.

ghost use Rattle.std.specs.Prelude.{◌≡◌, ◌≤◌, ◌∷◌, [], ◌++◌, OnOk, flat_map, length, slice_get};
ghost use Rattle.sb_alone.specs.outside.Sinks.{SinkCause, WritesAll};
ghost use Rattle.sb_alone.specs.diary.Texts.{diary_text, text_of};
ghost use Rattle.sb_answers.specs.Telling.{CanTell, diaries_of_hand, event_line, head_line, node_text};

use sb_alone::{DiaryEvent, DiaryLine, Hand, Sink, SinkFault, TextBuf, line_bytes, write_all_of};
use sb_told::{BATCH, MAX_TEXT, make_room};
use std::marker::Model;

/// The diaries of all nodes of a run that is done, or none.
#[derive(Drop)]
pub struct Diaries {
    hand: Option<Hand>,
}

impl Model for Diaries {
    ghost use Rattle.std.specs.Prelude.{List, IfSome};
    ghost use Rattle.sb_alone.specs.diary.Texts.{NodeDiary};
    ghost use Rattle.sb_answers.specs.Telling.{CanTell, diaries_in};

    ghost Value = { List NodeDiary };

    ghost view = { λ d. diaries_in d.hand };

    ghost invariant = { λ d. IfSome d.hand CanTell };
}

impl Diaries {
    /// No diaries.
    pub fn none() -> Diaries
        ensures { result ≡ [] }
    {
        Diaries { hand: None }
    }

    /// Those of an engine, which has kept their lines.
    pub fn of(hand: Hand) -> Diaries
        requires { CanTell hand }
        ensures { result ≡ diaries_of_hand hand }
    {
        Diaries { hand: Some(hand) }
    }

    /// Writes their text, and takes no memory for it.
    pub fn write<N: Sink>(&self, notes: &mut N) -> Result<(), SinkFault>
        ensures bytes { WritesAll (N.taken notes.old) (N.taken notes.new) (diary_text self.now) result }
        ensures cause { SinkCause (N.sink_state notes.old) (N.sink_state notes.new) result }
    {
        match &self.hand {
            Some(hand) => write_nodes(notes, hand),
            None => Ok(()),
        }
    }
}

/// Writes the text of the diaries of all nodes.
fn write_nodes<N: Sink>(notes: &mut N, hand: &Hand) -> Result<(), SinkFault>
    requires { CanTell hand.now }
    ensures bytes { WritesAll (N.taken notes.old) (N.taken notes.new) (diary_text (diaries_of_hand hand.now)) result }
    ensures cause { SinkCause (N.sink_state notes.old) (N.sink_state notes.new) result }
{
    'nodes: for node in 0..hand.plan().transforms() + 1 {
        write_node(notes, hand, node)?;
    }
    Ok(())
}

/// Writes the text of the diary of a node.
fn write_node<N: Sink>(notes: &mut N, hand: &Hand, node: u32) -> Result<(), SinkFault>
    requires tells { CanTell hand.now }
    requires node { node ≤ length hand.now.plan.steps }
    ensures bytes { WritesAll (N.taken notes.old) (N.taken notes.new) (node_text hand.now node) result }
    ensures cause { SinkCause (N.sink_state notes.old) (N.sink_state notes.new) result }
{
    write_head(notes, node, hand.plan().lanes(node))?;
    write_events(notes, hand.diary(node).events())
}

/// Writes the head line of a node.
fn write_head<N: Sink>(notes: &mut N, node: u32, lanes: u32) -> Result<(), SinkFault>
    ensures bytes { WritesAll (N.taken notes.old) (N.taken notes.new) (head_line node lanes) result }
    ensures cause { SinkCause (N.sink_state notes.old) (N.sink_state notes.new) result }
{
    write_all_of(
        notes,
        line_text(&DiaryLine::Head { node, lanes }).as_slice(),
    )
}

/// Writes the lines of events, many at a time.
fn write_events<N: Sink>(notes: &mut N, events: &[DiaryEvent]) -> Result<(), SinkFault>
    ensures bytes { WritesAll (N.taken notes.old) (N.taken notes.new) (flat_map event_line events.now) result }
    ensures cause { SinkCause (N.sink_state notes.old) (N.sink_state notes.new) result }
{
    let mut batch = TextBuf::<BATCH>::new();
    'events: for event in events {
        make_room(notes, &mut batch)?;
        batch.push(line_text(&DiaryLine::Event(*event)).as_slice());
    }
    write_all_of(notes, batch.as_slice())
}

/// The text of a line, with its line end.
fn line_text(line: &DiaryLine) -> TextBuf<MAX_TEXT>
    ensures { result ≡ text_of line.now ++ 10 ∷ [] }
{
    let mut text = TextBuf::<MAX_TEXT>::new();
    text.push(line_bytes(line).as_slice());
    text.push(b"\n");
    text
}
