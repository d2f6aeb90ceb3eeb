//! Diaries: what became of each bundle and each watermark of a node, line by line.
//!
//! The diary of a node (a transform, or the sink) has one line for each event that changed the node ([`DiaryEvent`]).
//! Which lines may follow others (a legal diary), and when nothing is left open (a settled one), is defined over the
//! lines alone (`specs/Legal.antt`), with no engine in sight: whoever has the lines can test them. [`laws`] has what
//! follows from that, and a worked diary.
//!
//! A [`Diary`] is the diary of a node while it is written. The text of the diaries of all nodes
//! (`specs/Texts.antt`) is made of [`DiaryLine`]s, which [`line_bytes`] prints and [`read_diary_line`] reads. An
//! [`Auditor`] tests such a text line by line.
#![tactic(auto)]

mod audit;
mod auditor;
mod bundle;
mod counts;
mod diary;
mod event;
mod lane_book;
pub mod laws;
mod line_stop;
mod node_book;
mod reading;
mod text;
mod text_book;

pub use audit::{AuditEnd, AuditFault, AuditStop};
pub use auditor::Auditor;
pub use bundle::{Came, Stage};
pub use diary::{Diary, MAX_DIARY_LINES};
pub use event::DiaryEvent;
pub use reading::read_diary_line;
pub use text::{DiaryLine, LineBuf, line_bytes};
