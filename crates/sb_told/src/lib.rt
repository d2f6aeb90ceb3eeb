//! What a user is told: how a run ends, as a status and as a line of text, and the late records that it lists; and the
//! reading of an input to its end, by the plain program or by an audit.
#![tactic(auto)]

mod diary_input;
mod input;
mod kept;
mod late;
mod note;
mod output;
mod status;

pub use diary_input::{DiaryHalt, DiaryInput, read_diary};
pub use input::{Input, read_input};
pub use kept::Kept;
pub use late::LateRecords;
pub use note::{Note, audit_line, note_of};
pub use output::{BATCH, MAX_TEXT, make_room, print, write_rows};
pub use status::Status;

// What the crates above name of the crates below.
pub use sb_plan::{MAX_PLAN_BYTES, PlanCause, PlanFault, PlanStop, plan_of};
pub use sb_slow::rows_of_streams;
