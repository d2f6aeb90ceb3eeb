//! What a plan file says of the whole plan, which it may leave out.

ghost use Rattle.std.specs.Prelude.{◌≡◌};
ghost use Rattle.toml.specs.View.{table_view};
ghost use Rattle.sb_plan.specs.Keys.{word_or};
ghost use Rattle.sb_plan.specs.Words as word;

use crate::fault::{PlanCause, PlanKey};
use crate::keys::{text_at, value_at};
use crate::words::{keys_named, late_named};
use sb_pipeline::{Keys, LatePolicy};
use toml::Table;

/// What becomes of late records: they are refused if the document does not say it.
#[tactic(auto, unfolding(crate::specs::Keys::word_or, crate::specs::Keys::word_at))]
pub(crate) fn late_at(document: &Table) -> Result<LatePolicy, PlanCause>
    ensures { result ≡ word_or LatePolicy.Refuse word.late_named PlanKey.Late (table_view document.now) }
{
    if value_at(document, PlanKey::Late).is_none() {
        return Ok(LatePolicy::Refuse);
    }
    late_named(text_at(document, PlanKey::Late)?).ok_or(PlanCause::OutOfRange(PlanKey::Late))
}

/// What keys are: numbers if the document does not say it.
#[tactic(auto, unfolding(crate::specs::Keys::word_or, crate::specs::Keys::word_at))]
pub(crate) fn keys_at(document: &Table) -> Result<Keys, PlanCause>
    ensures { result ≡ word_or Keys.Numbers word.keys_named PlanKey.Keys (table_view document.now) }
{
    if value_at(document, PlanKey::Keys).is_none() {
        return Ok(Keys::Numbers);
    }
    keys_named(text_at(document, PlanKey::Keys)?).ok_or(PlanCause::OutOfRange(PlanKey::Keys))
}
