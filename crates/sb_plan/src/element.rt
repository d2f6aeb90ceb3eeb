//! One element of the array of transforms.

ghost use Rattle.std.specs.Prelude.{◌≡◌, ◌≢◌, ◌<◌, ◌+◌, Some, Err, OnOk, length};
ghost use Rattle.toml.specs.View.{view};
ghost use Rattle.sb_outside.specs.Folders.{Files};
ghost use Rattle.sb_plan.specs.Answers.{BlamesInTests, ChangesTo, IsWantedIn, TakesElement};
ghost use Rattle.sb_plan.specs.Wants.{BlamesLoad, WantsNoFile, no_files};
ghost use Rattle.sb_plan.specs.PlanFiles as spec;
ghost use Rattle.sb_plan.specs.Soundness.{IsSound};

use crate::entry::entry_at;
use crate::fault::{PlanCause, PlanFault, PlanKey, PlanStop};
use crate::stop::Stop;
use crate::wiring::{Wiring, connect};
use sb_outside::Folder;
use sb_pipeline::MAX_TRANSFORMS;
use std::alloc::Global;
use toml::Value;

/// Connects the transform of the element at this place, counted from 1, with the earlier ones.
#[tactic(auto, using(crate::proofs::Elements::takes_refused))]
pub(crate) fn take_element<F: Folder>(
    alloc: Global,
    place: u32,
    value: &Value,
    wiring: &mut Wiring,
    folder: &mut F,
) -> Result<(), PlanStop>
    requires room { length wiring.old.parts < MAX_TRANSFORMS }
    requires sound { IsSound wiring.old }
    ensures exact { (files : Files) → F.files folder.old ≡ Some files
        → TakesElement files place wiring.old (view value.now) result wiring.new }
    ensures alone { WantsNoFile (λ files. spec.with_element files wiring.old (view value.now))
        → TakesElement no_files place wiring.old (view value.now) result wiring.new }
    ensures unblamed { WantsNoFile (λ files. spec.with_element files wiring.old (view value.now))
        → result ≢ Err PlanStop.Folder }
    ensures sound { OnOk result (IsSound wiring.new × (length wiring.new.parts ≡ length wiring.old.parts + 1)) }
    ensures same { F.files folder.new ≡ F.files folder.old }
    ensures blames { BlamesLoad
        (IsWantedIn (F.files folder.old) (λ files. spec.with_element files wiring.old (view value.now)))
        (F.failed folder.old) (F.failed folder.new) result }
{
    match wire_element(alloc, value, wiring, folder) {
        Ok(()) => Ok(()),
        Err(Stop::Cause(what)) => Err(PlanStop::Fault(PlanFault { at: place, what })),
        Err(Stop::Folder) => Err(PlanStop::Folder),
        Err(Stop::Memory) => Err(PlanStop::Memory),
    }
}

/// Connects the transform of an element with the earlier ones.
#[tactic(auto, unfolding(crate::specs::PlanFiles::with_element))]
fn wire_element<F: Folder>(
    alloc: Global,
    value: &Value,
    wiring: &mut Wiring,
    folder: &mut F,
) -> Result<(), Stop>
    requires room { length wiring.old.parts < MAX_TRANSFORMS }
    requires sound { IsSound wiring.old }
    ensures exact { (files : Files) → F.files folder.old ≡ Some files
        → ChangesTo result (spec.with_element files wiring.old (view value.now)) wiring.new }
    ensures alone { WantsNoFile (λ files. spec.with_element files wiring.old (view value.now))
        → ChangesTo result (spec.with_element no_files wiring.old (view value.now)) wiring.new }
    ensures unblamed { WantsNoFile (λ files. spec.with_element files wiring.old (view value.now))
        → result ≢ Err Stop.Folder }
    ensures sound { OnOk result (IsSound wiring.new × (length wiring.new.parts ≡ length wiring.old.parts + 1)) }
    ensures same { F.files folder.new ≡ F.files folder.old }
    ensures blames { BlamesInTests
        (IsWantedIn (F.files folder.old) (λ files. spec.with_element files wiring.old (view value.now)))
        (F.failed folder.old) (F.failed folder.new) result }
{
    let Some(table) = value.as_table() else {
        return Err(Stop::Cause(PlanCause::WrongType(PlanKey::Transform)));
    };
    match entry_at(alloc, wiring.keys, table, wiring.parts.as_slice(), folder) {
        Ok(entry) => connect(entry, wiring),
        Err(stop) => Err(stop),
    }
}
