// An event, read back from its record.
ghost use Rattle.std.specs.Prelude.{◌≡◌, ◌≤◌, IfOk};
ghost use Rattle.serde_json.specs.View.{view};
ghost use Rattle.bl_change.specs.EventText.{event_data, place_data};
ghost use Rattle.bl_change.specs.EventTexts.{IsEvent};
ghost use Rattle.bl_change.specs.Found.{Finds};

use crate::change_in::change_in;
use crate::members::{member_at, number_at, ordinal_at, text_at};
use crate::{Event, EventRefusal};
use serde_json::Value as Json;
use std::alloc::Global;

/// The event that may have this record: no other one has it.
pub fn event_in(alloc: Global, json: &Json) -> Result<Event, EventRefusal>
    ensures valid { IfOk result IsEvent }
    ensures found { Finds (λ event. IsEvent event × (view json.now ≡ event_data event)) result }
{
    let moment = number_at(json, "commitTimestamp")?;
    let (commit, op) = place_in(member_at(json, "eventId")?)?;
    let last = json.get("isLastOp").is_some();
    let change = change_in(alloc, member_at(json, "data")?, text_at(json, "op")?)?;
    Ok(Event {
        commit,
        op,
        moment,
        last,
        change,
    })
}

// The numbers of a commit and of an event in it.
fn place_in(json: &Json) -> Result<(u64, u64), EventRefusal>
    ensures valid { IfOk result (λ place. (1 ≤ place.0) × (1 ≤ place.1)) }
    ensures found { Finds
        (λ place. (1 ≤ place.0) × (1 ≤ place.1) × (view json.now ≡ place_data place.0 place.1))
        result }
{
    let commit = ordinal_at(json, "commitNum")?;
    let op = ordinal_at(json, "opNum")?;
    Ok((commit, op))
}
