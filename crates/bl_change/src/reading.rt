// The text of an event read back.
ghost use Rattle.std.specs.Prelude.{◌≡◌, ◌↔◌, Some, IfOk, IfErr, IsTrue};
ghost use Rattle.std.specs.Str.{IsUtf8};
ghost use Rattle.serde_json.specs.Read.{read};
ghost use Rattle.serde_json.specs.View.{view};
ghost use Rattle.bl_value.specs.Valid.{IsPrintable};
ghost use Rattle.bl_change.specs.EventText.{event_text};
ghost use Rattle.bl_change.specs.EventTexts.{Reads};
ghost use Rattle.bl_change.specs.Found.{IsNoJson};

use crate::event_in::event_in;
use crate::{Event, EventRefusal, print_event};
use bl_outside::NoMemory;
use serde_json::Value as Json;
use std::alloc::Global;

/// The event whose text this is. Just those texts are accepted that [`print_event`] gives of the
/// events in their ranges.
///
/// NotJson: the text is not UTF-8, or no JSON of at most 127 levels. NotAnEvent: it is JSON, but no
/// event has this text, as where it has a space, other members or another order of them, another
/// spelling of a number, a text or a date, or a part out of its range. NoMemory: memory ran out.
pub fn read_event(alloc: Global, text: &[u8]) -> Result<Event, EventRefusal>
    ensures { Reads text.now result }
{
    let json = json_in(alloc, text)?;
    let event = event_in(alloc, &json)?;
    let same = is_text_of(alloc, text, &event)?;
    if same {
        Ok(event)
    } else {
        Err(EventRefusal::NotAnEvent)
    }
}

// The JSON of a text.
fn json_in(alloc: Global, text: &[u8]) -> Result<Json, EventRefusal>
    ensures ok { IfOk result (λ json. IsUtf8 text.now × (read text.now ≡ Some (view json))) }
    ensures err { IfErr result (IsNoJson text.now) }
{
    match Json::from_slice(alloc, text) {
        Ok(json) => Ok(json),
        Err(error) if error.is_memory() => Err(EventRefusal::NoMemory),
        Err(_) => Err(EventRefusal::NotJson),
    }
}

fn is_text_of(alloc: Global, text: &[u8], event: &Event) -> Result<bool, NoMemory>
    requires printable { IsPrintable event.now.change }
    ensures { IfOk result (λ same. IsTrue same ↔ (text.now ≡ event_text event.now)) }
{
    Ok(print_event(alloc, event)?.as_slice() == text)
}
