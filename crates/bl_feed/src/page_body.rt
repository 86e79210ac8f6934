// The body of a page of the stream, written into one buffer.
ghost use Rattle.std.specs.Prelude.{◌≡◌, ◌≤◌, ◌++◌, false, IfOk, OnOk, length, map};
ghost use Rattle.std.specs.List.{All};
ghost use Rattle.serde_json.specs.View.{items_of};
ghost use Rattle.serde_json.specs.Written.{comma_if, items_text};
ghost use Rattle.bl_value.specs.Valid.{IsPrintable};
ghost use Rattle.bl_change.specs.EventText.{event_data};
ghost use Rattle.bl_feed.specs.Bodies.{page_text};
ghost use Rattle.bl_feed.specs.PagePieces.{page_front, page_end};

use bl_change::{Event, print_event};
use bl_outside::{NoMemory, Text};
use bl_stream::Page;
use std::alloc::Global;

// All that stands before the records, of which this one is the last.
fn push_front(alloc: Global, text: &mut Text, last: &Event) -> Result<(), NoMemory>
    ensures { OnOk result
        (text.new ≡ text.old ++ page_front last.now.commit last.now.op last.now.moment) }
{
    let commit = last.commit;
    let op = last.op;
    let moment = last.moment;
    let front = format!(in alloc;
        "{{\"format\":\"PG_JSON\",\"lastEventId\":{{\"commitNum\":{commit},\"opNum\":{op}}},\"lastTrxTimestamp\":{moment},\"records\":["
    )?;
    text.extend(front.as_bytes())
}

// A comma, where something stands before.
fn push_comma(text: &mut Text, later: bool) -> Result<(), NoMemory>
    ensures { OnOk result (text.new ≡ text.old ++ comma_if later) }
{
    if later {
        return text.push(b',');
    }
    Ok(())
}

// The records, with commas between them, and the end of their list.
fn push_records(alloc: Global, text: &mut Text, events: &[Event]) -> Result<(), NoMemory>
    requires { All (λ event. IsPrintable event.change) events.now }
    ensures { OnOk result
        (text.new ≡ text.old ++ items_text false (items_of (map event_data events.now))) }
{
    let mut later = false;
    for event in events {
        push_comma(text, later)?;
        let record = print_event(alloc, event)?;
        text.extend(record.as_slice())?;
        later = true;
    }
    text.push(b']')
}

// All that stands behind the records.
fn push_end(alloc: Global, text: &mut Text, count: usize) -> Result<(), NoMemory>
    ensures { OnOk result (text.new ≡ text.old ++ page_end count) }
{
    let end = format!(in alloc; ",\"totalRecords\":{count}}}")?;
    text.extend(end.as_bytes())
}

/// The body of a page. It is written in one pass, so it takes the memory of its text and of one
/// record.
pub fn page_json(alloc: Global, page: &Page) -> Result<Text, NoMemory>
    requires some { 1 ≤ length page.now.events }
    requires printable { All (λ event. IsPrintable event.change) page.now.events }
    ensures { IfOk result (λ text. text ≡ page_text page.now.events) }
{
    let events = page.events.as_slice();
    let mut text = Text::new(alloc);
    push_front(alloc, &mut text, &events[events.len() - 1])?;
    push_records(alloc, &mut text, events)?;
    push_end(alloc, &mut text, events.len())?;
    Ok(text)
}
