// Laws of the definitions. The functions do nothing: their contracts are the laws.
ghost use Rattle.bl_change.specs.EventTexts.{EachHasItsText, EachIsReadBack, TextsAreJson};

/// The text of an event is JSON, and has the value of the definition.
pub fn event_texts_are_json()
    ensures { TextsAreJson }
{}

/// No two events have one text.
pub fn no_two_events_have_one_text()
    ensures { EachHasItsText }
{}

/// What [`read_event`](crate::read_event) answers to the text of an event is that event, or
/// NoMemory.
pub fn each_event_is_read_back()
    ensures { EachIsReadBack }
{}
