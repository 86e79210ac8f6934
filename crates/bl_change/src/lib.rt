//! The text of a change record, PG_JSON of the Neptune User Guide ("Property graph change
//! records").
//!
//! [`print_event`] writes one [`Event`] as a line of compact JSON, by `serde_json`, and
//! [`read_event`] gives the event back, or says why the text is none. A text is read by looking up
//! what an event would have there, printing that event and comparing.
//!
//! Words of the contracts: `specs/EventText` (the text of an event), `specs/EventTexts` (the ranges
//! of its parts, and what reading gives); `specs/Found` is for the private ones. This crate stands
//! on `bl_value`.
#![tactic(auto)]

mod change_in;
mod event;
mod event_in;
mod event_text;
mod laws;
mod members;
mod operation;
mod reading;
mod refusal;
mod value_in;

pub use event::Event;
pub use event_text::print_event;
pub use laws::{each_event_is_read_back, event_texts_are_json, no_two_events_have_one_text};
pub use reading::read_event;
pub use refusal::EventRefusal;
