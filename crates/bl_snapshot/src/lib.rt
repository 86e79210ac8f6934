//! Two slots for snapshots, of which one always holds a whole one.
//!
//! [`Slots`] stand over two `Disk`s. A new [`Snapshot`] always goes into the slot that isn't the
//! newest: [`Slots::close_slot`] closes it, and [`Slots::fill_slot`] writes the body and opens it.
//! Its one contract: at every moment of either call a crash leaves that slot closed, or with what
//! it held, or with the new snapshot whole, and the other slot isn't touched. So where there was a
//! snapshot there is one afterwards. As in a journal no checksum is trusted: a gate byte is closed
//! on the disk before anything is written behind it, and is opened by a write of its own. A gate
//! that is closed is never written as closed again, since that write could be torn and open it.
//!
//! Words of the contracts: `specs/SlotFiles` says what the bytes of a file mean, `specs/TwoSlots`
//! which slot is at work, and what is known of the two.
//! This crate stands on `bl_outside`.
#![tactic(auto)]

mod front;
mod slot_file;
mod slots;
mod snapshot;

pub use slots::Slots;
pub use snapshot::Snapshot;
