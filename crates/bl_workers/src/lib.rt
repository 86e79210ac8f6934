//! Records converted side by side.
//!
//! [`convert_all`] gives the row of each record, in their order, as `convert` of `bl_rows` does for
//! one; up to four pieces are converted at the same time. Each piece arrives at a [`Gate`] before it
//! begins, by which a test sees that they do run side by side; [`OpenGate`] is for everyone else.
//!
//! Words of the contracts: `specs/Rows`.
//! This crate stands on `bl_rows`, `bl_value` and `bl_outside`.
#![tactic(auto)]

mod converting;
mod gate;

pub use converting::{FEWEST_OF_A_PIECE, convert_all};
pub use gate::{Gate, OpenGate};
