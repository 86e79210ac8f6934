//! The property graph: what a row does to it, and the change applied.
//!
//! [`Graph::admit`] says what a row does to a graph: a list of changes, nothing (a duplicate), or a
//! refusal with its code. [`Graph::apply`] makes one change, and [`Graph::fits`] is the test that
//! it may be made. Contracts see the graph as the finite maps of its definition. Inside it is held
//! by numbers of ids and names (`Tables`, `Owner`), which no public clause sees.
//!
//! Words of the contracts: `specs/Graph` (the maps), `specs/Replay` (changes applied),
//! `specs/Admission` (what a row does), `specs/Admitted` and `specs/WithRow` (what is promised of
//! that), `specs/ValidGraph`, `specs/ValidChanges`, `specs/Sizes`. This crate stands on `bl_value`
//! and `bl_outside`.
#![tactic(auto)]

mod admission;
mod copied;
mod element_changes;
mod found;
mod graph;
mod keyed_values;
mod laws;
mod names;
mod numbered_values;
mod numbers;
mod owner;
mod property_changes;
mod seeded;
mod tables;
mod value_set;
mod verdict;

use copied::{Copied, copy_map};
use found::{FoundEdge, FoundEnds, FoundKey, FoundLabels, FoundValues, FoundVertex};
pub use graph::Graph;
use keyed_values::KeyedValues;
pub use laws::{
    a_row_is_taken_in_one_way, changes_that_fit_keep_validity, proper_rows_keep_validity,
    replay_is_one_fold, valid_changes_keep_values_valid, valid_rows_are_proper,
    valid_rows_give_valid_changes,
};
use names::Names;
use numbered_values::NumberedValues;
use numbers::Numbers;
use owner::{Ends, Owners};
pub use seeded::Seeded;
use tables::Tables;
use value_set::{ValueSet, is_among};
pub use verdict::Verdict;

/// So many labels, or values of one owner, stand side by side. More of them are held in order.
const FEW: usize = 16;
