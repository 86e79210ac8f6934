// Rows admitted into a graph, and their changes applied.
ghost use Rattle.std.specs.Prelude.{◌≡◌, IfSome, OnSome};
ghost use Rattle.bl_bench.specs.Admitting.{with_row};

use crate::graph_rows::graph_row;
use bl_graph::{Graph, Verdict};
use bl_value::Row;
use std::alloc::Global;

/// A graph, and what the rows did that it was made from.
#[derive(Drop)]
pub struct Admitting {
    pub graph: Graph,
    pub rows: u64,
    pub changes: u64,
    pub duplicates: u64,
    pub refused: u64,
}

impl Admitting {
    fn nothing(alloc: Global) -> Admitting
        ensures { result.rows ≡ 0 }
    {
        Admitting {
            graph: Graph::empty(alloc, 0),
            rows: 0,
            changes: 0,
            duplicates: 0,
            refused: 0,
        }
    }

    // One row more. None where memory ran out, or a count is at its end.
    fn take(&mut self, row: &Row) -> Option<()>
        ensures { OnSome result (self.new ≡ with_row self.old row.now) }
    {
        match self.graph.admit(false, row).ok()? {
            Verdict::Changes(changes) => {
                self.graph.apply_all(&changes).ok()?;
                self.changes = self.changes.checked_add(changes.len() as u64)?;
            }
            Verdict::Duplicate => self.duplicates = self.duplicates.checked_add(1)?,
            Verdict::Refused(..) => self.refused = self.refused.checked_add(1)?,
        }
        self.rows = self.rows.checked_add(1)?;
        Some(())
    }
}

/// Makes so many rows, two at least, admits each into a graph that is empty at first, and applies
/// its changes.
pub fn admitted(alloc: Global, rows: u64) -> Option<Admitting>
    ensures { IfSome result (λ admitting. admitting.rows ≡ rows) }
{
    let rows = u32::try_from(rows).ok()?;
    if rows < 2 {
        return None;
    }
    let mut admitting = Admitting::nothing(alloc);
    for number in 0..rows {
        let row = graph_row(alloc, number, rows)?;
        admitting.take(&row)?;
    }
    Some(admitting)
}
