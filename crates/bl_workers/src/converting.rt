// Records converted in up to four pieces.
ghost use Rattle.std.specs.Prelude.{◌≡◌, ◌<◌, ◌++◌, IfOk};
ghost use Rattle.std.specs.List.{All};
ghost use Rattle.std.specs.Result.{IsOkAnd};
ghost use Rattle.std.specs.Thread.{IsSync};
ghost use Rattle.bl_value.specs.ValidColumns.{IsColumns};
ghost use Rattle.bl_value.specs.ValidRows.{IsRow};
ghost use Rattle.bl_workers.specs.Rows.{record_rows};

use crate::Gate;
use bl_outside::{List, NoMemory, Text};
use bl_rows::convert;
use bl_value::{Columns, Row};
use std::alloc::Global;
use std::thread::{Threads, join};

/// The fewest records that are worth a piece of their own: with fewer in each half, starting the
/// second costs more than it saves.
pub const FEWEST_OF_A_PIECE: usize = 64;

// One piece, on one thread.
fn convert_piece<G: Gate>(
    alloc: Global,
    gate: &G,
    number: u32,
    columns: &Columns,
    records: &[List<Text>],
) -> Result<List<Row>, NoMemory>
    requires { IsColumns columns.now }
    ensures rows { IfOk result (λ rows. rows ≡ record_rows columns.now records.now) }
    ensures valid { IfOk result (λ rows. All IsRow rows) }
{
    gate.arrive(number);
    let mut rows = List::with_capacity(alloc, records.len())?;
    for record in records {
        rows.push(convert(alloc, columns, record)?)?;
    }
    Ok(rows)
}

// The rows of the first part, and then those of the second.
fn in_order(
    first: Result<List<Row>, NoMemory>,
    second: Result<List<Row>, NoMemory>,
) -> Result<List<Row>, NoMemory>
    ensures { IfOk result (λ rows. IsOkAnd first (λ a. IsOkAnd second (λ b. rows ≡ a ++ b))) }
{
    let mut rows = first?;
    rows.append(second?)?;
    Ok(rows)
}

// Two pieces side by side, or one where there are few records.
fn convert_pair<R: Threads + Sync, G: Gate>(
    rt: &R,
    alloc: Global,
    gate: &G,
    number: u32,
    columns: &Columns,
    records: &[List<Text>],
) -> Result<List<Row>, NoMemory>
    requires number { number < 4 }
    requires columns { IsColumns columns.now }
    ensures rows { IfOk result (λ rows. rows ≡ record_rows columns.now records.now) }
    ensures valid { IfOk result (λ rows. All IsRow rows) }
{
    if records.len() / 2 < FEWEST_OF_A_PIECE {
        return convert_piece(alloc, gate, number, columns, records);
    }
    let (left, right) = records.split_at(records.len() / 2);
    let (first, second) = join(
        rt,
        || -> Result<List<Row>, NoMemory>
            requires { IsSync G.row × IsColumns columns.now }
            ensures { IfOk result (λ rows. (rows ≡ record_rows columns.entry.now left.entry.now)
                × All IsRow rows) }
        { convert_piece(alloc, gate, number, columns, left) },
        || -> Result<List<Row>, NoMemory>
            requires { IsSync G.row × (number < 4) × IsColumns columns.now }
            ensures { IfOk result (λ rows. (rows ≡ record_rows columns.entry.now right.entry.now)
                × All IsRow rows) }
        { convert_piece(alloc, gate, number + 1, columns, right) },
    );
    in_order(first, second)
}

/// The row of each record, in their order. Up to four contiguous pieces are converted side by
/// side, each of which arrives at the gate once before it begins.
pub fn convert_all<R: Threads + Sync, G: Gate>(
    rt: &R,
    alloc: Global,
    gate: &G,
    columns: &Columns,
    records: &List<List<Text>>,
) -> Result<List<Row>, NoMemory>
    requires { IsColumns columns.now }
    ensures rows { IfOk result (λ rows. rows ≡ record_rows columns.now records.now) }
    ensures valid { IfOk result (λ rows. All IsRow rows) }
{
    let records = records.as_slice();
    if records.len() / 4 < FEWEST_OF_A_PIECE {
        return convert_pair(rt, alloc, gate, 1, columns, records);
    }
    let (left, right) = records.split_at(records.len() / 2);
    let (first, second) = join(
        rt,
        || -> Result<List<Row>, NoMemory>
            requires { IsSync R.row × IsSync G.row × IsColumns columns.now }
            ensures { IfOk result (λ rows. (rows ≡ record_rows columns.entry.now left.entry.now)
                × All IsRow rows) }
        { convert_pair(rt, alloc, gate, 1, columns, left) },
        || -> Result<List<Row>, NoMemory>
            requires { IsSync R.row × IsSync G.row × IsColumns columns.now }
            ensures { IfOk result (λ rows. (rows ≡ record_rows columns.entry.now right.entry.now)
                × All IsRow rows) }
        { convert_pair(rt, alloc, gate, 3, columns, right) },
    );
    in_order(first, second)
}
