// What no clause says: that pieces run side by side, each of which arrives once.
ghost use Rattle.std.specs.Prelude.{IfOk};
ghost use Rattle.bl_value.specs.ValidColumns.{IsColumns};

use bl_header::{HeaderRefusal, read_header};
use bl_outside::{List, NoMemory, Text};
use bl_value::{Columns, Row};
use bl_workers::{Gate, OpenGate, convert_all};
use std::alloc::Global;
use std::sync::atomic::{AtomicU64, Ordering};

// How often the first piece looks for the second before it gives up.
const TURNS: u64 = 2_000_000_000;

// A gate that holds the first piece until the second arrives, and counts the pieces.
#[derive(Drop)]
struct HoldingGate {
    arrived: AtomicU64,
    second: AtomicU64,
    gave_up: AtomicU64,
}

impl HoldingGate {
    fn new() -> HoldingGate {
        HoldingGate {
            arrived: AtomicU64::new(0),
            second: AtomicU64::new(0),
            gave_up: AtomicU64::new(0),
        }
    }

    fn hold(&self) {
        for _ in 0..TURNS {
            if self.second.load(Ordering::SeqCst) != 0 {
                return;
            }
        }
        self.gave_up.store(1, Ordering::SeqCst);
    }
}

impl Gate for HoldingGate {
    fn arrive(&self, piece: u32) {
        self.arrived.fetch_add(1, Ordering::SeqCst);
        if piece == 2 {
            self.second.store(1, Ordering::SeqCst);
        }
        if piece == 1 {
            self.hold();
        }
    }
}

// `~id,n:Int`
fn id_and_number(alloc: Global) -> Result<Columns, HeaderRefusal>
    ensures { IfOk result IsColumns }
{
    let mut fields = List::new(alloc);
    fields.push(Text::of_str(alloc, "~id")?)?;
    fields.push(Text::of_str(alloc, "n:Int")?)?;
    read_header(alloc, &fields)
}

// Records `v0,0`, `v1,1` and so on.
fn numbered_records(alloc: Global, count: u32) -> Result<List<List<Text>>, NoMemory> {
    let mut records = List::new(alloc);
    for number in 0..count {
        let mut fields = List::new(alloc);
        fields.push(Text::of_str(alloc, format!(in alloc; "v{number}")?.as_str())?)?;
        fields.push(Text::of_str(alloc, format!(in alloc; "{number}")?.as_str())?)?;
        records.push(fields)?;
    }
    Ok(records)
}

// How many rows stand where their numbers say.
fn in_place(alloc: Global, rows: &List<Row>) -> Result<u32, NoMemory> {
    let mut count: u32 = 0;
    for row in rows.as_slice() {
        let expected = format!(in alloc; "v{count}")?;
        match row {
            Row::Vertex { id, .. } if id.as_slice() == expected.as_bytes() => {
                count = count.saturating_add(1);
            }
            _ => return Ok(count),
        }
    }
    Ok(count)
}

#[test]
fn rows_come_in_the_order_of_their_records(rt: HostRuntime) {
    let alloc = rt.alloc();
    let columns = id_and_number(alloc).expect(&rt, "memory");
    for count in [0, 1, 127, 128, 255, 256, 257, 1000] {
        let records = numbered_records(alloc, count).expect(&rt, "memory");
        let rows = convert_all(&rt, alloc, &OpenGate, &columns, &records).expect(&rt, "memory");
        assert_eq!(rt; rows.len(), count as usize);
        assert_eq!(rt; in_place(alloc, &rows).expect(&rt, "memory"), count);
    }
}

#[test]
fn pieces_run_side_by_side(rt: HostRuntime) {
    let alloc = rt.alloc();
    let columns = id_and_number(alloc).expect(&rt, "memory");
    let records = numbered_records(alloc, 1000).expect(&rt, "memory");
    let gate = HoldingGate::new();
    let rows = convert_all(&rt, alloc, &gate, &columns, &records).expect(&rt, "memory");
    assert_eq!(rt; in_place(alloc, &rows).expect(&rt, "memory"), 1000);
    assert_eq!(rt; gate.gave_up.load(Ordering::SeqCst), 0);
    assert_eq!(rt; gate.arrived.load(Ordering::SeqCst), 4);
}

#[test]
fn few_records_are_one_piece(rt: HostRuntime) {
    let alloc = rt.alloc();
    let columns = id_and_number(alloc).expect(&rt, "memory");
    let records = numbered_records(alloc, 100).expect(&rt, "memory");
    let gate = HoldingGate::new();
    gate.second.store(1, Ordering::SeqCst);
    let rows = convert_all(&rt, alloc, &gate, &columns, &records).expect(&rt, "memory");
    assert_eq!(rt; in_place(alloc, &rows).expect(&rt, "memory"), 100);
    assert_eq!(rt; gate.arrived.load(Ordering::SeqCst), 1);
}
