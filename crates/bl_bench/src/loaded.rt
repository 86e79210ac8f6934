// What a load of so many rows left.
ghost use Rattle.std.specs.Prelude.{◌≡◌, IfSome};
ghost use Rattle.bl_bench.specs.Committing.{Keeps};

use bl_engine::Engine;
use bl_outside::MemoryDisk;

/// The rows that were taken, the entries of the store, and the sizes of its graph.
#[derive(Clone, Copy)]
pub struct Loaded {
    pub rows: u32,
    pub entries: u64,
    pub vertices: u64,
    pub edges: u64,
    pub values: u64,
}

impl Loaded {
    /// What an engine has that took so many rows. None where it isn't ready.
    pub fn of(engine: &mut Engine<MemoryDisk>, rows: u32) -> Option<Loaded>
        ensures rows { IfSome result (λ loaded. loaded.rows ≡ rows) }
        ensures entries { IfSome result (λ loaded. loaded.entries ≡ engine.old.world.entries) }
        ensures keeps { IfSome result (λ loaded. Keeps engine.old.journal.disk loaded.entries) }
        ensures same { IfSome result (λ _. engine.new ≡ engine.old) }
    {
        if !engine.is_ready() {
            return None;
        }
        let entries = engine.seq();
        let Ok((vertices, edges, values)) = engine.sizes() else {
            return None;
        };
        Some(Loaded {
            rows,
            entries,
            vertices,
            edges,
            values,
        })
    }
}
