// Copies with memory of their own.
ghost use Rattle.std.specs.Prelude.{◌≡◌, IfOk};
ghost use Rattle.bl_graph.specs.Numbered.{by_number};

use bl_outside::NoMemory;
use std::alloc::Global;
use std::collections::BTreeMap;

/// A thing of which there may be a copy.
pub trait Copied: Drop {
    fn copied(&self, alloc: Global) -> Result<Self, NoMemory>
        ensures { IfOk result (λ copy. copy ≡ self.now) };
}

/// A copy of all entries.
pub fn copy_map<V: Copied>(
    alloc: Global,
    map: &BTreeMap<usize, V>,
) -> Result<BTreeMap<usize, V>, NoMemory>
    ensures { IfOk result (λ copy. by_number copy.entries ≡ by_number map.now.entries) }
{
    let mut copy = BTreeMap::new(alloc);
    for (key, value) in map {
        copy.insert(*key, value.copied(alloc)?)?;
    }
    Ok(copy)
}
