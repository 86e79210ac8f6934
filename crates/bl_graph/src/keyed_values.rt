// The values of one vertex or edge with many of them, by the numbers of their keys.
ghost use Rattle.std.specs.Prelude.{◌≡◌, ◌==◌, false, min, IfOk, OnOk, OnErr};
ghost use Rattle.std.specs.FinMap as map;
ghost use Rattle.bl_outside.specs.OrderedSet as set;
ghost use Rattle.std.specs.Option.{option_copied, unwrap_or};
ghost use Rattle.bl_graph.specs.Numbered.{
  at_number,
  by_number,
  filled,
  values_count,
  without,
  written,
};

use crate::{Copied, ValueSet, copy_map};
use bl_outside::NoMemory;
use bl_value::Value;
use std::alloc::Global;
use std::collections::BTreeMap;
use std::marker::Model;

/// Sets of values by number, in order.
#[derive(Drop)]
pub struct KeyedValues {
    alloc: Global,
    keys: BTreeMap<usize, ValueSet>,
}

impl Model for KeyedValues {
    ghost use Rattle.std.specs.FinMap as map;
    ghost use Rattle.bl_graph.specs.Codes.{numbered_code};
    ghost use Rattle.bl_graph.specs.Graph.{Values};
    ghost use Rattle.bl_graph.specs.Numbered.{ByNumber};

    ghost Value = { ByNumber Values };

    ghost coded = { numbered_code };

    ghost view = { λ a. map.from_entries a.keys.entries };
}

impl KeyedValues {
    pub fn new(alloc: Global) -> KeyedValues
        ensures { result ≡ map.empty }
    {
        KeyedValues {
            alloc,
            keys: BTreeMap::new(alloc),
        }
    }

    /// How many values there are, counted in one pass. A count past the largest number is that.
    pub fn count(&self) -> u64
        ensures { result ≡ min (values_count self.now) u64.MAX }
    {
        let mut count: u64 = 0;
        for values in self.keys.values() {
            count = count.saturating_add(values.len());
        }
        count
    }

    pub fn get(&self, key: usize) -> Option<&ValueSet>
        ensures { unwrap_or (option_copied result) set.empty ≡ at_number self.now key }
    {
        self.keys.get(&key)
    }

    pub fn insert(&mut self, key: usize, value: &Value) -> Result<(), NoMemory>
        ensures ok { OnOk result (self.new
            ≡ map.insert self.old key (set.insert (at_number self.old key) value.now)) }
        ensures err { OnErr result (self.new ≡ self.old) }
    {
        let copy = value.copy(self.alloc)?;
        match self.keys.get_mut(&key) {
            Some(values) => values.insert(copy),
            None => {
                let values = ValueSet::of(self.alloc, copy)?;
                self.keys.insert(key, values)?;
                Ok(())
            }
        }
    }

    /// Removes a value, and the key after its last one. It takes no memory.
    pub fn remove(&mut self, key: usize, value: &Value)
        ensures { self.new ≡ written self.old key
            (filled (set.remove (at_number self.old key) value.now)) }
    {
        if !remove_at(&mut self.keys, key, value) {
            return;
        }
        self.keys.remove(&key);
    }
}

impl Copied for KeyedValues {
    fn copied(&self, alloc: Global) -> Result<KeyedValues, NoMemory> {
        Ok(KeyedValues {
            alloc,
            keys: copy_map(alloc, &self.keys)?,
        })
    }
}

// Removes a value at a key. True where none is left there.
fn remove_at(keys: &mut BTreeMap<usize, ValueSet>, key: usize, value: &Value) -> bool
    ensures empty { result ≡ (set.len
        (set.remove (at_number (by_number keys.old.entries) key) value.now) == 0) }
    ensures left { result ≡ false →
        by_number keys.new.entries ≡ map.insert (by_number keys.old.entries) key
        (set.remove (at_number (by_number keys.old.entries) key) value.now) }
    ensures others { without (by_number keys.new.entries) key
        ≡ without (by_number keys.old.entries) key }
{
    match keys.get_mut(&key) {
        Some(values) => {
            values.remove(value);
            values.is_empty()
        }
        None => true,
    }
}
