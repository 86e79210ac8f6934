// A set of values.
ghost use Rattle.std.specs.Prelude.{◌≡◌, ◌==◌, length, filter, not, IfOk, OnOk, OnErr};
ghost use Rattle.bl_outside.specs.OrderedSet as set;
ghost use Rattle.bl_graph.specs.Admission.{is_among};

use crate::Copied;
use bl_outside::{List, NoMemory};
use bl_value::{Value, compare};
use std::alloc::Global;
use std::collections::BTreeSet;
use std::collections::btree_set::Iter;
use std::marker::Model;

pub fn is_among(values: &List<Value>, value: &Value) -> bool
    ensures { result ≡ is_among values.now value.now }
{
    values
        .as_slice()
        .iter()
        .any(|other| compare(other, value).is_eq())
}

/// Values, each once, in order.
#[derive(Drop)]
pub struct ValueSet {
    values: BTreeSet<Value>,
}

impl Model for ValueSet {
    ghost use Rattle.bl_outside.specs.OrderedSet as set;
    ghost use Rattle.bl_graph.specs.Codes.{values_code};
    ghost use Rattle.bl_graph.specs.Graph.{Values};

    ghost Value = { Values };

    ghost coded = { values_code };

    ghost view = { λ a. set.from_list a.values.keys };
}

impl ValueSet {
    pub fn new(alloc: Global) -> ValueSet
        ensures { result ≡ set.empty }
    {
        ValueSet {
            values: BTreeSet::new(alloc),
        }
    }

    /// The set of one value.
    pub fn of(alloc: Global, value: Value) -> Result<ValueSet, NoMemory>
        ensures { IfOk result (λ it. it ≡ set.insert set.empty value) }
    {
        let mut it = ValueSet::new(alloc);
        it.insert(value)?;
        Ok(it)
    }

    pub fn contains(&self, value: &Value) -> bool
        ensures { result ≡ set.contains self.now value.now }
    {
        self.values.contains(value)
    }

    pub fn insert(&mut self, value: Value) -> Result<(), NoMemory>
        ensures ok { OnOk result (self.new ≡ set.insert self.old value) }
        ensures err { OnErr result (self.new ≡ self.old) }
    {
        self.values.insert(value)?;
        Ok(())
    }

    pub fn remove(&mut self, value: &Value)
        ensures { self.new ≡ set.remove self.old value.now }
    {
        self.values.remove(value);
    }

    pub fn len(&self) -> u64
        ensures { result ≡ set.len self.now }
    {
        self.values.len() as u64
    }

    pub fn is_empty(&self) -> bool
        ensures { result ≡ (set.len self.now == 0) }
    {
        self.values.len() == 0
    }

    /// Whether a value other than the given ones is there.
    pub fn has_other(&self, given: &List<Value>) -> bool
        ensures { result ≡ not (length
            (filter (λ value. not (is_among given.now value)) (set.items self.now)) == 0) }
    {
        for value in self.iter() {
            if !is_among(given, value) {
                return true;
            }
        }
        false
    }

    /// The values in order.
    pub fn iter(&self) -> Iter<'_, Value>
        ensures { result ≡ set.items self.now }
    {
        self.values.iter()
    }
}

impl Copied for ValueSet {
    fn copied(&self, alloc: Global) -> Result<ValueSet, NoMemory> {
        let mut copy = ValueSet::new(alloc);
        for value in self.values.iter() {
            copy.insert(value.copy(alloc)?)?;
        }
        Ok(copy)
    }
}
