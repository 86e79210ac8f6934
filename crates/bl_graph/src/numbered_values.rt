// The values of one vertex or edge, by the numbers of their keys.
ghost use Rattle.std.specs.Prelude.{
  ◌≡◌,
  ◌==◌,
  ◌&&◌,
  ◌++◌,
  ◌∷◌,
  [],
  cond,
  false,
  nat_eq,
  not,
  length,
  filter,
  min,
  IfOk,
  OnOk,
  OnErr,
};
ghost use Rattle.std.specs.List.{list_any};
ghost use Rattle.std.specs.FinMap as map;
ghost use Rattle.std.specs.Ordering.{is_eq};
ghost use Rattle.bl_outside.specs.OrderedSet as set;
ghost use Rattle.bl_value.specs.Order.{value_cmp};
ghost use Rattle.bl_graph.specs.Admission.{is_among};
ghost use Rattle.bl_graph.specs.Held.{AreHeldOnce, values_of};
ghost use Rattle.bl_graph.specs.Numbered.{
  AreOnce,
  at_number,
  filled,
  nested,
  values_count,
  written,
};

use crate::{Copied, FEW, KeyedValues, ValueSet, is_among};
use bl_outside::{List, NoMemory};
use bl_value::{Value, compare};
use std::alloc::Global;
use std::marker::Model;

/// Each value with the number of its key, in the order in which they came while they are few, and
/// else by key.
#[derive(Drop)]
pub enum HeldValues {
    Few(Vec<(usize, Value)>),
    Many(KeyedValues),
}

/// Sets of values by number.
#[derive(Drop)]
pub struct NumberedValues {
    held: HeldValues,
}

impl Model for NumberedValues {
    ghost use Rattle.bl_graph.specs.Codes.{numbered_code};
    ghost use Rattle.bl_graph.specs.Graph.{Values};
    ghost use Rattle.bl_graph.specs.Held.{AreHeldOnce, values_of};
    ghost use Rattle.bl_graph.specs.Numbered.{ByNumber};

    ghost Value = { ByNumber Values };

    ghost coded = { numbered_code };

    ghost view = { λ a. values_of a.held };

    ghost invariant = { λ a. AreHeldOnce a.held };
}

impl NumberedValues {
    pub fn new(alloc: Global) -> NumberedValues
        ensures { result ≡ map.empty }
    {
        NumberedValues {
            held: HeldValues::Few(Vec::new(alloc)),
        }
    }

    pub fn has(&self, key: usize, value: &Value) -> bool
        ensures { result ≡ set.contains (at_number self.now key) value.now }
    {
        match &self.held {
            HeldValues::Few(few) => has_pair(few.as_slice(), key, value),
            HeldValues::Many(many) => match many.get(key) {
                Some(values) => values.contains(value),
                None => false,
            },
        }
    }

    /// Whether the key has no value.
    pub fn is_empty_at(&self, key: usize) -> bool
        ensures { result ≡ (set.len (at_number self.now key) == 0) }
    {
        match &self.held {
            HeldValues::Few(few) => !has_key(few.as_slice(), key),
            HeldValues::Many(many) => match many.get(key) {
                Some(values) => values.is_empty(),
                None => true,
            },
        }
    }

    /// Whether the key has a value other than the given ones.
    pub fn has_other(&self, key: usize, given: &List<Value>) -> bool
        ensures { result ≡ not (length
            (filter (λ value. not (is_among given.now value)) (set.items (at_number self.now key)))
            == 0) }
    {
        match &self.held {
            HeldValues::Few(few) => has_other_pair(few.as_slice(), key, given),
            HeldValues::Many(many) => match many.get(key) {
                Some(values) => values.has_other(given),
                None => false,
            },
        }
    }

    /// A copy of the values at the key, in order.
    pub fn ordered(&self, alloc: Global, key: usize) -> Result<ValueSet, NoMemory>
        ensures { IfOk result (λ values. values ≡ at_number self.now key) }
    {
        match &self.held {
            HeldValues::Few(few) => ordered_pairs(alloc, few.as_slice(), key),
            HeldValues::Many(many) => match many.get(key) {
                Some(values) => values.copied(alloc),
                None => Ok(ValueSet::new(alloc)),
            },
        }
    }

    /// How many values there are. A count past the largest number is that.
    pub fn count(&self) -> u64
        ensures { result ≡ min (values_count self.now) u64.MAX }
    {
        match &self.held {
            HeldValues::Few(few) => count_pairs(few.as_slice()),
            HeldValues::Many(many) => many.count(),
        }
    }

    pub fn insert(&mut self, alloc: Global, key: usize, value: &Value) -> Result<(), NoMemory>
        ensures ok { OnOk result (self.new
            ≡ map.insert self.old key (set.insert (at_number self.old key) value.now)) }
        ensures err { OnErr result (self.new ≡ self.old) }
    {
        if self.has(key, value) {
            return Ok(());
        }
        insert_new(alloc, &mut self.held, key, value)
    }

    /// Removes a value, and the key after its last one. It takes no memory.
    pub fn remove(&mut self, key: usize, value: &Value)
        ensures { self.new ≡ written self.old key
            (filled (set.remove (at_number self.old key) value.now)) }
    {
        remove_from(&mut self.held, key, value);
    }
}

impl Copied for NumberedValues {
    fn copied(&self, alloc: Global) -> Result<NumberedValues, NoMemory> {
        let held = match &self.held {
            HeldValues::Few(few) => HeldValues::Few(copy_pairs(alloc, few.as_slice())?),
            HeldValues::Many(many) => HeldValues::Many(many.copied(alloc)?),
        };
        Ok(NumberedValues { held })
    }
}

fn is_pair(pair: &(usize, Value), key: usize, value: &Value) -> bool
    ensures { result ≡ (nat_eq pair.now.0 key && is_eq (value_cmp pair.now.1 value.now)) }
{
    pair.0 == key && compare(&pair.1, value).is_eq()
}

fn has_pair(pairs: &[(usize, Value)], key: usize, value: &Value) -> bool
    ensures { result ≡ list_any (λ pair. nat_eq pair.0 key && is_eq (value_cmp pair.1 value.now))
        pairs.now }
{
    pairs.iter().any(|pair| is_pair(pair, key, value))
}

fn has_key(pairs: &[(usize, Value)], key: usize) -> bool
    ensures { result ≡ list_any (λ pair. nat_eq pair.0 key) pairs.now }
{
    pairs.iter().any(|pair| pair.0 == key)
}

fn has_other_pair(pairs: &[(usize, Value)], key: usize, given: &List<Value>) -> bool
    ensures { result ≡ list_any (λ pair. nat_eq pair.0 key && not (is_among given.now pair.1))
        pairs.now }
{
    pairs
        .iter()
        .any(|pair| pair.0 == key && !is_among(given, &pair.1))
}

fn count_pairs(pairs: &[(usize, Value)]) -> u64
    ensures { result ≡ length pairs.now }
{
    pairs.len() as u64
}

// The values at the key, in order.
fn ordered_pairs(alloc: Global, pairs: &[(usize, Value)], key: usize) -> Result<ValueSet, NoMemory>
    ensures { IfOk result (λ values. values ≡ at_number (nested pairs.now) key) }
{
    let mut values = ValueSet::new(alloc);
    for pair in pairs {
        insert_of(alloc, &mut values, pair, key)?;
    }
    Ok(values)
}

// Inserts the pair's value, if it stands at the key.
fn insert_of(
    alloc: Global,
    values: &mut ValueSet,
    pair: &(usize, Value),
    key: usize,
) -> Result<(), NoMemory>
    ensures { OnOk result (values.new
        ≡ cond (nat_eq pair.now.0 key) (set.insert values.old pair.now.1) values.old) }
{
    if pair.0 == key {
        values.insert(pair.1.copy(alloc)?)?;
    }
    Ok(())
}

// The pairs by their keys.
fn keyed_pairs(alloc: Global, pairs: &[(usize, Value)]) -> Result<KeyedValues, NoMemory>
    ensures { IfOk result (λ keyed. keyed ≡ nested pairs.now) }
{
    let mut keyed = KeyedValues::new(alloc);
    for pair in pairs {
        keyed.insert(pair.0, &pair.1)?;
    }
    Ok(keyed)
}

fn copy_pairs(alloc: Global, pairs: &[(usize, Value)]) -> Result<Vec<(usize, Value)>, NoMemory>
    ensures { IfOk result (λ copy. copy.items ≡ pairs.now) }
{
    let mut copy = Vec::with_capacity(alloc, pairs.len())?;
    for pair in pairs {
        copy.push((pair.0, pair.1.copy(alloc)?))?;
    }
    Ok(copy)
}

// Adds a value that isn't there.
fn insert_new(
    alloc: Global,
    held: &mut HeldValues,
    key: usize,
    value: &Value,
) -> Result<(), NoMemory>
    ensures ok { OnOk result (values_of held.new
        ≡ map.insert (values_of held.old) key
        (set.insert (at_number (values_of held.old) key) value.now)) }
    ensures err { OnErr result (values_of held.new ≡ values_of held.old) }
    ensures once { AreHeldOnce held.old →
        set.contains (at_number (values_of held.old) key) value.now ≡ false → AreHeldOnce held.new }
{
    match held {
        HeldValues::Few(few) => {
            if few.len() < FEW {
                push_exact(few, (key, value.copy(alloc)?))?;
            } else {
                let mut many = keyed_pairs(alloc, few.as_slice())?;
                many.insert(key, value)?;
                *held = HeldValues::Many(many);
            }
            Ok(())
        }
        HeldValues::Many(many) => many.insert(key, value),
    }
}

fn remove_from(held: &mut HeldValues, key: usize, value: &Value)
    ensures left { values_of held.new
        ≡ written (values_of held.old) key
        (filled (set.remove (at_number (values_of held.old) key) value.now)) }
    ensures once { AreHeldOnce held.old → AreHeldOnce held.new }
{
    match held {
        HeldValues::Few(few) => few.retain(|pair| !is_pair(pair, key, value)),
        HeldValues::Many(many) => many.remove(key, value),
    }
}

// Pushes a pair. The first of them take no more room than they need.
fn push_exact(pairs: &mut Vec<(usize, Value)>, pair: (usize, Value)) -> Result<(), NoMemory>
    ensures ok { OnOk result (pairs.new.items ≡ pairs.old.items ++ pair ∷ []) }
    ensures err { OnErr result (pairs.new.items ≡ pairs.old.items) }
{
    if pairs.len() < 4 {
        pairs.reserve_exact(1)?;
    }
    pairs.push(pair)?;
    Ok(())
}
