// The vertices, or the edges, by their ids.
ghost use Rattle.std.specs.Prelude.{
  ◌≡◌,
  ◌==◌,
  ◌≤◌,
  cond,
  true,
  nat_eq,
  not,
  min,
  is_some,
  slice_get,
  None,
  IfSome,
  IfNone,
  IfOk,
  OnOk,
  OnErr,
};
ghost use Rattle.std.specs.Cmp.Lexicographic.{pointwise};
ghost use Rattle.std.specs.Map.{values_of};
ghost use Rattle.bl_outside.specs.OrderedSet as set;
ghost use Rattle.indexmap.specs.IndexMap.{insert_entry};
ghost use Rattle.bl_graph.specs.Numbered.{values_count};
ghost use Rattle.bl_graph.specs.Owners.{
  AreSame,
  IsPlace,
  IsSet,
  bare,
  found,
  with_ends,
  with_label,
  with_value,
  without_value,
};
ghost use Rattle.bl_graph.specs.Sizes.{total};

use crate::{Copied, NumberedValues, Numbers, Seeded};
use bl_outside::{NoMemory, Text};
use bl_value::Value;
use indexmap::IndexMap;
use std::alloc::Global;

/// What stands at an id: the labels of a vertex or the ends of an edge, and the values by the
/// numbers of their keys. Nothing need be said of an id that has a place.
#[derive(Drop)]
pub struct Owner<X: Drop> {
    pub own: X,
    pub values: NumberedValues,
}

/// The numbers of an edge's label and of its two ends.
#[derive(Clone, Copy)]
pub struct Ends {
    pub label: u32,
    pub from: u32,
    pub to: u32,
}

/// What an id is, by its place.
pub type Owners<X> = IndexMap<Text, Owner<X>, Seeded>;

impl Copied for Option<Ends> {
    fn copied(&self, _: Global) -> Result<Option<Ends>, NoMemory> {
        Ok(*self)
    }
}

/// The place of an id. The guess is tried first.
pub fn find_place<X: Drop>(owners: &Owners<X>, id: &Text, guess: usize) -> Option<usize>
    ensures there { IfSome result (IsPlace owners.now.entries id.now) }
    ensures missing { IfNone result (found owners.now.entries id.now ≡ None) }
{
    if is_at(owners, id, guess) {
        return Some(guess);
    }
    owners.get_index_of(id)
}

// Whether the id has this place.
fn is_at<X: Drop>(owners: &Owners<X>, id: &Text, place: usize) -> bool
    ensures { result ≡ true → IsPlace owners.now.entries id.now place }
{
    match owners.get_index(place) {
        Some((text, _)) => text == id,
        None => false,
    }
}

/// The place of an id, which is the next one where it had none. The guess is tried first. Places
/// stay.
pub fn place_of<X: Drop>(
    alloc: Global,
    owners: &mut Owners<X>,
    id: &Text,
    guess: usize,
    own: X,
) -> Result<usize, NoMemory>
    ensures place { IfOk result (IsPlace owners.new.entries id.now) }
    ensures same { AreSame (bare own) owners.old.entries owners.new.entries }
{
    if let Some(place) = find_place(owners, id, guess) {
        return Ok(place);
    }
    let owner = Owner {
        own,
        values: NumberedValues::new(alloc),
    };
    Ok(owners.insert_full(id.copy(alloc)?, owner)?.0)
}

/// Adds a value at a key.
pub fn insert_value<X: Drop>(
    alloc: Global,
    owners: &mut Owners<X>,
    place: usize,
    key: usize,
    value: &Value,
) -> Result<(), NoMemory>
    ensures ok { OnOk result (IfSome (slice_get owners.old.entries place)
        (λ owner. IsSet owners.old.entries owners.new.entries owner.0
        (with_value owner.1 key value.now))) }
    ensures err { OnErr result (IfSome (slice_get owners.old.entries place)
        (λ owner. IsSet owners.old.entries owners.new.entries owner.0 owner.1)) }
{
    match owners.get_index_mut(place) {
        Some(owner) => owner.values.insert(alloc, key, value),
        None => Ok(()),
    }
}

/// Removes a value at a key. It takes no memory.
pub fn remove_value<X: Drop>(owners: &mut Owners<X>, place: usize, key: usize, value: &Value)
    ensures { IfSome (slice_get owners.old.entries place)
        (λ owner. IsSet owners.old.entries owners.new.entries owner.0
        (without_value owner.1 key value.now)) }
{
    if let Some(owner) = owners.get_index_mut(place) {
        owner.values.remove(key, value);
    }
}

/// Adds a label.
pub fn insert_label(
    alloc: Global,
    vertices: &mut Owners<Numbers>,
    place: usize,
    label: usize,
) -> Result<(), NoMemory>
    ensures ok { OnOk result (IfSome (slice_get vertices.old.entries place)
        (λ owner. IsSet vertices.old.entries vertices.new.entries owner.0
        (with_label owner.1 label))) }
    ensures err { OnErr result (IfSome (slice_get vertices.old.entries place)
        (λ owner. IsSet vertices.old.entries vertices.new.entries owner.0 owner.1)) }
{
    match vertices.get_index_mut(place) {
        Some(vertex) => vertex.own.insert(alloc, label),
        None => Ok(()),
    }
}

/// Gives an edge its label and its ends.
pub fn set_ends(edges: &mut Owners<Option<Ends>>, place: usize, ends: Ends)
    ensures { IfSome (slice_get edges.old.entries place)
        (λ owner. IsSet edges.old.entries edges.new.entries owner.0 (with_ends owner.1 ends)) }
{
    if let Some(edge) = edges.get_index_mut(place) {
        edge.own = Some(ends);
    }
}

/// All of them, with memory of their own.
pub fn copy_owners<X: Copied>(
    alloc: Global,
    seeded: Seeded,
    owners: &Owners<X>,
) -> Result<Owners<X>, NoMemory>
    ensures { IfOk result (λ copy. copy.entries ≡ owners.now.entries) }
{
    let mut copy = IndexMap::with_hasher(alloc, seeded);
    for (id, owner) in owners.iter() {
        insert_copy(alloc, &mut copy, id, owner)?;
    }
    Ok(copy)
}

fn insert_copy<X: Copied>(
    alloc: Global,
    copy: &mut Owners<X>,
    id: &Text,
    owner: &Owner<X>,
) -> Result<(), NoMemory>
    ensures { OnOk result (copy.new.entries
        ≡ insert_entry (pointwise nat_eq) copy.old.entries id.now owner.now) }
{
    let it = Owner {
        own: owner.own.copied(alloc)?,
        values: owner.values.copied(alloc)?,
    };
    copy.insert(id.copy(alloc)?, it)?;
    Ok(())
}

/// How many values there are. A count past the largest number is that.
pub fn count_values<X: Drop>(owners: &Owners<X>) -> u64
    ensures { result ≡ min (total (λ owner. values_count owner.values)
        (values_of owners.now.entries)) u64.MAX }
{
    let mut count: u64 = 0;
    for owner in owners.values() {
        count = count.saturating_add(owner.values.count());
    }
    count
}

/// How many vertices have a label.
pub fn count_vertices(vertices: &Owners<Numbers>) -> u64
    ensures { result ≡ total (λ owner. cond (not (set.len owner.own == 0)) 1 0)
        (values_of vertices.now.entries) }
{
    let mut count: u64 = 0;
    for vertex in vertices.values() {
        count += one_if(!vertex.own.is_empty());
    }
    count
}

/// How many edges have ends.
pub fn count_edges(edges: &Owners<Option<Ends>>) -> u64
    ensures { result ≡ total (λ owner. cond (is_some owner.own) 1 0) (values_of edges.now.entries) }
{
    let mut count: u64 = 0;
    for edge in edges.values() {
        count += one_if(edge.own.is_some());
    }
    count
}

fn one_if(test: bool) -> u64
    ensures one { result ≡ cond test 1 0 }
    ensures small { result ≤ 1 }
{
    if test { 1 } else { 0 }
}
