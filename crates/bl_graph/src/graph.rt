// The property graph, and the change applied.
ghost use Rattle.std.specs.Prelude.{◌≡◌, true, min, IfOk, OnOk, OnErr};
ghost use Rattle.std.specs.FinMap as map;
ghost use Rattle.bl_graph.specs.Sizes.{values_count};
ghost use Rattle.bl_graph.specs.ValidChanges.{HasValidValues};
ghost use Rattle.bl_graph.specs.ValidGraph.{IsValidGraph};
ghost use Rattle.std.specs.Option.{option_map};
ghost use Rattle.bl_graph.specs.Found.{ends_found};
ghost use Rattle.bl_graph.specs.Graph.{
  empty,
  has_owner,
  has_vertex,
  keys_in,
  labels_of,
  edge_of,
  properties,
};
ghost use Rattle.bl_graph.specs.Replay.{IsAfterFront, after, after_one, fits, may_take};

use crate::owner::{find_place, insert_label, insert_value, place_of, remove_value, set_ends};
use crate::{FoundEdge, FoundKey, FoundValues, FoundVertex, Seeded, Tables};
use bl_outside::{List, NoMemory, Text};
use bl_value::{Change, Side, Value};
use std::alloc::Global;
use std::marker::Model;

/// A property graph. Contracts see it as finite maps.
///
/// Ids and names are numbered once, and all else speaks of them by number. An id has a place from
/// the first change on that names it. Of a place of which nothing is said the maps say nothing.
#[derive(Drop)]
pub struct Graph {
    tables: Tables,
}

impl Model for Graph {
    ghost use Rattle.bl_graph.specs.Codes.{graph_code};
    ghost use Rattle.bl_graph.specs.Graph.{Graph as Maps};
    ghost use Rattle.bl_graph.specs.Owners.{graph_of, IsSound};

    ghost Value = { Maps };

    ghost coded = { graph_code };

    ghost view = { λ g. graph_of g.tables.names g.tables.vertices.entries g.tables.edges.entries };

    ghost invariant = { λ g. IsSound g.tables.names g.tables.vertices.entries
        g.tables.edges.entries };
}

impl Graph {
    /// The graph without anything. It takes no memory. Texts are hashed with the seed; where they
    /// come from others it is to be one that those can't know.
    pub fn empty(alloc: Global, seed: u128) -> Graph
        ensures empty { result ≡ empty }
        ensures valid { IsValidGraph result }
        ensures values { HasValidValues result }
    {
        Graph::nothing(alloc, Seeded::new(seed))
    }

    fn nothing(alloc: Global, seeded: Seeded) -> Graph
        ensures { result ≡ empty }
    {
        Graph {
            tables: Tables::new(alloc, seeded),
        }
    }

    /// A graph with memory of its own.
    pub fn copy(&self) -> Result<Graph, NoMemory>
        ensures { IfOk result (λ copy. copy ≡ self.now) }
    {
        Ok(Graph {
            tables: self.tables.copied()?,
        })
    }

    pub(crate) fn allocator(&self) -> Global {
        self.tables.alloc
    }

    /// Whether the vertex is there. It takes no memory.
    pub fn has_vertex(&self, id: &Text) -> bool
        ensures { result ≡ has_vertex self.now id.now }
    {
        self.vertex(id).is_known
    }

    /// The label and the two ends, from and to, of an edge. It takes no memory.
    pub fn edge(&self, id: &Text) -> Option<(&Text, &Text, &Text)>
        ensures { option_map (λ parts.
            record { label = parts.0.now; from = parts.1.now; to = parts.2.now }) result
            ≡ edge_of self.now id.now }
    {
        let ends = self.found_edge(id).ends?;
        Some((ends.label, ends.from, ends.to))
    }

    /// How many vertices, edges and values there are. They are counted in one pass. It takes no
    /// memory.
    pub fn sizes(&self) -> (u64, u64, u64)
        ensures vertices { result.0 ≡ map.len self.now.labels }
        ensures edges { result.1 ≡ map.len self.now.edges }
        ensures values { result.2 ≡ min (values_count self.now) u64.MAX }
    {
        // `len` is called for its clause that names differ, which the proof cites.
        let _names = self.tables.names.len();
        self.tables.sizes()
    }

    /// What stands at a vertex.
    pub(crate) fn vertex(&self, id: &Text) -> FoundVertex<'_>
        ensures known { result.is_known ≡ has_vertex self.now id.now }
        ensures labels { result.labels ≡ labels_of self.now id.now }
        ensures values { result.values ≡ keys_in self.now.vertex_values id.now }
    {
        // `len` is called for its clause that names differ, which the proof cites.
        let _names = self.tables.names.len();
        self.tables.vertex(id)
    }

    /// What stands at an edge.
    pub(crate) fn found_edge(&self, id: &Text) -> FoundEdge<'_>
        ensures ends { ends_found result ≡ edge_of self.now id.now }
        ensures values { result.values ≡ keys_in self.now.edge_values id.now }
    {
        self.tables.edge(id)
    }

    fn found_values(&self, side: Side, id: &Text) -> FoundValues<'_>
        ensures { result ≡ keys_in (properties self.now side) id.now }
    {
        match side {
            Side::Vertex => self.vertex(id).values,
            Side::Edge => self.found_edge(id).values,
        }
    }

    fn has_owner(&self, side: Side, id: &Text) -> bool
        ensures { result ≡ has_owner self.now side id.now }
    {
        match side {
            Side::Vertex => self.has_vertex(id),
            Side::Edge => self.found_edge(id).ends.is_some(),
        }
    }

    /// Whether the change may be applied. It takes no memory.
    pub fn fits(&self, change: &Change) -> bool
        ensures { result ≡ fits self.now change.now }
    {
        match change {
            Change::AddLabel { id, label } => !self.vertex(id).labels.contains(label),
            Change::AddEdge { id, from, to, .. } => {
                self.found_edge(id).ends.is_none() && self.has_vertex(from) && self.has_vertex(to)
            }
            Change::AddValue {
                side,
                id,
                key,
                value,
            } => {
                let there = self.found_values(*side, id).at(key);
                self.has_owner(*side, id) && !there.contains(value) && may_take(*side, &there)
            }
            Change::RemoveValue {
                side,
                id,
                key,
                value,
            } => self.found_values(*side, id).at(key).contains(value),
        }
    }

    /// Applies a change; one that fits keeps the graph valid. After want of memory the graph is as
    /// it was. A removal takes no memory.
    pub fn apply(&mut self, change: &Change) -> Result<(), NoMemory>
        ensures ok { OnOk result (self.new ≡ after_one self.old change.now) }
        ensures err { OnErr result (self.new ≡ self.old) }
        ensures valid { OnOk result (fits self.old change.now ≡ true → IsValidGraph self.old →
            IsValidGraph self.new) }
    {
        let mut guess = 0;
        self.make(change, &mut guess)
    }

    /// Applies changes from left to right. After want of memory a front of them is applied.
    pub fn apply_all(&mut self, changes: &List<Change>) -> Result<(), NoMemory>
        ensures ok { OnOk result (self.new ≡ after self.old changes.now) }
        ensures err { OnErr result (IsAfterFront self.old changes.now self.new) }
    {
        let mut guess = 0;
        for change in changes.as_slice() {
            self.make(change, &mut guess)?;
        }
        Ok(())
    }

    // The owner's place is guessed, and the guess for the next change is this one's place.
    fn make(&mut self, change: &Change, guess: &mut usize) -> Result<(), NoMemory>
        ensures ok { OnOk result (self.new ≡ after_one self.old change.now) }
        ensures err { OnErr result (self.new ≡ self.old) }
    {
        match change {
            Change::AddLabel { id, label } => self.add_label(id, label, guess),
            Change::AddEdge {
                id,
                label,
                from,
                to,
            } => self.add_edge(id, label, from, to, guess),
            Change::AddValue {
                side,
                id,
                key,
                value,
            } => self.add_value(*side, id, key, value, guess),
            Change::RemoveValue {
                side,
                id,
                key,
                value,
            } => {
                self.remove_value(*side, id, key, value, guess);
                Ok(())
            }
        }
    }

    fn add_label(&mut self, id: &Text, label: &Text, guess: &mut usize) -> Result<(), NoMemory>
        ensures ok { OnOk result (self.new
            ≡ after_one self.old (Change.AddLabel id.now label.now)) }
        ensures err { OnErr result (self.new ≡ self.old) }
    {
        let (place, label) = self.tables.vertex_named(id, label, *guess)?;
        *guess = place;
        insert_label(self.tables.alloc, &mut self.tables.vertices, place, label)
    }

    fn add_edge(
        &mut self,
        id: &Text,
        label: &Text,
        from: &Text,
        to: &Text,
        guess: &mut usize,
    ) -> Result<(), NoMemory>
        ensures ok { OnOk result (self.new
            ≡ after_one self.old (Change.AddEdge id.now label.now from.now to.now)) }
        ensures err { OnErr result (self.new ≡ self.old) }
    {
        let ends = self.tables.ends_of(label, from, to)?;
        let place = place_of(self.tables.alloc, &mut self.tables.edges, id, *guess, None)?;
        *guess = place;
        set_ends(&mut self.tables.edges, place, ends);
        Ok(())
    }

    fn add_value(
        &mut self,
        side: Side,
        id: &Text,
        key: &Text,
        value: &Value,
        guess: &mut usize,
    ) -> Result<(), NoMemory>
        ensures ok { OnOk result (self.new
            ≡ after_one self.old (Change.AddValue side id.now key.now value.now)) }
        ensures err { OnErr result (self.new ≡ self.old) }
    {
        match side {
            Side::Vertex => self.add_vertex_value(id, key, value, guess),
            Side::Edge => self.add_edge_value(id, key, value, guess),
        }
    }

    fn add_vertex_value(
        &mut self,
        id: &Text,
        key: &Text,
        value: &Value,
        guess: &mut usize,
    ) -> Result<(), NoMemory>
        ensures ok { OnOk result (self.new
            ≡ after_one self.old (Change.AddValue Side.Vertex id.now key.now value.now)) }
        ensures err { OnErr result (self.new ≡ self.old) }
    {
        let (place, key) = self.tables.vertex_named(id, key, *guess)?;
        *guess = place;
        insert_value(
            self.tables.alloc,
            &mut self.tables.vertices,
            place,
            key,
            value,
        )
    }

    fn add_edge_value(
        &mut self,
        id: &Text,
        key: &Text,
        value: &Value,
        guess: &mut usize,
    ) -> Result<(), NoMemory>
        ensures ok { OnOk result (self.new
            ≡ after_one self.old (Change.AddValue Side.Edge id.now key.now value.now)) }
        ensures err { OnErr result (self.new ≡ self.old) }
    {
        let (place, key) = self.tables.edge_named(id, key, *guess)?;
        *guess = place;
        insert_value(self.tables.alloc, &mut self.tables.edges, place, key, value)
    }

    fn remove_value(&mut self, side: Side, id: &Text, key: &Text, value: &Value, guess: &mut usize)
        ensures { self.new ≡ after_one self.old (Change.RemoveValue side id.now key.now value.now) }
    {
        match side {
            Side::Vertex => self.remove_vertex_value(id, key, value, guess),
            Side::Edge => self.remove_edge_value(id, key, value, guess),
        }
    }

    fn remove_vertex_value(&mut self, id: &Text, key: &Text, value: &Value, guess: &mut usize)
        ensures { self.new ≡ after_one self.old
            (Change.RemoveValue Side.Vertex id.now key.now value.now) }
    {
        let Some(key) = self.tables.names.number_of(key) else {
            return;
        };
        let Some(place) = find_place(&self.tables.vertices, id, *guess) else {
            return;
        };
        *guess = place;
        remove_value(&mut self.tables.vertices, place, key, value);
    }

    fn remove_edge_value(&mut self, id: &Text, key: &Text, value: &Value, guess: &mut usize)
        ensures { self.new ≡ after_one self.old
            (Change.RemoveValue Side.Edge id.now key.now value.now) }
    {
        let Some(key) = self.tables.names.number_of(key) else {
            return;
        };
        let Some(place) = find_place(&self.tables.edges, id, *guess) else {
            return;
        };
        *guess = place;
        remove_value(&mut self.tables.edges, place, key, value);
    }
}

// Whether one value more may stand at the key.
fn may_take(side: Side, there: &FoundKey) -> bool
    ensures { result ≡ may_take side there.now }
{
    match side {
        Side::Vertex => true,
        Side::Edge => there.is_empty(),
    }
}
