// What a graph holds.
ghost use Rattle.std.specs.Prelude.{
  ◌≡◌,
  ◌==◌,
  ◌+◌,
  [],
  cond,
  nat_eq,
  not,
  min,
  is_some,
  position,
  slice_get,
  Some,
  IfOk,
};
ghost use Rattle.std.specs.Cmp.Lexicographic.{pointwise};
ghost use Rattle.std.specs.FinMap as map;
ghost use Rattle.std.specs.List.{IsDistinct};
ghost use Rattle.std.specs.Map.{keys_of, values_of};
ghost use Rattle.std.specs.Option.{option_copied, option_map, unwrap_or};
ghost use Rattle.bl_outside.specs.OrderedSet as set;
ghost use Rattle.bl_graph.specs.Found.{ends_found, ends_in};
ghost use Rattle.bl_graph.specs.Grown.{IsGrown};
ghost use Rattle.bl_graph.specs.Numbered.{named, values_count};
ghost use Rattle.bl_graph.specs.Owners.{IsPlace, ends_of, ends_said, no_edge, no_vertex, owner_at};
ghost use Rattle.bl_graph.specs.Sizes.{total};

use crate::owner::{copy_owners, count_edges, count_values, count_vertices, place_of};
use crate::{
    Ends, FoundEdge, FoundEnds, FoundLabels, FoundValues, FoundVertex, Names, NumberedValues,
    Numbers, Owners, Seeded,
};
use bl_outside::{NoMemory, Text};
use indexmap::IndexMap;
use std::alloc::Global;

/// Labels and keys with their numbers, and vertices and edges with their places.
#[derive(Drop)]
pub struct Tables {
    pub alloc: Global,
    pub seeded: Seeded,
    pub names: Names,
    pub vertices: Owners<Numbers>,
    pub edges: Owners<Option<Ends>>,
}

impl Tables {
    pub fn new(alloc: Global, seeded: Seeded) -> Tables
        ensures names { result.names ≡ [] }
        ensures vertices { result.vertices.entries ≡ [] }
        ensures edges { result.edges.entries ≡ [] }
    {
        Tables {
            alloc,
            seeded,
            names: Names::new(alloc, seeded),
            vertices: IndexMap::with_hasher(alloc, seeded),
            edges: IndexMap::with_hasher(alloc, seeded),
        }
    }

    pub fn copied(&self) -> Result<Tables, NoMemory>
        ensures names { IfOk result (λ copy. copy.names ≡ self.now.names) }
        ensures vertices { IfOk result (λ copy. copy.vertices.entries ≡ self.now.vertices.entries) }
        ensures edges { IfOk result (λ copy. copy.edges.entries ≡ self.now.edges.entries) }
    {
        Ok(Tables {
            alloc: self.alloc,
            seeded: self.seeded,
            names: self.names.copied()?,
            vertices: copy_owners(self.alloc, self.seeded, &self.vertices)?,
            edges: copy_owners(self.alloc, self.seeded, &self.edges)?,
        })
    }

    /// What stands at a vertex.
    pub fn vertex(&self, id: &Text) -> FoundVertex<'_>
        ensures known { result.is_known
            ≡ not (set.len (owner_at no_vertex self.now.vertices.entries id.now).own == 0) }
        ensures labels { result.labels
            ≡ named self.now.names (owner_at no_vertex self.now.vertices.entries id.now).own }
        ensures values { result.values
            ≡ named self.now.names (owner_at no_vertex self.now.vertices.entries id.now).values }
    {
        match self.vertices.get(id) {
            Some(vertex) => FoundVertex {
                is_known: !vertex.own.is_empty(),
                labels: self.labels(Some(&vertex.own)),
                values: self.values(Some(&vertex.values)),
            },
            None => FoundVertex {
                is_known: false,
                labels: self.labels(None),
                values: self.values(None),
            },
        }
    }

    /// What stands at an edge.
    pub fn edge(&self, id: &Text) -> FoundEdge<'_>
        ensures ends { ends_found result
            ≡ ends_said self.now.names (keys_of self.now.vertices.entries)
            (owner_at no_edge self.now.edges.entries id.now) }
        ensures values { result.values
            ≡ named self.now.names (owner_at no_edge self.now.edges.entries id.now).values }
    {
        match self.edges.get(id) {
            Some(edge) => FoundEdge {
                ends: self.texts_of(edge.own),
                values: self.values(Some(&edge.values)),
            },
            None => FoundEdge {
                ends: None,
                values: self.values(None),
            },
        }
    }

    fn labels<'a>(&'a self, numbers: Option<&'a Numbers>) -> FoundLabels<'a>
        ensures { result ≡ named self.now.names
            (unwrap_or (option_copied numbers.entry) map.empty) }
    {
        FoundLabels {
            names: &self.names,
            numbers,
        }
    }

    fn values<'a>(&'a self, values: Option<&'a NumberedValues>) -> FoundValues<'a>
        ensures { result ≡ named self.now.names (unwrap_or (option_copied values.entry) map.empty) }
    {
        FoundValues {
            names: &self.names,
            values,
        }
    }

    // The texts of an edge's numbers.
    fn texts_of(&self, ends: Option<Ends>) -> Option<FoundEnds<'_>>
        ensures { option_map ends_in result
            ≡ ends_of self.now.names (keys_of self.now.vertices.entries) ends }
    {
        let ends = ends?;
        let label = self.names.text(ends.label as usize)?;
        let from = self.id_at(ends.from as usize)?;
        let to = self.id_at(ends.to as usize)?;
        Some(FoundEnds { label, from, to })
    }

    fn id_at(&self, place: usize) -> Option<&Text>
        ensures { option_copied result ≡ slice_get (keys_of self.now.vertices.entries) place }
    {
        match self.vertices.get_index(place) {
            Some((id, _)) => Some(id),
            None => None,
        }
    }

    /// How many vertices, edges and values there are.
    pub fn sizes(&self) -> (u64, u64, u64)
        ensures vertices { result.0 ≡ total (λ owner. cond (not (set.len owner.own == 0)) 1 0)
            (values_of self.now.vertices.entries) }
        ensures edges { result.1 ≡ total (λ owner. cond (is_some owner.own) 1 0)
            (values_of self.now.edges.entries) }
        ensures values { result.2 ≡ min
            (total (λ owner. values_count owner.values) (values_of self.now.vertices.entries) +
            total (λ owner. values_count owner.values) (values_of self.now.edges.entries)) u64.MAX }
        ensures ids { IsDistinct (pointwise nat_eq) (keys_of self.now.vertices.entries) }
        ensures other_ids { IsDistinct (pointwise nat_eq) (keys_of self.now.edges.entries) }
    {
        // `len` is called for its clause that ids differ.
        let _ids = (self.vertices.len(), self.edges.len());
        let values = count_values(&self.vertices);
        (
            count_vertices(&self.vertices),
            count_edges(&self.edges),
            values.saturating_add(count_values(&self.edges)),
        )
    }

    /// The place of a vertex and the number of a name.
    pub fn vertex_named(
        &mut self,
        id: &Text,
        name: &Text,
        guess: usize,
    ) -> Result<(usize, usize), NoMemory>
        ensures place { IfOk result (λ found. IsPlace self.new.vertices.entries id.now found.0) }
        ensures number { IfOk result (λ found.
            position (pointwise nat_eq name.now) self.new.names ≡ Some found.1) }
        ensures grown { IsGrown self.old self.new }
    {
        let number = self.names.add(name)?;
        let nothing = Numbers::new(self.alloc);
        let place = place_of(self.alloc, &mut self.vertices, id, guess, nothing)?;
        Ok((place, number))
    }

    /// The place of an edge and the number of a name.
    pub fn edge_named(
        &mut self,
        id: &Text,
        name: &Text,
        guess: usize,
    ) -> Result<(usize, usize), NoMemory>
        ensures place { IfOk result (λ found. IsPlace self.new.edges.entries id.now found.0) }
        ensures number { IfOk result (λ found.
            position (pointwise nat_eq name.now) self.new.names ≡ Some found.1) }
        ensures grown { IsGrown self.old self.new }
    {
        let number = self.names.add(name)?;
        let place = place_of(self.alloc, &mut self.edges, id, guess, None)?;
        Ok((place, number))
    }

    /// The numbers of a label and of two ends.
    pub fn ends_of(&mut self, label: &Text, from: &Text, to: &Text) -> Result<Ends, NoMemory>
        ensures label { IfOk result (λ ends. slice_get self.new.names ends.label ≡ Some label.now) }
        ensures from { IfOk result (λ ends.
            slice_get (keys_of self.new.vertices.entries) ends.from ≡ Some from.now) }
        ensures to { IfOk result (λ ends.
            slice_get (keys_of self.new.vertices.entries) ends.to ≡ Some to.now) }
        ensures grown { IsGrown self.old self.new }
    {
        let (from, label) = self.vertex_named(from, label, 0)?;
        let nothing = Numbers::new(self.alloc);
        let to = place_of(self.alloc, &mut self.vertices, to, 0, nothing)?;
        ends(label, from, to)
    }
}

fn ends(label: usize, from: usize, to: usize) -> Result<Ends, NoMemory>
    ensures { IfOk result (λ ends. ends ≡ record { label = label; from = from; to = to }) }
{
    Ok(Ends {
        label: number(label)?,
        from: number(from)?,
        to: number(to)?,
    })
}

// A place as the number that an edge holds.
fn number(place: usize) -> Result<u32, NoMemory>
    ensures { IfOk result (λ number. number ≡ place) }
{
    match u32::try_from(place) {
        Ok(number) => Ok(number),
        Err(_) => Err(NoMemory),
    }
}
