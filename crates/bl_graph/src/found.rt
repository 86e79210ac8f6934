// What is found of one vertex or edge.
ghost use Rattle.std.specs.Prelude.{◌≡◌, ◌==◌, not, length, filter, IfOk};
ghost use Rattle.bl_outside.specs.OrderedSet as set;
ghost use Rattle.bl_graph.specs.Admission.{is_among, is_edge};
ghost use Rattle.bl_graph.specs.Found.{ends_in};
ghost use Rattle.bl_graph.specs.Graph.{at_key};

use crate::{Names, NumberedValues, Numbers, ValueSet};
use bl_outside::{List, NoMemory, Text};
use bl_value::Value;
use std::alloc::Global;
use std::marker::Model;

/// The labels of one vertex.
#[derive(Drop)]
pub struct FoundLabels<'a> {
    pub names: &'a Names,
    pub numbers: Option<&'a Numbers>,
}

impl<'a> Model for FoundLabels<'a> {
    ghost use Rattle.std.specs.Option.{option_copied, unwrap_or};
    ghost use Rattle.std.specs.FinMap as map;
    ghost use Rattle.bl_graph.specs.Codes.{texts_code};
    ghost use Rattle.bl_graph.specs.Graph.{Texts};
    ghost use Rattle.bl_graph.specs.Numbered.{named};

    ghost Value = { Texts };

    ghost coded = { texts_code };

    ghost view = { λ a. named a.names.now (unwrap_or (option_copied a.numbers) map.empty) };
}

impl<'a> FoundLabels<'a> {
    pub fn contains(&self, label: &Text) -> bool
        ensures { result ≡ set.contains self.now label.now }
    {
        let Some(numbers) = self.numbers else {
            return false;
        };
        match self.names.number_of(label) {
            Some(number) => numbers.contains(number),
            None => false,
        }
    }
}

/// The values of one vertex or edge.
#[derive(Drop)]
pub struct FoundValues<'a> {
    pub names: &'a Names,
    pub values: Option<&'a NumberedValues>,
}

impl<'a> Model for FoundValues<'a> {
    ghost use Rattle.std.specs.Option.{option_copied, unwrap_or};
    ghost use Rattle.std.specs.FinMap as map;
    ghost use Rattle.bl_graph.specs.Codes.{keys_code};
    ghost use Rattle.bl_graph.specs.Graph.{ByText, Values};
    ghost use Rattle.bl_graph.specs.Numbered.{named};

    ghost Value = { ByText Values };

    ghost coded = { keys_code };

    ghost view = { λ a. named a.names.now (unwrap_or (option_copied a.values) map.empty) };
}

impl<'a> FoundValues<'a> {
    /// The values at one key.
    pub fn at(&self, key: &Text) -> FoundKey<'a>
        ensures { result ≡ at_key self.now key.now }
    {
        let Some(values) = self.values else {
            return nothing();
        };
        match self.names.number_of(key) {
            Some(number) => FoundKey {
                values: Some(values),
                number,
            },
            None => nothing(),
        }
    }
}

/// The values at one key of a vertex or an edge.
#[derive(Drop)]
pub struct FoundKey<'a> {
    values: Option<&'a NumberedValues>,
    number: usize,
}

impl<'a> Model for FoundKey<'a> {
    ghost use Rattle.std.specs.Option.{option_copied, unwrap_or};
    ghost use Rattle.std.specs.FinMap as map;
    ghost use Rattle.bl_graph.specs.Codes.{values_code};
    ghost use Rattle.bl_graph.specs.Graph.{Values};
    ghost use Rattle.bl_graph.specs.Numbered.{at_number};

    ghost Value = { Values };

    ghost coded = { values_code };

    ghost view = { λ a. at_number (unwrap_or (option_copied a.values) map.empty) a.number };
}

// A key without values.
fn nothing<'a>() -> FoundKey<'a>
    ensures { result ≡ set.empty }
{
    FoundKey {
        values: None,
        number: 0,
    }
}

impl<'a> FoundKey<'a> {
    pub fn is_empty(&self) -> bool
        ensures { result ≡ (set.len self.now == 0) }
    {
        match self.values {
            Some(values) => values.is_empty_at(self.number),
            None => true,
        }
    }

    pub fn contains(&self, value: &Value) -> bool
        ensures { result ≡ set.contains self.now value.now }
    {
        match self.values {
            Some(values) => values.has(self.number, value),
            None => false,
        }
    }

    /// Whether a value other than the given ones is there.
    pub fn has_other(&self, given: &List<Value>) -> bool
        ensures { result ≡ not (length
            (filter (λ value. not (is_among given.now value)) (set.items self.now)) == 0) }
    {
        match self.values {
            Some(values) => values.has_other(self.number, given),
            None => false,
        }
    }

    /// A copy of the values, in order.
    pub fn ordered(&self, alloc: Global) -> Result<ValueSet, NoMemory>
        ensures { IfOk result (λ values. values ≡ self.now) }
    {
        match self.values {
            Some(values) => values.ordered(alloc, self.number),
            None => Ok(ValueSet::new(alloc)),
        }
    }
}

/// What is found of one vertex. Labels and values may be asked for where it isn't there.
#[derive(Drop)]
pub struct FoundVertex<'a> {
    pub is_known: bool,
    pub labels: FoundLabels<'a>,
    pub values: FoundValues<'a>,
}

/// The label and the two ends of an edge.
#[derive(Clone, Copy)]
pub struct FoundEnds<'a> {
    pub label: &'a Text,
    pub from: &'a Text,
    pub to: &'a Text,
}

impl<'a> FoundEnds<'a> {
    pub fn is(&self, label: &Text, from: &Text, to: &Text) -> bool
        ensures { result ≡ is_edge (ends_in self.now) label.now from.now to.now }
    {
        self.label == label && self.from == from && self.to == to
    }
}

/// What is found of one edge. Values may be asked for where it isn't there.
#[derive(Drop)]
pub struct FoundEdge<'a> {
    pub ends: Option<FoundEnds<'a>>,
    pub values: FoundValues<'a>,
}
