// The values that a row adds, and those that single ones take the place of.
ghost use Rattle.std.specs.Prelude.{◌≡◌, ◌++◌, ◌∷◌, [], map, filter, not, OnOk};
ghost use Rattle.std.specs.List.{flat_map};
ghost use Rattle.std.specs.Option.{option_copied};
ghost use Rattle.bl_outside.specs.OrderedSet as set;
ghost use Rattle.bl_graph.specs.Admission.{
  added,
  conflict,
  conflicts,
  is_among,
  property_changes,
  replaced,
};
ghost use Rattle.bl_graph.specs.Graph.{keys_in, properties as properties_of, values_at};

use crate::{FoundKey, FoundValues, Graph, ValueSet, is_among};
use bl_outside::{List, NoMemory, Text};
use bl_value::{Change, Property, Side, Value};

impl Graph {
    // The first property whose single value would take the place of another.
    pub(crate) fn conflict<'a>(
        &self,
        update_single: bool,
        side: Side,
        id: &Text,
        found: &FoundValues,
        properties: &'a List<Property>,
    ) -> Option<&'a Property>
        requires { found.now ≡ keys_in (properties_of self.now side) id.now }
        ensures { option_copied result
            ≡ conflict self.now update_single side id.now properties.now }
    {
        if update_single {
            return None;
        }
        for property in properties.as_slice() {
            if self.conflicts(side, id, &found.at(&property.key), property) {
                return Some(property);
            }
        }
        None
    }

    fn conflicts(&self, side: Side, id: &Text, there: &FoundKey, property: &Property) -> bool
        requires { there.now ≡ values_at self.now side id.now property.now.key }
        ensures { result ≡ conflicts self.now side id.now property.now }
    {
        property.single && there.has_other(&property.values)
    }

    pub(crate) fn push_properties(
        &self,
        side: Side,
        id: &Text,
        found: &FoundValues,
        properties: &List<Property>,
        changes: &mut List<Change>,
    ) -> Result<(), NoMemory>
        requires { found.now ≡ keys_in (properties_of self.now side) id.now }
        ensures { OnOk result (changes.new ≡ changes.old
            ++ flat_map (property_changes self.now side id.now) properties.now) }
    {
        for property in properties.as_slice() {
            self.push_property(side, id, &found.at(&property.key), property, changes)?;
        }
        Ok(())
    }

    fn push_property(
        &self,
        side: Side,
        id: &Text,
        there: &FoundKey,
        property: &Property,
        changes: &mut List<Change>,
    ) -> Result<(), NoMemory>
        requires { there.now ≡ values_at self.now side id.now property.now.key }
        ensures { OnOk result (changes.new ≡ changes.old
            ++ property_changes self.now side id.now property.now) }
    {
        self.push_replaced(side, id, there, property, changes)?;
        self.push_added(side, id, there, property, changes)
    }

    fn push_replaced(
        &self,
        side: Side,
        id: &Text,
        there: &FoundKey,
        property: &Property,
        changes: &mut List<Change>,
    ) -> Result<(), NoMemory>
        requires { there.now ≡ values_at self.now side id.now property.now.key }
        ensures { OnOk result (changes.new ≡ changes.old
            ++ map (λ value. Change.RemoveValue side id.now property.now.key value)
            (replaced self.now side id.now property.now)) }
    {
        if !self.conflicts(side, id, there, property) {
            return Ok(());
        }
        let ordered = there.ordered(self.allocator())?;
        self.push_others(side, id, property, &ordered, changes)
    }

    // The values that are there, but for the property's own.
    fn push_others(
        &self,
        side: Side,
        id: &Text,
        property: &Property,
        there: &ValueSet,
        changes: &mut List<Change>,
    ) -> Result<(), NoMemory>
        ensures { OnOk result (changes.new ≡ changes.old
            ++ map (λ value. Change.RemoveValue side id.now property.now.key value)
            (filter (λ value. not (is_among property.now.values value)) (set.items there.now))) }
    {
        for value in there.iter() {
            self.push_other(side, id, property, value, changes)?;
        }
        Ok(())
    }

    fn push_other(
        &self,
        side: Side,
        id: &Text,
        property: &Property,
        value: &Value,
        changes: &mut List<Change>,
    ) -> Result<(), NoMemory>
        ensures { OnOk result (changes.new ≡ changes.old
            ++ map (λ value. Change.RemoveValue side id.now property.now.key value)
            (filter (λ value. not (is_among property.now.values value)) (value.now ∷ []))) }
    {
        if is_among(&property.values, value) {
            return Ok(());
        }
        changes.push(Change::RemoveValue {
            side,
            id: id.copy(self.allocator())?,
            key: property.key.copy(self.allocator())?,
            value: value.copy(self.allocator())?,
        })
    }

    fn push_added(
        &self,
        side: Side,
        id: &Text,
        there: &FoundKey,
        property: &Property,
        changes: &mut List<Change>,
    ) -> Result<(), NoMemory>
        requires { there.now ≡ values_at self.now side id.now property.now.key }
        ensures { OnOk result (changes.new ≡ changes.old
            ++ map (λ value. Change.AddValue side id.now property.now.key value)
            (added self.now side id.now property.now)) }
    {
        for value in property.values.as_slice() {
            self.push_value(side, id, there, &property.key, value, changes)?;
        }
        Ok(())
    }

    fn push_value(
        &self,
        side: Side,
        id: &Text,
        there: &FoundKey,
        key: &Text,
        value: &Value,
        changes: &mut List<Change>,
    ) -> Result<(), NoMemory>
        requires { there.now ≡ values_at self.now side id.now key.now }
        ensures { OnOk result (changes.new ≡ changes.old
            ++ map (λ value. Change.AddValue side id.now key.now value)
            (filter (λ value. not (set.contains (values_at self.now side id.now key.now) value))
            (value.now ∷ []))) }
    {
        if there.contains(value) {
            return Ok(());
        }
        changes.push(Change::AddValue {
            side,
            id: id.copy(self.allocator())?,
            key: key.copy(self.allocator())?,
            value: value.copy(self.allocator())?,
        })
    }
}
