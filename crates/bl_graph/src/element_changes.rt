// The labels and the edges that a row adds.
ghost use Rattle.std.specs.Prelude.{◌≡◌, ◌++◌, ◌∷◌, [], map, filter, not, IfOk, OnOk};
ghost use Rattle.bl_outside.specs.OrderedSet as set;
ghost use Rattle.bl_graph.specs.Admission.{edge_changes, label_changes};
ghost use Rattle.bl_graph.specs.Found.{ends_found};
ghost use Rattle.bl_graph.specs.Graph.{edge_of, has_vertex, labels_of};

use crate::{FoundEdge, FoundLabels, FoundVertex, Graph};
use bl_outside::{List, NoMemory, Text};
use bl_value::Change;

impl Graph {
    // A new vertex without a label gets the label `vertex`.
    pub(crate) fn label_changes(
        &self,
        id: &Text,
        found: &FoundVertex,
        labels: &List<Text>,
    ) -> Result<List<Change>, NoMemory>
        requires labels { found.now.labels ≡ labels_of self.now id.now }
        requires known { found.now.is_known ≡ has_vertex self.now id.now }
        ensures { IfOk result (λ changes. changes ≡ label_changes self.now id.now labels.now) }
    {
        let mut changes = List::new(self.allocator());
        if labels.len() == 0 && !found.is_known {
            let label = Text::copy_of(self.allocator(), b"vertex")?;
            self.push_label(id, &found.labels, &label, &mut changes)?;
        } else {
            self.push_labels(id, &found.labels, labels, &mut changes)?;
        }
        Ok(changes)
    }

    fn push_labels(
        &self,
        id: &Text,
        there: &FoundLabels,
        labels: &List<Text>,
        changes: &mut List<Change>,
    ) -> Result<(), NoMemory>
        requires { there.now ≡ labels_of self.now id.now }
        ensures { OnOk result (changes.new ≡ changes.old
            ++ map (λ label. Change.AddLabel id.now label)
            (filter (λ label. not (set.contains (labels_of self.now id.now) label)) labels.now)) }
    {
        for label in labels.as_slice() {
            self.push_label(id, there, label, changes)?;
        }
        Ok(())
    }

    fn push_label(
        &self,
        id: &Text,
        there: &FoundLabels,
        label: &Text,
        changes: &mut List<Change>,
    ) -> Result<(), NoMemory>
        requires { there.now ≡ labels_of self.now id.now }
        ensures { OnOk result (changes.new ≡ changes.old
            ++ map (λ label. Change.AddLabel id.now label)
            (filter (λ label. not (set.contains (labels_of self.now id.now) label))
            (label.now ∷ []))) }
    {
        if there.contains(label) {
            return Ok(());
        }
        changes.push(Change::AddLabel {
            id: id.copy(self.allocator())?,
            label: label.copy(self.allocator())?,
        })
    }

    pub(crate) fn edge_changes(
        &self,
        id: &Text,
        found: &FoundEdge,
        label: &Text,
        from: &Text,
        to: &Text,
    ) -> Result<List<Change>, NoMemory>
        requires { ends_found found.now ≡ edge_of self.now id.now }
        ensures { IfOk result (λ changes.
            changes ≡ edge_changes (edge_of self.now id.now) id.now label.now from.now to.now) }
    {
        let mut changes = List::new(self.allocator());
        if found.ends.is_some() {
            return Ok(changes);
        }
        changes.push(Change::AddEdge {
            id: id.copy(self.allocator())?,
            label: label.copy(self.allocator())?,
            from: from.copy(self.allocator())?,
            to: to.copy(self.allocator())?,
        })?;
        Ok(changes)
    }
}
