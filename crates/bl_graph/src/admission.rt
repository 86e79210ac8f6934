// What a row does to the graph.
ghost use Rattle.std.specs.Prelude.{◌≡◌, IfOk};
ghost use Rattle.bl_graph.specs.Admission.{admit, changed, edge_refusal};
ghost use Rattle.bl_graph.specs.Admitted.{DoesFit, IsProperRow, SaysNothingNew};
ghost use Rattle.bl_graph.specs.WithRow.{IsTaken};
ghost use Rattle.bl_graph.specs.Found.{ends_found};
ghost use Rattle.bl_graph.specs.Graph.{edge_of};

use crate::{FoundEdge, Graph, Verdict};
use bl_outside::{List, NoMemory, Text};
use bl_value::{Change, LogCode, Property, Row, Side};

// A row without a change is a duplicate.
fn verdict_of(changes: List<Change>) -> Verdict
    ensures { result ≡ changed changes }
{
    if changes.len() == 0 {
        Verdict::Duplicate
    } else {
        Verdict::Changes(changes)
    }
}

impl Graph {
    /// What the row does to the graph, which stays as it is. The changes of a proper row may be
    /// applied, each in turn, and the graph after them has taken the row. Where the row is a
    /// duplicate the graph has all that it says.
    pub fn admit(&self, update_single: bool, row: &Row) -> Result<Verdict, NoMemory>
        ensures verdict { IfOk result (λ verdict. verdict ≡ admit self.now update_single row.now) }
        ensures fit { IfOk result (λ verdict. IsProperRow row.now → DoesFit self.now verdict) }
        ensures taken { IfOk result (λ verdict. IsProperRow row.now →
            IsTaken self.now row.now verdict) }
        ensures duplicate { IfOk result (SaysNothingNew self.now row.now) }
    {
        self.admit_row(update_single, row)
    }

    fn admit_row(&self, update_single: bool, row: &Row) -> Result<Verdict, NoMemory>
        ensures { IfOk result (λ verdict. verdict ≡ admit self.now update_single row.now) }
    {
        match row {
            Row::Vertex {
                id,
                labels,
                properties,
            } => self.admit_vertex(update_single, id, labels, properties),
            Row::Edge {
                id,
                label,
                from,
                to,
                properties,
            } => self.admit_edge(update_single, id, label, from, to, properties),
            Row::Bad { code, column } => Ok(Verdict::Refused(*code, *column)),
        }
    }

    fn admit_vertex(
        &self,
        update_single: bool,
        id: &Text,
        labels: &List<Text>,
        properties: &List<Property>,
    ) -> Result<Verdict, NoMemory>
        ensures { IfOk result (λ verdict.
            verdict ≡ admit self.now update_single (Row.Vertex id.now labels.now properties.now)) }
    {
        let found = self.vertex(id);
        let values = &found.values;
        if let Some(property) = self.conflict(update_single, Side::Vertex, id, values, properties) {
            return Ok(Verdict::Refused(LogCode::SingleConflict, property.column));
        }
        let mut changes = self.label_changes(id, &found, labels)?;
        self.push_properties(Side::Vertex, id, values, properties, &mut changes)?;
        Ok(verdict_of(changes))
    }

    fn admit_edge(
        &self,
        update_single: bool,
        id: &Text,
        label: &Text,
        from: &Text,
        to: &Text,
        properties: &List<Property>,
    ) -> Result<Verdict, NoMemory>
        ensures { IfOk result (λ verdict.
            verdict ≡ admit self.now update_single
            (Row.Edge id.now label.now from.now to.now properties.now)) }
    {
        let found = self.found_edge(id);
        if let Some(code) = self.edge_refusal(id, &found, label, from, to) {
            return Ok(Verdict::Refused(code, 0));
        }
        let values = &found.values;
        if let Some(property) = self.conflict(update_single, Side::Edge, id, values, properties) {
            return Ok(Verdict::Refused(LogCode::SingleConflict, property.column));
        }
        let mut changes = self.edge_changes(id, &found, label, from, to)?;
        self.push_properties(Side::Edge, id, values, properties, &mut changes)?;
        Ok(verdict_of(changes))
    }

    fn edge_refusal(
        &self,
        id: &Text,
        found: &FoundEdge,
        label: &Text,
        from: &Text,
        to: &Text,
    ) -> Option<LogCode>
        requires { ends_found found.now ≡ edge_of self.now id.now }
        ensures { result ≡ edge_refusal self.now (edge_of self.now id.now) label.now from.now
            to.now }
    {
        match found.ends {
            Some(ends) if ends.is(label, from, to) => None,
            Some(_) => Some(LogCode::EdgeConflict),
            None if !self.has_vertex(from) => Some(LogCode::FromMissing),
            None if !self.has_vertex(to) => Some(LogCode::ToMissing),
            None => None,
        }
    }
}
