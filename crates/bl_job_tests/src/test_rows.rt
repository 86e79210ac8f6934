// Rows, changes and logs as the tables of tests write them.
use bl_files::{LoadRequest, Log, Mode};
use bl_outside::{Digest, List, Text};
use bl_value::{Change, DigestRow, LogCode, Property, Row, Value};
use std::alloc::Global;
use std::process::Abort;

/// A row: a vertex with its id and labels, one with a single `name` in column 2, an edge with its
/// id, `from`, `to` and label, or a code and its column.
#[derive(Clone, Copy)]
pub enum Line {
    Vertex(&'static str, &'static [&'static str]),
    Named(&'static str, &'static str),
    Edge(&'static str, &'static str, &'static str, &'static str),
    Bad(LogCode, u32),
}

/// A change: a label of a vertex, an edge with its id, `from`, `to` and label, or a vertex's name.
#[derive(Clone, Copy)]
pub enum Step {
    Label(&'static str, &'static str),
    Edge(&'static str, &'static str, &'static str, &'static str),
    Name(&'static str, &'static str),
    NoName(&'static str, &'static str),
}

/// A log: its code, its number and its column.
pub type Told = (LogCode, u64, u32);

pub fn text<R: Abort>(rt: &R, alloc: Global, word: &str) -> Text {
    Text::of_str(alloc, word).expect(rt, "memory")
}

/// A property of one value, in column 2.
pub fn second_column<R: Abort>(
    rt: &R,
    alloc: Global,
    key: &str,
    single: bool,
    value: Value,
) -> List<Property> {
    let mut values = List::new(alloc);
    values.push(value).expect(rt, "memory");
    let property = Property {
        key: text(rt, alloc, key),
        column: 2,
        single,
        values,
    };
    let mut properties = List::new(alloc);
    properties.push(property).expect(rt, "memory");
    properties
}

fn texts<R: Abort>(rt: &R, alloc: Global, words: &[&str]) -> List<Text> {
    let mut texts = List::new(alloc);
    for word in words {
        texts.push(text(rt, alloc, word)).expect(rt, "memory");
    }
    texts
}

fn name<R: Abort>(rt: &R, alloc: Global, word: &str) -> Value {
    Value::Str(text(rt, alloc, word))
}

fn row<R: Abort>(rt: &R, alloc: Global, line: Line) -> Row {
    match line {
        Line::Vertex(id, labels) => Row::Vertex {
            id: text(rt, alloc, id),
            labels: texts(rt, alloc, labels),
            properties: List::new(alloc),
        },
        Line::Named(id, word) => Row::Vertex {
            id: text(rt, alloc, id),
            labels: List::new(alloc),
            properties: second_column(rt, alloc, "name", true, name(rt, alloc, word)),
        },
        Line::Edge(id, from, to, label) => Row::Edge {
            id: text(rt, alloc, id),
            label: text(rt, alloc, label),
            from: text(rt, alloc, from),
            to: text(rt, alloc, to),
            properties: List::new(alloc),
        },
        Line::Bad(code, column) => Row::Bad { code, column },
    }
}

/// One row more. A batch doesn't look at its digest.
pub fn push_row<R: Abort>(rt: &R, rows: &mut List<DigestRow>, row: Row) {
    let digest = Digest { bytes: [0; 32] };
    rows.push(DigestRow { row, digest }).expect(rt, "memory");
}

pub fn rows<R: Abort>(rt: &R, alloc: Global, lines: &[Line]) -> List<DigestRow> {
    let mut rows = List::new(alloc);
    for line in lines {
        push_row(rt, &mut rows, row(rt, alloc, *line));
    }
    rows
}

pub fn request<R: Abort>(
    rt: &R,
    alloc: Global,
    fail_on_error: bool,
    update_single: bool,
) -> LoadRequest {
    LoadRequest {
        source: text(rt, alloc, "s3://b/f"),
        format: 0,
        mode: Mode::New,
        fail_on_error,
        update_single,
        parallelism: 2,
        queue: false,
        dependencies: List::new(alloc),
    }
}

fn is_text(text: &Text, word: &str) -> bool {
    text.as_slice() == word.as_bytes()
}

fn is_name(id: &Text, key: &Text, value: &Value, step: (&str, &str)) -> bool {
    let same = match value {
        Value::Str(name) => is_text(name, step.1),
        _ => false,
    };
    same && is_text(id, step.0) && is_text(key, "name")
}

fn is_step(change: &Change, step: Step) -> bool {
    match (change, step) {
        (Change::AddLabel { id, label }, Step::Label(i, l)) => is_text(id, i) && is_text(label, l),
        (
            Change::AddEdge {
                id,
                label,
                from,
                to,
            },
            Step::Edge(i, f, t, l),
        ) => is_text(id, i) && is_text(label, l) && is_text(from, f) && is_text(to, t),
        (Change::AddValue { id, key, value, .. }, Step::Name(i, name)) => {
            is_name(id, key, value, (i, name))
        }
        (Change::RemoveValue { id, key, value, .. }, Step::NoName(i, name)) => {
            is_name(id, key, value, (i, name))
        }
        _ => false,
    }
}

/// Whether these are the changes, in order.
pub fn are_steps(changes: &List<Change>, steps: &[Step]) -> bool {
    changes.len() == steps.len()
        && changes
            .as_slice()
            .iter()
            .zip(steps)
            .all(|(change, step)| is_step(change, *step))
}

pub fn told(log: &Log) -> Told {
    (log.code, log.number, log.column)
}

/// Whether these are the logs, in order.
pub fn are_told(logs: &List<Log>, all: &[Told]) -> bool {
    logs.len() == all.len()
        && logs
            .as_slice()
            .iter()
            .zip(all)
            .all(|(log, expected)| told(log) == *expected)
}
