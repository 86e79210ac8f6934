// Rows, changes and verdicts as the tables of tests write them.
use bl_graph::Verdict;
use bl_outside::{List, Text};
use bl_value::{Change, LogCode, Property, Row, Side, Value};
use std::alloc::Global;
use std::process::Abort;

/// A value.
#[derive(Clone, Copy)]
pub enum Given {
    Truth(bool),
    Byte(i8),
    Int(i32),
    Long(i64),
    Word(&'static str),
    Date(i64),
}

pub const ANN: Given = Given::Word("Ann");

pub const BOB: Given = Given::Word("Bob");

/// A key, with a set of values or with a single one.
#[derive(Clone, Copy)]
pub enum At {
    Set(&'static str, &'static [Given]),
    Single(&'static str, Given),
}

/// A row: a vertex with its id and labels, an edge with its id, `from`, `to` and label, or a code
/// and its column. The first property stands in column 3 of a vertex and 5 of an edge.
#[derive(Clone, Copy)]
pub enum Line {
    Vertex(&'static str, &'static [&'static str], &'static [At]),
    Edge(&'static str, &'static str, &'static str, &'static str, &'static [At]),
    Bad(LogCode, u32),
}

/// A change: a label of a vertex, an edge with its id, `from`, `to` and label, or a value with its
/// side, id and key.
#[derive(Clone, Copy)]
pub enum Step {
    Label(&'static str, &'static str),
    Edge(&'static str, &'static str, &'static str, &'static str),
    Add(Side, &'static str, &'static str, Given),
    Remove(Side, &'static str, &'static str, Given),
}

/// A verdict.
#[derive(Clone, Copy)]
pub enum Answer {
    Changes(&'static [Step]),
    Duplicate,
    Refused(LogCode, u32),
}

pub fn text<R: Abort>(rt: &R, alloc: Global, word: &str) -> Text {
    Text::copy_of(alloc, word.as_bytes()).expect(rt, "memory")
}

fn texts<R: Abort>(rt: &R, alloc: Global, words: &[&str]) -> List<Text> {
    let mut texts = List::new(alloc);
    for word in words {
        texts.push(text(rt, alloc, word)).expect(rt, "memory");
    }
    texts
}

fn value<R: Abort>(rt: &R, alloc: Global, given: Given) -> Value {
    match given {
        Given::Truth(truth) => Value::Bool(truth),
        Given::Byte(number) => Value::Byte(number),
        Given::Int(number) => Value::Int(number),
        Given::Long(number) => Value::Long(number),
        Given::Word(word) => Value::Str(text(rt, alloc, word)),
        Given::Date(seconds) => Value::Date(seconds),
    }
}

fn values<R: Abort>(rt: &R, alloc: Global, all: &[Given]) -> List<Value> {
    let mut values = List::new(alloc);
    for given in all {
        values.push(value(rt, alloc, *given)).expect(rt, "memory");
    }
    values
}

fn property<R: Abort>(rt: &R, alloc: Global, column: u32, at: At) -> Property {
    match at {
        At::Set(key, all) => Property {
            key: text(rt, alloc, key),
            column,
            single: false,
            values: values(rt, alloc, all),
        },
        At::Single(key, given) => Property {
            key: text(rt, alloc, key),
            column,
            single: true,
            values: values(rt, alloc, &[given]),
        },
    }
}

fn properties<R: Abort>(rt: &R, alloc: Global, first: u32, all: &[At]) -> List<Property> {
    let mut properties = List::new(alloc);
    let mut column = first;
    for at in all {
        let property = property(rt, alloc, column, *at);
        properties.push(property).expect(rt, "memory");
        column = column.saturating_add(1);
    }
    properties
}

pub fn row<R: Abort>(rt: &R, alloc: Global, line: Line) -> Row {
    match line {
        Line::Vertex(id, labels, all) => Row::Vertex {
            id: text(rt, alloc, id),
            labels: texts(rt, alloc, labels),
            properties: properties(rt, alloc, 3, all),
        },
        Line::Edge(id, from, to, label, all) => Row::Edge {
            id: text(rt, alloc, id),
            label: text(rt, alloc, label),
            from: text(rt, alloc, from),
            to: text(rt, alloc, to),
            properties: properties(rt, alloc, 5, all),
        },
        Line::Bad(code, column) => Row::Bad { code, column },
    }
}

pub fn change<R: Abort>(rt: &R, alloc: Global, step: Step) -> Change {
    match step {
        Step::Label(id, label) => Change::AddLabel {
            id: text(rt, alloc, id),
            label: text(rt, alloc, label),
        },
        Step::Edge(id, from, to, label) => Change::AddEdge {
            id: text(rt, alloc, id),
            label: text(rt, alloc, label),
            from: text(rt, alloc, from),
            to: text(rt, alloc, to),
        },
        Step::Add(side, id, key, given) => Change::AddValue {
            side,
            id: text(rt, alloc, id),
            key: text(rt, alloc, key),
            value: value(rt, alloc, given),
        },
        Step::Remove(side, id, key, given) => Change::RemoveValue {
            side,
            id: text(rt, alloc, id),
            key: text(rt, alloc, key),
            value: value(rt, alloc, given),
        },
    }
}

pub fn verdict<R: Abort>(rt: &R, alloc: Global, answer: Answer) -> Verdict {
    match answer {
        Answer::Changes(steps) => {
            let mut changes = List::new(alloc);
            for step in steps {
                changes.push(change(rt, alloc, *step)).expect(rt, "memory");
            }
            Verdict::Changes(changes)
        }
        Answer::Duplicate => Verdict::Duplicate,
        Answer::Refused(code, column) => Verdict::Refused(code, column),
    }
}

/// Whether two verdicts are the same, change by change.
pub fn is_same_verdict(one: &Verdict, other: &Verdict) -> bool {
    match (one, other) {
        (Verdict::Changes(ones), Verdict::Changes(others)) => ones.as_slice() == others.as_slice(),
        (Verdict::Duplicate, Verdict::Duplicate) => true,
        (Verdict::Refused(code, column), Verdict::Refused(c, n)) => code == c && column == n,
        _ => false,
    }
}
