// Batches of rows, and what they come to.
use crate::test_rows::{
    Line, Step, Told, are_steps, are_told, push_row, request, rows, second_column, text, told,
};
use bl_graph::Graph;
use bl_job::{BatchResult, batch};
use bl_outside::List;
use bl_value::{DigestRow, LogCode, Row, Value};
use std::alloc::Global;
use std::process::Abort;

// A batch, what it is to come to, and the sizes of the graph behind it. The lines before it are
// taken first, as a batch of their own.
#[derive(Clone, Copy)]
struct Case {
    fail_on_error: bool,
    update_single: bool,
    before: &'static [Line],
    lines: &'static [Line],
    rows: u32,
    duplicates: u32,
    logs: &'static [Told],
    steps: &'static [Step],
    stop: Option<Told>,
    sizes: (u64, u64, u64),
}

// Nothing, out of nothing.
const NOTHING: Case = Case {
    fail_on_error: false,
    update_single: false,
    before: &[],
    lines: &[],
    rows: 0,
    duplicates: 0,
    logs: &[],
    steps: &[],
    stop: None,
    sizes: (0, 0, 0),
};

const FOLDER_OF_TWO: Case = Case {
    lines: &[
        Line::Vertex("v1", &["person"]),
        Line::Vertex("v2", &["person"]),
        Line::Edge("e1", "v1", "v2", "knows"),
    ],
    rows: 3,
    steps: &[
        Step::Label("v1", "person"),
        Step::Label("v2", "person"),
        Step::Edge("e1", "v1", "v2", "knows"),
    ],
    sizes: (2, 1, 0),
    ..NOTHING
};

const NAMES: &[Line] = &[
    Line::Named("v1", "Ann"),
    Line::Named("v1", "Ann"),
    Line::Named("v1", "Bob"),
];

const OLD_NAME_KEPT: Case = Case {
    lines: NAMES,
    rows: 3,
    duplicates: 1,
    logs: &[(LogCode::SingleConflict, 3, 2)],
    steps: &[Step::Label("v1", "vertex"), Step::Name("v1", "Ann")],
    sizes: (1, 0, 1),
    ..NOTHING
};

const NAME_UPDATED: Case = Case {
    update_single: true,
    lines: NAMES,
    rows: 3,
    duplicates: 1,
    steps: &[
        Step::Label("v1", "vertex"),
        Step::Name("v1", "Ann"),
        Step::NoName("v1", "Ann"),
        Step::Name("v1", "Bob"),
    ],
    sizes: (1, 0, 1),
    ..NOTHING
};

const EDGE_ERRORS: Case = Case {
    before: &[Line::Vertex("v1", &[])],
    lines: &[
        Line::Edge("e1", "v1", "v1", "likes"),
        Line::Edge("e1", "v1", "v1", "knows"),
        Line::Edge("e2", "v1", "v9", "likes"),
    ],
    rows: 3,
    logs: &[(LogCode::EdgeConflict, 2, 0), (LogCode::ToMissing, 3, 0)],
    steps: &[Step::Edge("e1", "v1", "v1", "likes")],
    sizes: (1, 1, 0),
    ..NOTHING
};

const STOPPED_AT_ONCE: Case = Case {
    fail_on_error: true,
    lines: &[
        Line::Bad(LogCode::MissingId, 1),
        Line::Vertex("v1", &["person"]),
    ],
    stop: Some((LogCode::MissingId, 1, 1)),
    ..NOTHING
};

const STOPPED_LATER: Case = Case {
    fail_on_error: true,
    lines: &[
        Line::Named("v1", "Ann"),
        Line::Named("v1", "Ann"),
        Line::Named("v1", "Bob"),
        Line::Vertex("v2", &["person"]),
    ],
    rows: 2,
    duplicates: 1,
    steps: &[Step::Label("v1", "vertex"), Step::Name("v1", "Ann")],
    stop: Some((LogCode::SingleConflict, 3, 2)),
    sizes: (1, 0, 1),
    ..NOTHING
};

// The batch of the rows, of which there are fewer than 2^32.
fn taken<R: Abort>(
    rt: &R,
    alloc: Global,
    graph: &mut Graph,
    fail_on_error: bool,
    update_single: bool,
    rows: &List<DigestRow>,
) -> BatchResult {
    let _count = u32::try_from(rows.len()).expect(rt, "some rows");
    let request = request(rt, alloc, fail_on_error, update_single);
    batch(alloc, graph, &request, rows).expect(rt, "memory")
}

fn taken_of<R: Abort>(
    rt: &R,
    alloc: Global,
    graph: &mut Graph,
    fail_on_error: bool,
    update_single: bool,
    lines: &[Line],
) -> BatchResult {
    let rows = rows(rt, alloc, lines);
    taken(rt, alloc, graph, fail_on_error, update_single, &rows)
}

fn is_counted(made: &BatchResult, case: &Case) -> bool {
    made.rows == case.rows && made.duplicates == case.duplicates
}

fn is_written(made: &BatchResult, case: &Case) -> bool {
    are_told(&made.logs, case.logs) && are_steps(&made.changes, case.steps)
}

fn is_stopped(made: &BatchResult, case: &Case) -> bool {
    match (&made.stop, case.stop) {
        (Some(log), Some(expected)) => told(log) == expected,
        (None, None) => true,
        _ => false,
    }
}

// Whether the batch comes to what is expected of it.
fn comes_out<R: Abort>(rt: &R, alloc: Global, graph: &mut Graph, case: &Case) -> bool {
    taken_of(rt, alloc, graph, false, false, case.before);
    let (fail, update) = (case.fail_on_error, case.update_single);
    let made = taken_of(rt, alloc, graph, fail, update, case.lines);
    let is_made = is_counted(&made, case) && is_written(&made, case) && is_stopped(&made, case);
    is_made && graph.sizes() == case.sizes
}

#[test]
fn batches_come_to_what_their_rows_say(rt: HostRuntime) {
    let alloc = rt.alloc();
    let cases = [
        NOTHING,
        FOLDER_OF_TWO,
        OLD_NAME_KEPT,
        NAME_UPDATED,
        EDGE_ERRORS,
        STOPPED_AT_ONCE,
        STOPPED_LATER,
    ];
    for (number, case) in cases.iter().enumerate() {
        let comes_out = comes_out(&rt, alloc, &mut Graph::empty(alloc, 0), case);
        assert!(rt; comes_out, "case {number}");
    }
}

// A vertex of this number with an age.
fn aged<R: Abort>(rt: &R, alloc: Global, number: i32, age: i32) -> Row {
    let id = format!(in alloc; "v{number}").expect(rt, "memory");
    Row::Vertex {
        id: text(rt, alloc, id.as_str()),
        labels: List::new(alloc),
        properties: second_column(rt, alloc, "age", false, Value::Int(age)),
    }
}

// A thousand rows, a bad one, and one more.
fn rows_with_a_bad_one<R: Abort>(rt: &R, alloc: Global) -> List<DigestRow> {
    let mut rows = List::new(alloc);
    for number in 1..=1000 {
        push_row(rt, &mut rows, aged(rt, alloc, number, number));
    }
    let (code, column) = (LogCode::NotOfType, 2);
    push_row(rt, &mut rows, Row::Bad { code, column });
    push_row(rt, &mut rows, aged(rt, alloc, 1002, 5));
    rows
}

#[test]
fn a_load_that_fails_on_an_error_stops_before_row_1001(rt: HostRuntime) {
    let rows = rows_with_a_bad_one(&rt, rt.alloc());
    let mut graph = Graph::empty(rt.alloc(), 0);
    let made = taken(&rt, rt.alloc(), &mut graph, true, false, &rows);
    assert_eq!(rt; (made.rows, made.duplicates), (1000, 0));
    assert_eq!(rt; made.changes.len(), 2000);
    assert!(rt; are_told(&made.logs, &[]));
    let stop = made.stop.as_ref().map(told);
    assert_eq!(rt; stop, Some((LogCode::NotOfType, 1001, 2)));
    assert!(rt; graph.sizes() == (1000, 0, 1000));
}

#[test]
fn another_load_logs_row_1001_and_goes_on(rt: HostRuntime) {
    let rows = rows_with_a_bad_one(&rt, rt.alloc());
    let mut graph = Graph::empty(rt.alloc(), 0);
    let made = taken(&rt, rt.alloc(), &mut graph, false, false, &rows);
    assert_eq!(rt; (made.rows, made.duplicates), (1002, 0));
    assert_eq!(rt; made.changes.len(), 2002);
    assert!(rt; are_told(&made.logs, &[(LogCode::NotOfType, 1001, 2)]));
    assert!(rt; made.stop.is_none());
    assert!(rt; graph.sizes() == (1001, 0, 1001));
}
