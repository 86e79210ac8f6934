// Rows and what they do to a graph, one after the other.
use crate::test_rows::{ANN, Answer, At, BOB, Line, Step, is_same_verdict, row, verdict};
use bl_graph::{Graph, Verdict};
use bl_value::{LogCode, Side};
use std::alloc::Global;
use std::process::Abort;

// Applies the changes, each of which is to fit.
fn applies<R: Abort>(rt: &R, graph: &mut Graph, verdict: &Verdict) {
    if let Verdict::Changes(changes) = verdict {
        for change in changes.as_slice() {
            assert!(rt; graph.fits(change), "a change that does not fit");
            graph.apply(change).expect(rt, "memory");
        }
    }
}

fn admitted<R: Abort>(
    rt: &R,
    alloc: Global,
    graph: &Graph,
    update_single: bool,
    line: Line,
) -> Verdict {
    let row = row(rt, alloc, line);
    graph.admit(update_single, &row).expect(rt, "memory")
}

fn is_expected<R: Abort>(rt: &R, alloc: Global, given: &Verdict, expected: Answer) -> bool {
    let expected = verdict(rt, alloc, expected);
    is_same_verdict(given, &expected)
}

// The row of this number has the verdict. Its changes are applied.
fn answers<R: Abort>(
    rt: &R,
    alloc: Global,
    graph: &mut Graph,
    update_single: bool,
    number: usize,
    (line, expected): (Line, Answer),
) {
    let given = admitted(rt, alloc, graph, update_single, line);
    let is_expected = is_expected(rt, alloc, &given, expected);
    assert!(rt; is_expected, "row {number}");
    applies(rt, graph, &given);
}

const FOLDER_OF_TWO: [(Line, Answer); 3] = [
    (
        Line::Vertex("v1", &["person"], &[]),
        Answer::Changes(&[Step::Label("v1", "person")]),
    ),
    (
        Line::Vertex("v2", &["person"], &[]),
        Answer::Changes(&[Step::Label("v2", "person")]),
    ),
    (
        Line::Edge("e1", "v1", "v2", "knows", &[]),
        Answer::Changes(&[Step::Edge("e1", "v1", "v2", "knows")]),
    ),
];

#[test]
fn a_folder_of_two_files_gives_two_labels_and_then_an_edge(rt: HostRuntime) {
    let mut graph = Graph::empty(rt.alloc(), 0);
    for (number, row) in FOLDER_OF_TWO.iter().enumerate() {
        answers(&rt, rt.alloc(), &mut graph, false, number, *row);
    }
    let copy = graph.copy().expect(&rt, "memory");
    assert!(rt; copy.sizes() == (2, 1, 0));
}

const IS_ANN: Line = Line::Vertex("v1", &[], &[At::Single("name", ANN)]);

const IS_BOB: Line = Line::Vertex("v1", &[], &[At::Single("name", BOB)]);

// The rows, with whether single values are updated.
const SINGLE_VALUES: [(bool, (Line, Answer)); 5] = [
    (
        false,
        (
            IS_ANN,
            Answer::Changes(&[
                Step::Label("v1", "vertex"),
                Step::Add(Side::Vertex, "v1", "name", ANN),
            ]),
        ),
    ),
    (false, (IS_ANN, Answer::Duplicate)),
    (false, (IS_BOB, Answer::Refused(LogCode::SingleConflict, 3))),
    (
        true,
        (
            IS_BOB,
            Answer::Changes(&[
                Step::Remove(Side::Vertex, "v1", "name", ANN),
                Step::Add(Side::Vertex, "v1", "name", BOB),
            ]),
        ),
    ),
    (true, (IS_BOB, Answer::Duplicate)),
];

#[test]
fn a_single_value_is_refused_or_takes_the_place_of_another(rt: HostRuntime) {
    let mut graph = Graph::empty(rt.alloc(), 0);
    for (number, (update_single, row)) in SINGLE_VALUES.iter().enumerate() {
        answers(&rt, rt.alloc(), &mut graph, *update_single, number, *row);
    }
    assert!(rt; graph.sizes() == (1, 0, 1));
}

const EDGE_ERRORS: [(Line, Answer); 4] = [
    (
        Line::Vertex("v1", &[], &[]),
        Answer::Changes(&[Step::Label("v1", "vertex")]),
    ),
    (
        Line::Edge("e1", "v1", "v1", "likes", &[]),
        Answer::Changes(&[Step::Edge("e1", "v1", "v1", "likes")]),
    ),
    (
        Line::Edge("e1", "v1", "v1", "knows", &[]),
        Answer::Refused(LogCode::EdgeConflict, 0),
    ),
    (
        Line::Edge("e2", "v1", "v9", "likes", &[]),
        Answer::Refused(LogCode::ToMissing, 0),
    ),
];

#[test]
fn an_edge_is_added_or_refused(rt: HostRuntime) {
    let mut graph = Graph::empty(rt.alloc(), 0);
    for (number, row) in EDGE_ERRORS.iter().enumerate() {
        answers(&rt, rt.alloc(), &mut graph, false, number, *row);
    }
    assert!(rt; graph.sizes() == (1, 1, 0));
}
