// Loads that go on with others.
use crate::test_loader::{FileTable, Loader, cancel, end, loader_with, put, submit};
use crate::test_texts::{commits, files, loads, people, turns};
use bl_files::Mode;
use std::alloc::Global;
use std::process::Abort;
use std::thread::Threads;

// Of each vertex a label is committed, and of those of a.csv an age beside it.
const B: FileTable = &[("b.csv", "~id\nw1\n")];

// A loader of b.csv, and of so many people in a.csv, of whom one has this age.
fn with_people<R: Abort>(rt: &R, alloc: Global, count: u32, odd: u32, age: &str) -> Loader {
    let bytes = people(alloc, count, odd, age).expect(rt, "memory");
    loader_with(rt, alloc, bytes, B)
}

// So many people are in a.csv by now, of whom one has this age.
fn change<R: Abort>(rt: &R, alloc: Global, loader: &mut Loader, count: u32, odd: u32, age: &str) {
    let bytes = people(alloc, count, odd, age).expect(rt, "memory");
    put(rt, alloc, &mut loader.folder, "a.csv", bytes);
}

// ---- two loads

fn stopped<R: Threads + Sync + Abort>(rt: &R, alloc: Global, loader: &mut Loader) {
    let want = "planned; 1000 rows; failed; idle; ";
    loads(rt, alloc, loader, Mode::New, true, want);
    files(rt, alloc, loader, 1, "a.csv failed 1000; b.csv cut 0; ");
    commits(rt, alloc, loader, "2000; ");
    assert!(rt; loader.engine.seq() == 4);
}

fn resumed<R: Threads + Sync + Abort>(rt: &R, alloc: Global, loader: &mut Loader) {
    let want = "planned; 2 rows; completed; 1 rows; completed; idle; ";
    loads(rt, alloc, loader, Mode::Resume, true, want);
    let want = "a.csv completed 1002; b.csv completed 1; ";
    files(rt, alloc, loader, 2, want);
    commits(rt, alloc, loader, "2000; 4; 1; ");
}

#[test]
fn a_stopped_load_is_resumed(rt: HostRuntime) {
    let alloc = rt.alloc();
    let mut loader = with_people(&rt, alloc, 1002, 1001, "x");
    stopped(&rt, alloc, &mut loader);
    change(&rt, alloc, &mut loader, 1002, 0, "");
    resumed(&rt, alloc, &mut loader);
    end(loader);
}

// A load is cancelled behind its first batch.
fn cut<R: Threads + Sync + Abort>(rt: &R, alloc: Global, loader: &mut Loader) {
    submit(rt, alloc, loader, Mode::New, true);
    turns(rt, alloc, loader, 2, "planned; 1000 rows; ");
    cancel(rt, loader, 1);
    let want = "a.csv cancelled 1000; b.csv cancelled 0; ";
    files(rt, alloc, loader, 1, want);
}

#[test]
fn a_cancelled_load_is_gone_on_with(rt: HostRuntime) {
    let alloc = rt.alloc();
    let mut loader = with_people(&rt, alloc, 1002, 0, "");
    cut(&rt, alloc, &mut loader);
    let want = "planned; 2 rows; completed; 1 rows; completed; idle; ";
    loads(&rt, alloc, &mut loader, Mode::Auto, true, want);
    let want = "a.csv completed 1002; b.csv completed 1; ";
    files(&rt, alloc, &mut loader, 2, want);
    end(loader);
}

// The age of the third of those that were taken is another one by now.
#[test]
fn a_file_that_was_changed_is_not_gone_on_with(rt: HostRuntime) {
    let alloc = rt.alloc();
    let mut loader = with_people(&rt, alloc, 1002, 0, "");
    cut(&rt, alloc, &mut loader);
    change(&rt, alloc, &mut loader, 1002, 3, "0");
    let want = "planned; modified; idle; ";
    loads(&rt, alloc, &mut loader, Mode::Auto, true, want);
    files(
        &rt,
        alloc,
        &mut loader,
        2,
        "a.csv modified 1000; b.csv cut 0; ",
    );
    end(loader);
}

// ---- three loads

// The first stops at a record, which is mended then.
fn first<R: Threads + Sync + Abort>(rt: &R, alloc: Global, loader: &mut Loader) {
    let want = "planned; 1000 rows; failed; idle; ";
    loads(rt, alloc, loader, Mode::New, true, want);
    files(rt, alloc, loader, 1, "a.csv failed 1000; b.csv cut 0; ");
    commits(rt, alloc, loader, "2000; ");
    change(rt, alloc, loader, 2003, 0, "");
}

// The second is cancelled behind its first batch.
fn second<R: Threads + Sync + Abort>(rt: &R, alloc: Global, loader: &mut Loader) {
    submit(rt, alloc, loader, Mode::Resume, true);
    turns(rt, alloc, loader, 2, "planned; 1000 rows; ");
    cancel(rt, loader, 2);
    turns(rt, alloc, loader, 1, "idle; ");
    let want = "a.csv cancelled 2000; b.csv cancelled 0; ";
    files(rt, alloc, loader, 2, want);
    commits(rt, alloc, loader, "2000; 2000; ");
}

// The third comes to the end.
fn third<R: Threads + Sync + Abort>(rt: &R, alloc: Global, loader: &mut Loader) {
    let want = "planned; 3 rows; completed; 1 rows; completed; idle; ";
    loads(rt, alloc, loader, Mode::Auto, true, want);
    let want = "a.csv completed 2003; b.csv completed 1; ";
    files(rt, alloc, loader, 3, want);
    files(rt, alloc, loader, 1, "a.csv failed 1000; b.csv cut 0; ");
}

// What the loads come to, in however many runs: 2,004 vertices, and the ages of all but one.
fn all_is_there<R: Abort>(rt: &R, alloc: Global, loader: &mut Loader) {
    commits(rt, alloc, loader, "2000; 2000; 6; 1; ");
    assert!(rt; loader.engine.sizes() == Ok((2004, 0, 2003)));
}

#[test]
fn three_loads_come_to_the_whole(rt: HostRuntime) {
    let alloc = rt.alloc();
    let mut loader = with_people(&rt, alloc, 2003, 1001, "x");
    first(&rt, alloc, &mut loader);
    second(&rt, alloc, &mut loader);
    third(&rt, alloc, &mut loader);
    all_is_there(&rt, alloc, &mut loader);
    end(loader);
}

#[test]
fn one_load_comes_to_the_same(rt: HostRuntime) {
    let alloc = rt.alloc();
    let mut loader = with_people(&rt, alloc, 2003, 0, "");
    let want = "planned; 1000 rows; 1000 rows; 3 rows; completed; 1 rows; completed; idle; ";
    loads(&rt, alloc, &mut loader, Mode::New, true, want);
    all_is_there(&rt, alloc, &mut loader);
    end(loader);
}
