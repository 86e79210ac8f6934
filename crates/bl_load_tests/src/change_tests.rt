// Folders that fail, or change between two turns.
use crate::test_loader::{
    FileTable, Loader, end, folder, loader_of, loader_with, put, put_all, submit,
};
use crate::test_texts::{ends_by, files, loads, people, turns};
use bl_files::Mode;
use bl_load::Held;
use bl_value::LogCode;
use std::alloc::Global;
use std::process::Abort;
use std::thread::Threads;

// ---- the folder fails

// Call 1 lists the folder, 2 to 5 read the files for the plan, and 6 to 8 read the first again.
const TWO: FileTable = &[("a.csv", "~id\nv1\n"), ("b.csv", "~id\nw1\n")];

fn not_planned<R: Threads + Sync + Abort>(rt: &R, alloc: Global, loader: &mut Loader) {
    loads(rt, alloc, loader, Mode::New, false, "planned; idle; ");
    ends_by(rt, loader, 1, LogCode::ListFault);
}

#[test]
fn a_folder_that_can_t_be_read_ends_the_load(rt: HostRuntime) {
    for call in 1..6 {
        let mut loader = loader_of(&rt, rt.alloc(), TWO, call);
        not_planned(&rt, rt.alloc(), &mut loader);
        end(loader);
    }
}

fn not_read<R: Threads + Sync + Abort>(rt: &R, alloc: Global, loader: &mut Loader) {
    let want = "planned; read error; idle; ";
    loads(rt, alloc, loader, Mode::New, false, want);
    files(rt, alloc, loader, 1, "a.csv read error 0; b.csv cut 0; ");
    let want = "planned; 1 rows; completed; 1 rows; completed; idle; ";
    loads(rt, alloc, loader, Mode::Resume, false, want);
}

#[test]
fn a_file_that_can_t_be_read_ends_the_load(rt: HostRuntime) {
    for call in 6..9 {
        let mut loader = loader_of(&rt, rt.alloc(), TWO, call);
        not_read(&rt, rt.alloc(), &mut loader);
        end(loader);
    }
}

// ---- the folder changes between two turns

// The first 1,000 of 1,002 records are taken.
fn half_way<R: Threads + Sync + Abort>(rt: &R, alloc: Global) -> Loader {
    let bytes = people(alloc, 1002, 0, "").expect(rt, "memory");
    let mut loader = loader_with(rt, alloc, bytes, &[]);
    submit(rt, alloc, &mut loader, Mode::New, true);
    turns(rt, alloc, &mut loader, 2, "planned; 1000 rows; ");
    loader
}

// The file has so many records by now.
fn has_records<R: Abort>(rt: &R, alloc: Global, loader: &mut Loader, count: u32) {
    let bytes = people(alloc, count, 0, "").expect(rt, "memory");
    put(rt, alloc, &mut loader.folder, "a.csv", bytes);
}

// The folder has no more than these files by now.
fn has_files<R: Abort>(rt: &R, alloc: Global, loader: &mut Loader, table: FileTable) {
    loader.folder = folder(rt, alloc, 65_536, 0);
    put_all(rt, alloc, &mut loader.folder, table);
}

const HELD: &str = "2 rows; completed; idle; ";

fn held_with<R: Threads + Sync + Abort>(rt: &R, alloc: Global, count: u32) {
    let mut loader = half_way(rt, alloc);
    has_records(rt, alloc, &mut loader, count);
    turns(rt, alloc, &mut loader, 20, HELD);
    end(loader);
}

#[test]
fn a_file_that_is_held_isn_t_read_again(rt: HostRuntime) {
    for count in [2, 1000, 1003] {
        held_with(&rt, rt.alloc(), count);
    }
    let mut loader = half_way(&rt, rt.alloc());
    has_files(&rt, rt.alloc(), &mut loader, &[]);
    turns(&rt, rt.alloc(), &mut loader, 20, HELD);
    end(loader);
}

// As after a start of the loader nothing is held.
fn again_with<R: Threads + Sync + Abort>(rt: &R, alloc: Global, count: u32, want: &str) {
    let mut loader = half_way(rt, alloc);
    loader.held = Held::none();
    has_records(rt, alloc, &mut loader, count);
    turns(rt, alloc, &mut loader, 20, want);
    end(loader);
}

#[test]
fn a_file_that_is_read_again_has_what_was_taken_or_is_modified(rt: HostRuntime) {
    for (count, want) in [
        (999, "modified; idle; "),
        (1000, "completed; idle; "),
        (1001, "1 rows; completed; idle; "),
        (1002, "2 rows; completed; idle; "),
        (1003, "3 rows; completed; idle; "),
    ] {
        again_with(&rt, rt.alloc(), count, want);
    }
}

const EDGES: FileTable = &[("a.csv", "~id,~from,~to\ne1,v1,v2\n")];

const REFUSED: FileTable = &[("a.csv", "~id,age:Float\nv1,1\n")];

const OTHERS: FileTable = &[("b.csv", "~id\nw1\n")];

// The file is modified, and once it is there as it was the next load goes on behind its records.
fn modified<R: Threads + Sync + Abort>(
    rt: &R,
    alloc: Global,
    loader: &mut Loader,
    table: FileTable,
) {
    loader.held = Held::none();
    has_files(rt, alloc, loader, table);
    turns(rt, alloc, loader, 20, "modified; idle; ");
    files(rt, alloc, loader, 1, "a.csv modified 1000; ");
    has_files(rt, alloc, loader, &[]);
    has_records(rt, alloc, loader, 1002);
    let want = "planned; 2 rows; completed; idle; ";
    loads(rt, alloc, loader, Mode::Resume, true, want);
}

// Its header is one of edges, or refused, or it has none, or it isn't there any more.
#[test]
fn another_header_is_a_modified_file(rt: HostRuntime) {
    let tables: [FileTable; 4] = [EDGES, REFUSED, &[("a.csv", "")], OTHERS];
    for table in &tables {
        let mut loader = half_way(&rt, rt.alloc());
        modified(&rt, rt.alloc(), &mut loader, table);
        end(loader);
    }
}

// A load that goes on keeps the kind of a file of which records were taken.
fn other_kind<R: Threads + Sync + Abort>(rt: &R, alloc: Global, loader: &mut Loader) {
    has_records(rt, alloc, loader, 999);
    loader.held = Held::none();
    turns(rt, alloc, loader, 20, "modified; idle; ");
    has_files(rt, alloc, loader, EDGES);
    let want = "planned; modified; idle; ";
    loads(rt, alloc, loader, Mode::Resume, true, want);
    files(rt, alloc, loader, 2, "a.csv modified 1000; ");
}

#[test]
fn a_file_that_was_cut_stays_of_its_kind(rt: HostRuntime) {
    let mut loader = half_way(&rt, rt.alloc());
    other_kind(&rt, rt.alloc(), &mut loader);
    end(loader);
}
