// Loads over folders and disks in memory, turn by turn.
use crate::test_loader::{FileTable, Loader, end, folder, loader_over, loader_with, put, put_all};
use crate::test_texts::{commits, ends_by, files, has_feeds, loads, numbers, people};
use bl_files::Mode;
use bl_outside::{MemoryFolder, Text};
use bl_value::LogCode;
use std::alloc::Global;
use std::process::Abort;
use std::thread::Threads;

// ---- what is loaded

// Two vertices, an edge between them, and what isn't read.
const MIXED: FileTable = &[
    ("e.csv", "~id,~from,~to\ne1,v1,v2\n"),
    ("inside/w.csv", "~id\nw1\n"),
    ("v.csv", "~id\nv1\nv2\n"),
    ("x.csv.gz", "~id\nx1\n"),
    ("y.csv", "name\ny1\n"),
    ("z.csv", ""),
];

// Vertices come before edges, whatever the files are called.
const MIXED_TURNS: &str = "planned; 2 rows; completed; completed; 1 rows; completed; idle; ";

const MIXED_FILES: &str =
    "x.csv.gz failed 0; y.csv failed 0; v.csv completed 2; z.csv completed 0; e.csv completed 1; ";

fn mixed_is_loaded<R: Threads + Sync + Abort>(
    rt: &R,
    alloc: Global,
    loader: &mut Loader,
    number: u32,
) {
    loads(rt, alloc, loader, Mode::New, false, MIXED_TURNS);
    files(rt, alloc, loader, number, MIXED_FILES);
    commits(rt, alloc, loader, "2; 1; ");
}

// The folder is read in such pieces.
fn mixed<R: Abort>(rt: &R, alloc: Global, piece: u32) -> Loader {
    let mut bucket = folder(rt, alloc, piece, 0);
    put_all(rt, alloc, &mut bucket, MIXED);
    loader_over(rt, alloc, bucket)
}

fn mixed_in_pieces<R: Threads + Sync + Abort>(rt: &R, alloc: Global, piece: u32) {
    let mut loader = mixed(rt, alloc, piece);
    mixed_is_loaded(rt, alloc, &mut loader, 1);
    end(loader);
}

#[test]
fn files_in_a_folder_are_loaded(rt: HostRuntime) {
    for piece in [1, 7, 4096] {
        mixed_in_pieces(&rt, rt.alloc(), piece);
    }
}

#[test]
fn the_same_load_again_commits_nothing(rt: HostRuntime) {
    let mut loader = mixed(&rt, rt.alloc(), 4096);
    mixed_is_loaded(&rt, rt.alloc(), &mut loader, 1);
    mixed_is_loaded(&rt, rt.alloc(), &mut loader, 2);
    end(loader);
}

// ---- batches

// The load of the one file a.csv comes to these turns.
fn one_file<R: Threads + Sync + Abort>(rt: &R, alloc: Global, bytes: Text, want: &str) {
    let mut loader = loader_with(rt, alloc, bytes, &[]);
    loads(rt, alloc, &mut loader, Mode::New, false, want);
    end(loader);
}

#[test]
fn a_batch_ends_at_a_thousand_rows(rt: HostRuntime) {
    for (count, want) in [
        (1000, "planned; 1000 rows; completed; idle; "),
        (1001, "planned; 1000 rows; 1 rows; completed; idle; "),
        (2000, "planned; 1000 rows; 1000 rows; completed; idle; "),
    ] {
        let bytes = people(rt.alloc(), count, 0, "").expect(&rt, "memory");
        one_file(&rt, rt.alloc(), bytes, want);
    }
}

// The first of five records has so many values, and each other 4,096.
fn five_records<R: Threads + Sync + Abort>(rt: &R, alloc: Global, first: u32, want: &str) {
    let bytes = numbers(alloc, first).expect(rt, "memory");
    one_file(rt, alloc, bytes, want);
}

#[test]
fn a_batch_ends_at_16384_values(rt: HostRuntime) {
    let want = "planned; 4 rows; 1 rows; completed; idle; ";
    five_records(&rt, rt.alloc(), 4096, want);
}

#[test]
fn a_batch_of_16383_values_takes_another_row(rt: HostRuntime) {
    let want = "planned; 5 rows; completed; idle; ";
    five_records(&rt, rt.alloc(), 4095, want);
}

// ---- files

// So many files that aren't read.
fn many_files<R: Abort>(rt: &R, alloc: Global, count: u32) -> MemoryFolder {
    let mut bucket = folder(rt, alloc, 65_536, 0);
    for number in 0..count {
        let name = format!(in alloc; "{number}.gz").expect(rt, "memory");
        put(rt, alloc, &mut bucket, name.as_str(), Text::new(alloc));
    }
    bucket
}

#[test]
fn a_load_has_at_most_4096_files(rt: HostRuntime) {
    let bucket = many_files(&rt, rt.alloc(), 4096);
    let mut loader = loader_over(&rt, rt.alloc(), bucket);
    loads(
        &rt,
        rt.alloc(),
        &mut loader,
        Mode::New,
        false,
        "planned; idle; ",
    );
    has_feeds(&rt, &mut loader, 1, 4096);
    end(loader);
}

#[test]
fn a_load_of_4097_files_fails(rt: HostRuntime) {
    let bucket = many_files(&rt, rt.alloc(), 4097);
    let mut loader = loader_over(&rt, rt.alloc(), bucket);
    loads(
        &rt,
        rt.alloc(),
        &mut loader,
        Mode::New,
        false,
        "planned; idle; ",
    );
    ends_by(&rt, &mut loader, 1, LogCode::TooManyFiles);
    end(loader);
}
