//! Single layers of the program, to be timed from outside.
//!
//! `bl_bench LAYER SIZE` runs a layer on input of that size, which it makes in memory, and prints
//! counts alone, the same on each run. `bench/run.sh` times it.
//!
//! | Layer | What is done | Items and bytes that are counted |
//! |---|---|---|
//! | `append` | SIZE frames of 100 bytes are appended to a journal over a disk in memory | the frames, and the bytes up to the gate behind them |
//! | `open` | the same, and then the journal is opened again and read to its end | the frames, and the bytes of their bodies |
//! | `records` | SIZE rows of ten cells are read by `csv` alone | the rows, and the bytes of their fields |
//! | `convert` | the same rows are read, digested and converted | the same |
//! | `entries` | a batch of 1,000 rows and 3,000 changes is decoded and encoded SIZE times | the times, and the bytes written |
//! | `admit` | SIZE rows, half of them vertices and half edges, are admitted into a graph and their changes applied | what the rows did, and the sizes of the graph |
//! | `commit` | the same rows are taken by an engine over disks in memory, 1,000 with a call | the rows, the entries of the store, and the sizes of the graph |
//! | `reopen` | the same, and then the store is opened again | the same, of the engine that was opened |
//! | `requests` | SIZE small requests are read, one behind the other | the requests, and the bytes of their paths |
#![tactic(auto)]

mod admitting;
mod committing;
mod counts;
mod entries;
mod graph_rows;
mod journal;
mod loaded;
mod loading;
mod requests;
mod rows;

use admitting::Admitting;
use counts::Counts;
use loaded::Loaded;
use std::alloc::{AllocError, Global};
use std::process::ExitCode;
use std::{env, io};

// What a layer did.
#[derive(Drop)]
enum Work {
    Bytes(Counts),
    Rows(Admitting),
    Stored(Loaded),
}

// A layer that goes through bytes.
fn through_bytes(alloc: Global, layer: &str, size: u64) -> Option<Counts> {
    match layer {
        "append" => journal::append(alloc, size),
        "open" => journal::open(alloc, size),
        "records" => rows::records(alloc, size),
        "convert" => rows::converted(alloc, size),
        "entries" => entries::entries(alloc, size),
        "requests" => requests::requests(alloc, size),
        _ => None,
    }
}

// The layer of this name at a size. None where there is none, or it failed.
fn run(alloc: Global, layer: &str, size: u64) -> Option<Work> {
    match layer {
        "admit" => Some(Work::Rows(admitting::admitted(alloc, size)?)),
        "commit" => Some(Work::Stored(committing::commit(alloc, size)?)),
        "reopen" => Some(Work::Stored(committing::reopen(alloc, size)?)),
        _ => Some(Work::Bytes(through_bytes(alloc, layer, size)?)),
    }
}

// The line that tells of the work.
fn line(alloc: Global, work: &Work) -> Result<String, AllocError> {
    match work {
        Work::Bytes(counts) => format!(in alloc; "items {} bytes {}", counts.items, counts.bytes),
        Work::Rows(done) => {
            let (vertices, edges, values) = done.graph.sizes();
            format!(in alloc;
                "rows {} changes {} duplicates {} refused {} vertices {vertices} edges {edges} values {values}",
                done.rows, done.changes, done.duplicates, done.refused
            )
        }
        Work::Stored(loaded) => format!(in alloc;
            "rows {} entries {} vertices {} edges {} values {}",
            loaded.rows, loaded.entries, loaded.vertices, loaded.edges, loaded.values
        ),
    }
}

fn main(rt: HostRuntime) -> io::Result<ExitCode> {
    let mut words = env::args(&rt)?.skip(1);
    let layer = words.next();
    let size = words.next().and_then(|word| word.parse::<u64>().ok());
    let (Some(layer), Some(size)) = (layer, size) else {
        println!(rt; "usage: bl_bench LAYER SIZE")?;
        return Ok(ExitCode::from(2));
    };
    let Some(work) = run(rt.alloc(), layer.as_str(), size) else {
        println!(rt; "no such layer, or it failed")?;
        return Ok(ExitCode::FAILURE);
    };
    println!(rt; "{}", line(rt.alloc(), &work)?)?;
    Ok(ExitCode::SUCCESS)
}
