// Entries as the tables of tests write them, by way of their bytes.
ghost use Rattle.std.specs.Prelude.{◌≡◌, ◌<◌, IfSome};
ghost use Rattle.bl_entry.specs.Decoded.{Decodes};
ghost use Rattle.bl_entry.specs.Valid.{IsEntry};

use bl_entry::{Entry, EntryRefusal, decode};
use bl_outside::Steps;
use std::alloc::{AllocError, Global};
use std::marker::Brand;
use std::sync::ledger::{Blank, Ledger};

const SOURCE: &str = "s3://bucket/dir";

/// What is planned: files that are read, by their names; one that isn't, with its code; or a plan
/// of this number that has no files.
#[derive(Clone, Copy, Debug)]
pub enum Planned {
    Files(&'static [&'static str]),
    Unread(u8),
    None(u8),
}

/// An entry, by its moment and its job and then: the id of the load, its mode and whether it stops
/// at errors; nothing, for a load that may wait, whose id is its number, and for a cancel; the plan;
/// the file, the records before it, the rows, the duplicates, the logs by code and record, and the
/// vertices that get the label `p`; the file; the file and a log.
#[derive(Clone, Copy, Debug)]
pub enum Step {
    Submit(u64, u32, u128, u8, bool),
    Queue(u64, u32),
    Cancel(u64, u32),
    Start(u64, u32, Planned),
    Batch(u64, u32, u32, u64, u32, u32, &'static [(u8, u64)], &'static [&'static str]),
    End(u64, u32, u32),
    Stop(u64, u32, u32, (u8, u64)),
}

fn put(bytes: &mut Vec<u8>, more: &[u8]) -> Result<(), AllocError> {
    bytes.extend_from_slice(more)?;
    Ok(())
}

// A text, which is short.
fn put_text(bytes: &mut Vec<u8>, text: &str) -> Result<(), AllocError> {
    put(bytes, &(text.len() as u64).to_be_bytes()[4..])?;
    put(bytes, text.as_bytes())
}

fn put_number(bytes: &mut Vec<u8>, number: usize) -> Result<(), AllocError> {
    put(bytes, &(number as u64).to_be_bytes()[4..])
}

fn put_head(bytes: &mut Vec<u8>, kind: u8, moment: u64, job: u32) -> Result<(), AllocError> {
    put(bytes, &[kind])?;
    put(bytes, &moment.to_be_bytes())?;
    put(bytes, &job.to_be_bytes())
}

// A file that is read, or not with this code.
fn put_found(bytes: &mut Vec<u8>, name: &str, code: u8) -> Result<(), AllocError> {
    put_text(bytes, name)?;
    if code == 0 {
        put(bytes, &[0])?;
    } else {
        put(bytes, &[2, code, 0, 0, 0, 1])?;
    }
    put(bytes, &[7; 32])
}

fn put_plan(bytes: &mut Vec<u8>, plan: Planned) -> Result<(), AllocError> {
    match plan {
        Planned::Files(names) => {
            put(bytes, &[0])?;
            put_number(bytes, names.len())?;
            for name in names {
                put_found(bytes, name, 0)?;
            }
            Ok(())
        }
        Planned::Unread(code) => {
            put(bytes, &[0, 0, 0, 0, 1])?;
            put_found(bytes, "x", code)
        }
        Planned::None(number) => put(bytes, &[number]),
    }
}

fn put_log(bytes: &mut Vec<u8>, log: (u8, u64)) -> Result<(), AllocError> {
    put(bytes, &[log.0])?;
    put(bytes, &log.1.to_be_bytes())?;
    put(bytes, &[0, 0, 0, 0])
}

fn put_rows(
    bytes: &mut Vec<u8>,
    duplicates: u32,
    logs: &[(u8, u64)],
    changes: &[&str],
) -> Result<(), AllocError> {
    put(bytes, &[9; 32])?;
    put(bytes, &duplicates.to_be_bytes())?;
    put_number(bytes, logs.len())?;
    for log in logs {
        put_log(bytes, *log)?;
    }
    put_number(bytes, changes.len())?;
    for id in changes {
        put(bytes, &[1])?;
        put_text(bytes, id)?;
        put_text(bytes, "p")?;
    }
    Ok(())
}

fn bytes_of(alloc: Global, step: Step) -> Result<Vec<u8>, AllocError> {
    let mut bytes = Vec::new(alloc);
    match step {
        Step::Submit(moment, job, id, mode, stops) => {
            put_head(&mut bytes, 1, moment, job)?;
            put(&mut bytes, &id.to_be_bytes())?;
            put_text(&mut bytes, SOURCE)?;
            put(&mut bytes, &[0, mode, stops as u8, 0, 2, 0, 0, 0, 0, 0])?;
        }
        Step::Queue(moment, job) => {
            put_head(&mut bytes, 1, moment, job)?;
            put(&mut bytes, &(job as u128).to_be_bytes())?;
            put_text(&mut bytes, SOURCE)?;
            put(&mut bytes, &[0, 2, 0, 0, 2, 1, 0, 0, 0, 0])?;
        }
        Step::Cancel(moment, job) => put_head(&mut bytes, 2, moment, job)?,
        Step::Start(moment, job, plan) => {
            put_head(&mut bytes, 3, moment, job)?;
            put_plan(&mut bytes, plan)?;
        }
        Step::Batch(moment, job, feed, from, rows, duplicates, logs, changes) => {
            put_head(&mut bytes, 4, moment, job)?;
            put(&mut bytes, &feed.to_be_bytes())?;
            put(&mut bytes, &from.to_be_bytes())?;
            put(&mut bytes, &rows.to_be_bytes())?;
            put_rows(&mut bytes, duplicates, logs, changes)?;
        }
        Step::End(moment, job, feed) => {
            put_head(&mut bytes, 5, moment, job)?;
            put(&mut bytes, &feed.to_be_bytes())?;
            put(&mut bytes, &[0])?;
        }
        Step::Stop(moment, job, feed, log) => {
            put_head(&mut bytes, 5, moment, job)?;
            put(&mut bytes, &feed.to_be_bytes())?;
            put(&mut bytes, &[1])?;
            put_log(&mut bytes, log)?;
        }
    }
    Ok(bytes)
}

fn decoded<L: Ledger>(alloc: Global, blank: Blank, bytes: &[u8]) -> Result<Entry, EntryRefusal>
    requires name { blank.name ≡ L.name }
    requires parts { blank.parts ≡ L.parts }
    requires some { 0 < blank.parts }
    ensures { Decodes bytes.now result }
{
    let mut steps = Steps::<L>::new(blank);
    decode(alloc, bytes, &mut steps)
}

fn read(alloc: Global, bytes: &[u8]) -> Result<Entry, EntryRefusal>
    ensures { Decodes bytes.now result }
{
    decoded::<Brand>(alloc, Blank::new(1), bytes)
}

/// The entry. None: it has no bytes, or memory ran out.
pub fn entry(alloc: Global, step: Step) -> Option<Entry>
    ensures { IfSome result IsEntry }
{
    match bytes_of(alloc, step) {
        Ok(bytes) => match read(alloc, bytes.as_slice()) {
            Ok(entry) => Some(entry),
            Err(_) => None,
        },
        Err(_) => None,
    }
}
