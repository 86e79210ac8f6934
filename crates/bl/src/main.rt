//! The program `bl`: loads of property graph CSV, as the Neptune bulk loader makes them.
//!
//! `bl ROOT STORE load s3://BUCKET/KEY [options]` loads the files at `ROOT/BUCKET/KEY` into the
//! graph that the store keeps; `status` and `stream` show what it has. `main` hands the real
//! folder, disks and streams to [`bl_cli::run`], whose contract says what each answer means and
//! what a crash leaves.
#![tactic(auto)]

use bl_cli::{Status, run};
use bl_outside::{Disks, FixedClock};
use bl_system::{FileDisk, ReadSource, RealFolder, WriteSink};
use std::alloc::{AllocError, Global};
use std::env;
use std::fs::File;
use std::io::ErrorKind;
use std::process::ExitCode;
use std::thread::Threads;

// A slot of the store, where the store is open.
fn slot_at(
    rt: &HostRuntime,
    alloc: Global,
    store: &str,
    name: &str,
    open: bool,
) -> Result<FileDisk, AllocError> {
    if !open {
        return Ok(FileDisk::closed(alloc));
    }
    let path = format!(in alloc; "{store}/{name}")?;
    Ok(FileDisk::open(rt, alloc, store, path.as_str()))
}

// The files of a store. The journal is locked as long as the program runs; where another program
// has locked it, no file is opened.
fn disks_of(rt: &HostRuntime, alloc: Global, store: &str) -> Result<Disks<FileDisk>, AllocError> {
    let path = format!(in alloc; "{store}/journal.bl")?;
    let journal = FileDisk::open_locked(rt, alloc, store, path.as_str());
    let open = journal.is_open();
    Ok(Disks {
        journal,
        left: slot_at(rt, alloc, store, "left.bl", open)?,
        right: slot_at(rt, alloc, store, "right.bl", open)?,
    })
}

// Files that aren't opened, for a command that needs none.
fn no_disks(alloc: Global) -> Disks<FileDisk> {
    Disks {
        journal: FileDisk::closed(alloc),
        left: FileDisk::closed(alloc),
        right: FileDisk::closed(alloc),
    }
}

fn is_help(command: &[String]) -> bool {
    match command {
        [word] => word.as_str() == "help",
        _ => false,
    }
}

// The arguments behind the program's own name, or why they can't be had: one is no text, or memory
// ran out.
fn arguments(rt: &HostRuntime) -> Result<Vec<String>, Status> {
    let all = match env::args(rt) {
        Ok(all) => all,
        Err(e) if e.kind() == ErrorKind::OutOfMemory => return Err(Status::NoMemory),
        Err(_) => return Err(Status::Usage),
    };
    let mut words = Vec::new(rt.alloc());
    for word in all.skip(1) {
        if words.push(word).is_err() {
            return Err(Status::NoMemory);
        }
    }
    Ok(words)
}

// Runs the words over the real folder, disks and streams.
fn run_real<R: Threads + Sync>(
    runtime: &R,
    rt: HostRuntime,
    words: &[String],
) -> Result<Status, AllocError> {
    let [root, store, command @ ..] = words else {
        return Ok(refuse(rt, Status::Usage));
    };
    let alloc = rt.alloc();
    let mut folder = RealFolder::new(rt, root.clone()?);
    let disks = if is_help(command) {
        no_disks(alloc)
    } else {
        disks_of(&rt, alloc, store.as_str())?
    };
    let mut clock = FixedClock::new(0);
    let mut input = ReadSource::new(rt.stdin());
    let mut out = WriteSink::new(rt.stdout());
    let mut err = WriteSink::new(rt.stderr());
    let (status, _) = run(
        runtime,
        alloc,
        command,
        &mut folder,
        disks,
        &mut clock,
        0,
        &mut input,
        &mut out,
        &mut err,
    );
    Ok(status)
}

// A refusal before the run, with its line.
fn refuse(rt: HostRuntime, status: Status) -> Status {
    match status.write_line(&mut WriteSink::new(rt.stderr())) {
        Ok(()) => status,
        Err(_) => Status::WriteFault,
    }
}

// A file of the null device, where there is one.
fn null_device(rt: &HostRuntime) -> Option<File> {
    File::open(rt, "/dev/null").ok()
}

// A standard stream that the caller closed leaves its number to the file that is opened next. Files
// of the null device take these numbers first, so that none is given to a file of the store, over
// which the output would be written.
fn main(rt: HostRuntime) -> ExitCode {
    let _held = [null_device(&rt), null_device(&rt), null_device(&rt)];
    let status = match arguments(&rt) {
        Ok(words) => match run_real(&rt, rt, &words) {
            Ok(status) => status,
            Err(_) => refuse(rt, Status::NoMemory),
        },
        Err(status) => refuse(rt, status),
    };
    ExitCode::from(status.code())
}
