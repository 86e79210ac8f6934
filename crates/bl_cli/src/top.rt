// The top call: a run of the program over whatever outside it is given.
ghost use Rattle.std.specs.Prelude.{◌≡◌, ◌⊎◌, ◌<◌, true, map, string_bytes, IfOk, IfErr, Ok, Err};
ghost use Rattle.bl_outside.specs.Counts.{Rose};
ghost use Rattle.bl_entry.specs.Valid.{IsRequest};
ghost use Rattle.bl_queue.specs.Statuses.{has_ended};
ghost use Rattle.bl_engine.specs.Images.{IsLeft};
ghost use Rattle.bl_engine.specs.Openings.{IsTold, Judges, Opens, found_after, journal_after};
ghost use Rattle.bl_cli.specs.Commands.{AskForNothing, AsksFor, IsLook};
ghost use Rattle.bl_cli.specs.Ends.{
  HasLine,
  IsCalm,
  IsCalmEnd,
  IsDone,
  IsNothing,
  IsQuiet,
  IsStatusOf,
  IsUnasked,
  MayHaveBegun,
};
ghost use Rattle.bl_cli.specs.LoadRuns.{IsUsedUp, LoadRuns, LoadsOver};
ghost use Rattle.bl_cli.specs.Runs.{
  Answers,
  FindsNoRoom,
  FindsNothing,
  HasReported,
  HasScripted,
  IsBegun,
  IsCarriedOut,
  IsEndOf,
  IsScript,
  Keeps,
  OfWords,
  Reports,
};
ghost use Rattle.bl_cli.specs.ScriptRuns.{ScriptRuns, input_of};
ghost use Rattle.bl_cli.specs.Shows.{PrintsText, ShowRuns, ShowsOver};
ghost use Rattle.bl_cli.specs.Stores.{OfFiles, RunsOver};
ghost use Rattle.bl_cli.specs.Words.{IsPlain};

use crate::asked::Asked;
use crate::command::{Command, Look};
use crate::commands::read_words;
use crate::help::HELP;
use crate::load_fault::LoadFault;
use crate::loads::make_load;
use crate::printing::print_load;
use crate::scripts::script_over;
use crate::shown::tell;
use crate::status::Status;
use bl_engine::{Engine, Trouble, left_files_are_never_bad};
use bl_outside::{Clock, Disk, Disks, Failed, Folder, NoMemory, Sink, Source, Steps};
use bl_queue::{Job, JobStatus};
use std::alloc::Global;
use std::marker::Brand;
use std::sync::ledger::{Blank, Ledger};
use std::thread::Threads;

// Opens a store. The counter of its steps is its own.
fn open_counted<D: Disk, L: Ledger>(
    alloc: Global,
    seed: u128,
    disks: Disks<D>,
    blank: Blank,
) -> Result<Engine<D>, (Trouble, Disks<D>)>
    requires name { blank.name ≡ L.name }
    requires parts { blank.parts ≡ L.parts }
    requires some { 0 < blank.parts }
    ensures opens { Opens ⟦<D as Disk>⟧ disks.journal (journal_after result) (found_after result) }
    ensures ready { IfOk result (λ engine. engine.ready ≡ true) }
    ensures slots { IfOk result (λ engine. (engine.left ≡ disks.left)
        × (engine.right ≡ disks.right)) }
    ensures back { IfErr result (λ refused. (refused.1.left ≡ disks.left)
        × (refused.1.right ≡ disks.right)) }
{
    let mut steps = Steps::<L>::new(blank);
    Engine::open_counted(alloc, seed, disks, &mut steps)
}

// The same, and nothing is told of the steps.
fn open_store<D: Disk>(
    alloc: Global,
    seed: u128,
    disks: Disks<D>,
) -> Result<Engine<D>, (Trouble, Disks<D>)>
    ensures opens { Opens ⟦<D as Disk>⟧ disks.journal (journal_after result) (found_after result) }
    ensures ready { IfOk result (λ engine. engine.ready ≡ true) }
    ensures slots { IfOk result (λ engine. (engine.left ≡ disks.left)
        × (engine.right ≡ disks.right)) }
    ensures back { IfErr result (λ refused. (refused.1.left ≡ disks.left)
        × (refused.1.right ≡ disks.right)) }
{
    open_counted::<D, Brand>(alloc, seed, disks, Blank::new(1))
}

// How a load ends whose job ended so.
fn done_status(ended: JobStatus) -> Status
    requires { has_ended ended ≡ true }
    ensures { IsStatusOf ended result }
{
    match ended {
        JobStatus::Completed => Status::Ok,
        _ => Status::JobNotCompleted,
    }
}

// A load over an engine that is ready.
fn load_over<R: Threads + Sync, F: Folder, D: Disk, K: Clock, O: Sink>(
    rt: &R,
    alloc: Global,
    load: Asked,
    engine: &mut Engine<D>,
    folder: &mut F,
    clock: &mut K,
    salt: u128,
    out: &mut O,
) -> Status
    requires ready { engine.old.ready ≡ true }
    requires valid { IsRequest load.request }
    requires plain { IsPlain load.request }
    ensures loads { LoadsOver ⟦<D as Disk>⟧ (F.files folder.old) salt load engine.old engine.new
        (O.written out.old) (O.written out.new) (O.faults out.old) (O.faults out.new) result }
    ensures files { F.files folder.new ≡ F.files folder.old }
{
    let Asked { request, changes } = load;
    let job = match make_load(rt, alloc, engine, folder, clock, salt, request) {
        Ok(job) => job,
        Err(fault) => return fault.status(),
    };
    match print_load(alloc, out, changes, &job, engine.commits().as_slice()) {
        Ok(()) => done_status(job.status),
        Err(outside) => LoadFault::from(outside).status(),
    }
}

// A load over a store.
fn load<R: Threads + Sync, F: Folder, D: Disk, K: Clock, O: Sink>(
    rt: &R,
    alloc: Global,
    load: Asked,
    folder: &mut F,
    disks: Disks<D>,
    clock: &mut K,
    salt: u128,
    out: &mut O,
) -> (Status, Disks<D>)
    requires valid { IsRequest load.request }
    requires plain { IsPlain load.request }
    ensures runs { LoadRuns ⟦<D as Disk>⟧ (F.files folder.old) salt load disks result.1
        (O.written out.old) (O.written out.new) (O.faults out.old) (O.faults out.new) result.0 }
    ensures files { F.files folder.new ≡ F.files folder.old }
{
    match open_store(alloc, salt, disks) {
        Err((trouble, disks)) => (LoadFault::from(trouble).status(), disks),
        Ok(mut engine) => {
            let status = load_over(rt, alloc, load, &mut engine, folder, clock, salt, out);
            // The world of a ready engine is one of entries.
            let _ = engine.is_ready();
            (status, engine.into_disks())
        }
    }
}

// Writes a text.
fn print<O: Sink>(text: &[u8], out: &mut O) -> Status
    ensures { PrintsText (O.written out.old) (O.written out.new) (O.faults out.old)
        (O.faults out.new) text.now result }
{
    match out.put(text) {
        Ok(()) => Status::Ok,
        Err(Failed) => Status::WriteFault,
    }
}

// Shows what an engine that is ready has.
fn show_over<D: Disk, O: Sink>(
    alloc: Global,
    look: Look,
    engine: &mut Engine<D>,
    out: &mut O,
) -> Status
    requires ready { engine.old.ready ≡ true }
    requires valid { IsLook look }
    ensures { ShowsOver ⟦<D as Disk>⟧ look engine.old engine.new (O.written out.old)
        (O.written out.new) (O.faults out.old) (O.faults out.new) result }
{
    match tell(alloc, engine, look) {
        Ok(text) => print(text.as_slice(), out),
        Err(status) => status,
    }
}

// Shows what a store has.
fn show<D: Disk, O: Sink>(
    alloc: Global,
    look: Look,
    disks: Disks<D>,
    salt: u128,
    out: &mut O,
) -> (Status, Disks<D>)
    requires { IsLook look }
    ensures { ShowRuns ⟦<D as Disk>⟧ look disks result.1 (O.written out.old) (O.written out.new)
        (O.faults out.old) (O.faults out.new) result.0 }
{
    match open_store(alloc, salt, disks) {
        Err((trouble, disks)) => (LoadFault::from(trouble).status(), disks),
        Ok(mut engine) => {
            let status = show_over(alloc, look, &mut engine, out);
            // The world of a ready engine is one of entries.
            let _ = engine.is_ready();
            (status, engine.into_disks())
        }
    }
}

// Answers the requests of the input over a store.
fn script<R: Threads + Sync, F: Folder, D: Disk, K: Clock, S: Source, O: Sink>(
    rt: &R,
    alloc: Global,
    turns: u64,
    folder: &mut F,
    disks: Disks<D>,
    clock: &mut K,
    salt: u128,
    input: &mut S,
    out: &mut O,
) -> (Status, Disks<D>)
    ensures runs { ScriptRuns ⟦<D as Disk>⟧ (F.files folder.old) salt turns
        (input_of (S.left input.old) (S.faults input.old) (S.faults input.new) (F.faults folder.old)) disks result.1 (O.written out.old)
        (O.written out.new) (O.faults out.old) (O.faults out.new) result.0 }
    ensures files { F.files folder.new ≡ F.files folder.old }
{
    match open_store(alloc, salt, disks) {
        Err((trouble, disks)) => (LoadFault::from(trouble).status(), disks),
        Ok(engine) => {
            let (status, engine) = script_over(
                rt, alloc, turns, engine, folder, clock, salt, input, out,
            );
            // The world of a ready engine is one of entries.
            let _ = engine.is_ready();
            (status, engine.into_disks())
        }
    }
}

// What the words ask for, without the line on the error output.
fn answer<R: Threads + Sync, F: Folder, D: Disk, K: Clock, S: Source, O: Sink>(
    rt: &R,
    alloc: Global,
    words: &[String],
    folder: &mut F,
    disks: Disks<D>,
    clock: &mut K,
    salt: u128,
    input: &mut S,
    out: &mut O,
) -> (Status, Disks<D>)
    ensures answers { Answers ⟦<D as Disk>⟧ (F.files folder.old) salt (map string_bytes words.now)
        (input_of (S.left input.old) (S.faults input.old) (S.faults input.new) (F.faults folder.old)) disks result.1 (O.written out.old) (O.written out.new) (O.faults out.old)
        (O.faults out.new) result.0 }
    ensures input { (input.new ≡ input.old) ⊎ OfWords (map string_bytes words.now) IsScript }
    ensures files { F.files folder.new ≡ F.files folder.old }
{
    match read_words(alloc, words) {
        Ok(Some(Command::Load(asked))) => load(rt, alloc, asked, folder, disks, clock, salt, out),
        Ok(Some(Command::Script(turns))) => {
            script(rt, alloc, turns, folder, disks, clock, salt, input, out)
        }
        Ok(Some(Command::Show(look))) => show(alloc, look, disks, salt, out),
        Ok(Some(Command::Help)) => (print(HELP, out), disks),
        Ok(None) => (Status::Usage, disks),
        Err(NoMemory) => (Status::NoMemory, disks),
    }
}

// The line of a status on the error output.
fn report<E: Sink>(status: Status, err: &mut E) -> Status
    ensures { Reports (E.written err.old) (E.written err.new) (E.faults err.old) (E.faults err.new)
        status result }
{
    match status {
        Status::Ok | Status::JobNotCompleted => status,
        _ => put_line(status, err),
    }
}

fn put_line<E: Sink>(status: Status, err: &mut E) -> Status
    requires { HasLine status }
    ensures { Reports (E.written err.old) (E.written err.new) (E.faults err.old) (E.faults err.new)
        status result }
{
    match status.write_line(err) {
        Ok(()) => status,
        Err(Failed) => Status::WriteFault,
    }
}

/// Runs the words behind ROOT and STORE over a folder, the disks of a store, a clock and streams,
/// and gives the disks back.
///
/// `load` opens the store, makes all turns that are unfinished, takes its load on, makes all turns
/// of it, and prints what it came to. Load ids are made of the salt, with which texts are hashed
/// too. `script` opens the store, answers the requests of the input one after another, each reply
/// written before more input is waited for, with turns behind each; behind the last one it makes
/// all turns that are left. `status` and `stream` open the store and print what it has, `help`
/// prints a text. Status 2
/// and above write their line on the error output. The runtime is for the threads that convert
/// records.
pub fn run<R: Threads + Sync, F: Folder, D: Disk, K: Clock, S: Source, O: Sink, E: Sink>(
    runtime: &R,
    alloc: Global,
    words: &[String],
    folder: &mut F,
    disks: Disks<D>,
    clock: &mut K,
    salt: u128,
    input: &mut S,
    out: &mut O,
    err: &mut E,
) -> (Status, Disks<D>)
    // Ok and JobNotCompleted: what the words ask for was done, and all of its output was written. A
    // load was taken on and has ended, by which status its job says, and each crash from now on
    // leaves it ended. What is shown is that of the world which the opening found.
    ensures done { IsDone result.0 → OfWords (map string_bytes words.now) (λ asked.
        IsCarriedOut ⟦<D as Disk>⟧ salt asked disks result.1 (O.written out.old)
        (O.written out.new) result.0) }

    // Where a sink failed or memory ran out the output is a front of what it was to be, or nothing
    // was written. With every other status nothing was, but by a script.
    ensures begun { MayHaveBegun result.0 → (O.written out.new ≡ O.written out.old)
        ⊎ OfWords (map string_bytes words.now) (λ asked. IsBegun ⟦<D as Disk>⟧ salt asked disks
        result.1 (O.written out.old) (O.written out.new)) }
    ensures quiet { IsQuiet result.0 → (O.written out.new ≡ O.written out.old)
        ⊎ OfWords (map string_bytes words.now) IsScript }

    // A script, by whatever status: over the engine that the opening made the requests of the input
    // were answered, in order, each by its reply whole or the last one by a front of it, with turns
    // behind each as they were asked for; each reply and turn is the one of its definition in the
    // world that it finds. A torn input, one that is too long and each fault end it where it stands;
    // else turns are made to the end, and the status tells of the first turn that was refused.
    ensures script { (turns : _) → AsksFor (map string_bytes words.now) (Command.Script turns)
        → HasScripted ⟦<D as Disk>⟧ (F.files folder.old) salt turns
        (input_of (S.left input.old) (S.faults input.old) (S.faults input.new) (F.faults folder.old)) disks result.1 (O.written out.old)
        (O.written out.new) (E.faults err.old) (E.faults err.new) result.0 }

    // UnknownLoad and NoRecords: the world that was found has no load of the id, or no event where
    // the page is to begin.
    ensures nothing { IsNothing result.0 → OfWords (map string_bytes words.now) (λ asked.
        FindsNothing ⟦<D as Disk>⟧ asked disks result.0) }

    // Each command has its own statuses. Nothing is appended to show something, and where help or
    // nothing is asked for the store isn't opened.
    ensures fits { (asked : _) → AsksFor (map string_bytes words.now) asked
        → IsEndOf asked result.0 × Keeps ⟦<D as Disk>⟧ asked disks result.1 }
    ensures unopened { AskForNothing (map string_bytes words.now) → result.1 ≡ disks }

    // Usage exactly where the words ask for nothing, but for want of memory.
    ensures usage { result.0 ≡ Status.Usage → AskForNothing (map string_bytes words.now) }

    // A fault only where a count rose.
    ensures read_fault { result.0 ≡ Status.ReadFault
        → Rose (S.faults input.old) (S.faults input.new) }
    ensures write_fault { result.0 ≡ Status.WriteFault → Rose (O.faults out.old) (O.faults out.new)
        ⊎ Rose (E.faults err.old) (E.faults err.new) }
    ensures store_fault { result.0 ≡ Status.StoreFault
        → Rose (D.faults disks.journal) (D.faults result.1.journal) }

    // A bad store exactly as the opening found it, at its place, or a turn of a script, over a store
    // that this program hasn't left; and the last number of a load.
    ensures bad_store { (place : _) → result.0 ≡ Status.BadStore place
        → (IsTold ⟦<D as Disk>⟧ disks.journal → Judges (D.seen disks.journal) (Err place))
        ⊎ (OfWords (map string_bytes words.now) IsScript × (¬ (IsLeft ⟦<D as Disk>⟧ disks))) }
    ensures used_up { result.0 ≡ Status.NumbersUsedUp → IsUsedUp ⟦<D as Disk>⟧ disks }

    // A full journal: behind entries that were appended, the next one, of a turn or of the load
    // itself, doesn't fit behind the gate at which the journal ends. For a script `script` says it
    // of the turn that was refused.
    ensures full { result.0 ≡ Status.JournalFull → IsLeft ⟦<D as Disk>⟧ disks
        → OfFiles (F.files folder.old) (λ files. OfWords (map string_bytes words.now) (λ asked.
        FindsNoRoom ⟦<D as Disk>⟧ files salt asked disks result.1)) }

    // Over a store that this program left, and told files: a crash at any moment leaves what one
    // might have left before, or entries on the way of this run's; loads that were stopped and gone
    // on with come to what one uninterrupted load comes to; and the store is left so again.
    ensures runs { IsLeft ⟦<D as Disk>⟧ disks → OfFiles (F.files folder.old)
        (λ files. RunsOver ⟦<D as Disk>⟧ files disks result.1) }
    ensures left { IsLeft ⟦<D as Disk>⟧ disks → OfFiles (F.files folder.old)
        (λ files. IsLeft ⟦<D as Disk>⟧ result.1) }

    // Over such a store, where no count rose, the command was done, or the answer has another cause.
    ensures complete { IsLeft ⟦<D as Disk>⟧ disks
        → IsCalm (D.faults disks.journal) (D.faults result.1.journal) (S.faults input.old)
        (S.faults input.new) (O.faults out.old) (O.faults out.new) (E.faults err.old)
        (E.faults err.new)
        → IsCalmEnd result.0 ⊎ AskForNothing (map string_bytes words.now) }
    ensures unasked { AskForNothing (map string_bytes words.now)
        → IsCalm (D.faults disks.journal) (D.faults result.1.journal) (S.faults input.old)
        (S.faults input.new) (O.faults out.old) (O.faults out.new) (E.faults err.old)
        (E.faults err.new)
        → IsUnasked result.0 }

    // The line of the status, whole, or a front of a line where the error output failed. What is
    // left alone stays as it was.
    ensures line { HasReported (E.written err.old) (E.written err.new) (E.faults err.old)
        (E.faults err.new) result.0 }
    ensures slots { (result.1.left ≡ disks.left) × (result.1.right ≡ disks.right) }
    ensures input { (input.new ≡ input.old) ⊎ OfWords (map string_bytes words.now) IsScript }
    ensures files { F.files folder.new ≡ F.files folder.old }
{
    left_files_are_never_bad();
    let (status, disks) = answer(
        runtime, alloc, words, folder, disks, clock, salt, input, out,
    );
    (report(status, err), disks)
}
