// Loads that are cancelled between the two halves of a turn.
ghost use Rattle.std.specs.Prelude.{IfOk};
ghost use Rattle.bl_load.specs.Tasks.{IsTask};

use crate::test_loader::{Loader, cancel, end, loader_with, submit};
use crate::test_texts::{commits, files, people, turns};
use bl_engine::{Engine, Trouble, TurnRefusal};
use bl_files::Mode;
use bl_load::{commit, prepare};
use bl_outside::{Disk, FixedClock};
use bl_workers::OpenGate;
use bl_world::{Task, Work};
use std::alloc::Global;
use std::process::Abort;
use std::thread::Threads;

// What is next. The world of a ready engine is one of entries, in which tasks have their parts.
fn next_task<D: Disk>(engine: &mut Engine<D>) -> Result<Task, Trouble>
    ensures { IfOk result IsTask }
{
    let task = engine.task()?;
    prove!(engine.is_ready());
    Ok(task)
}

// What is next is prepared, and then the first load is cancelled. The commit is refused, and gives
// what is next by then.
fn late<R: Threads + Sync + Abort>(rt: &R, alloc: Global, loader: &mut Loader) -> Option<Work> {
    let task = next_task(&mut loader.engine).expect(rt, "memory");
    let folder = &mut loader.folder;
    let prepared = prepare(rt, alloc, folder, &task, &mut loader.held, &OpenGate);
    let prepared = prepared.expect(rt, "memory");
    cancel(rt, loader, 1);
    let mut clock = FixedClock::new(0);
    match commit(&mut loader.engine, &mut clock, task.work, prepared) {
        Err(TurnRefusal::Stale(next)) => Some(next),
        _ => None,
    }
}

// A load, of which so many turns are made.
fn begin<R: Threads + Sync + Abort>(rt: &R, alloc: Global, made: u32, want: &str) -> Loader {
    let bytes = people(alloc, 1002, 0, "").expect(rt, "memory");
    let mut loader = loader_with(rt, alloc, bytes, &[]);
    submit(rt, alloc, &mut loader, Mode::New, true);
    turns(rt, alloc, &mut loader, made, want);
    loader
}

// No other load waits. Of the first there are three entries, and its cancel.
fn alone<R: Threads + Sync + Abort>(rt: &R, alloc: Global, loader: &mut Loader) {
    assert!(rt; late(rt, alloc, loader) == Some(Work::Idle));
    assert!(rt; loader.engine.seq() == 4);
    turns(rt, alloc, loader, 20, "idle; ");
    files(rt, alloc, loader, 1, "a.csv cancelled 1000; ");
    commits(rt, alloc, loader, "2000; ");
}

#[test]
fn nothing_is_committed_of_a_cancelled_load(rt: HostRuntime) {
    let mut loader = begin(&rt, rt.alloc(), 2, "planned; 1000 rows; ");
    alone(&rt, rt.alloc(), &mut loader);
    end(loader);
}

// A second load waits, which goes on with this one, or with none, for 0.
fn before_another<R: Threads + Sync + Abort>(
    rt: &R,
    alloc: Global,
    loader: &mut Loader,
    previous: u32,
    want: &str,
) {
    submit(rt, alloc, loader, Mode::Auto, true);
    let next = Work::Plan {
        job: 2,
        previous,
        no_previous: false,
    };
    assert!(rt; late(rt, alloc, loader) == Some(next), "{want}");
    turns(rt, alloc, loader, 20, want);
    files(rt, alloc, loader, 2, "a.csv completed 1002; ");
}

// The first load's plan, rows and end are prepared when it is cancelled. The second takes what the
// first did not.
#[test]
fn what_a_cancelled_load_prepared_is_made_by_the_next(rt: HostRuntime) {
    for (made, so_far, previous, want) in [
        (0, "", 0, "planned; 1000 rows; 2 rows; completed; idle; "),
        (
            2,
            "planned; 1000 rows; ",
            1,
            "planned; 2 rows; completed; idle; ",
        ),
        (
            3,
            "planned; 1000 rows; 2 rows; ",
            1,
            "planned; completed; idle; ",
        ),
    ] {
        let mut loader = begin(&rt, rt.alloc(), made, so_far);
        before_another(&rt, rt.alloc(), &mut loader, previous, want);
        commits(&rt, rt.alloc(), &loader, "2000; 4; ");
        end(loader);
    }
}
