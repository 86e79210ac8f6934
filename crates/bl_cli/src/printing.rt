// What a load prints, written in large pieces.
ghost use Rattle.std.specs.Prelude.{◌≡◌, ◌++◌, [], IfOk, OnOk, OnErr};
ghost use Rattle.std.specs.List.{All};
ghost use Rattle.bl_outside.specs.Counts.{HasDeviceCause};
ghost use Rattle.bl_value.specs.Valid.{IsPrintable};
ghost use Rattle.bl_cli.specs.Outputs.{
  change_lines,
  commit_lines,
  event_line,
  job_line,
  lines_if,
  load_output,
  own_lines,
};
ghost use Rattle.bl_cli.specs.Printing.{Adds, AddsFront, Prints, PrintsFront, Written};

use crate::outputs::job_line;
use bl_change::{Event, print_event};
use bl_outside::{Failed, NoMemory, Outside, Sink, Text};
use bl_queue::Job;
use bl_value::Change;
use bl_world::JobCommit;
use std::alloc::Global;

/// The bytes that wait at most before they are written, but for those of one line.
const LARGE: usize = 65_536;

// Writes what waits.
fn flush<O: Sink>(alloc: Global, out: &mut O, waiting: &mut Text) -> Result<(), Outside>
    ensures ok { OnOk result (Prints [] (O.written out.old) waiting.old (O.written out.new)
        waiting.new) }
    ensures empty { OnOk result (waiting.new ≡ []) }
    ensures front { OnErr result (PrintsFront [] (O.written out.old) waiting.old
        (O.written out.new)) }
    ensures cause { HasDeviceCause (O.faults out.old) (O.faults out.new) result }
{
    match out.put(waiting.as_slice()) {
        Ok(()) => {
            *waiting = Text::new(alloc);
            Ok(())
        }
        Err(Failed) => Err(Outside::Failed),
    }
}

// Prints a text.
fn print_text<O: Sink>(
    alloc: Global,
    out: &mut O,
    waiting: &mut Text,
    text: &Text,
) -> Result<(), Outside>
    ensures ok { OnOk result (Prints text.now (O.written out.old) waiting.old (O.written out.new)
        waiting.new) }
    ensures front { OnErr result (PrintsFront text.now (O.written out.old) waiting.old
        (O.written out.new)) }
    ensures cause { HasDeviceCause (O.faults out.old) (O.faults out.new) result }
{
    waiting.extend(text.as_slice())?;
    if waiting.len() >= LARGE {
        return flush(alloc, out, waiting);
    }
    Ok(())
}

fn line_of(
    alloc: Global,
    commit: u64,
    op: u64,
    moment: u64,
    last: bool,
    change: &Change,
) -> Result<Text, NoMemory>
    requires { IsPrintable change.now }
    ensures { IfOk result (λ line. line ≡ event_line (record {
      commit = commit;
      op = op;
      moment = moment;
      last = last;
      change = change.now;
    })) }
{
    let event = Event {
        commit,
        op,
        moment,
        last,
        change: change.copy(alloc)?,
    };
    let mut line = print_event(alloc, &event)?;
    line.push(b'\n')?;
    Ok(line)
}

// Prints a line for each change of a commit.
fn print_commit<O: Sink>(
    alloc: Global,
    out: &mut O,
    waiting: &mut Text,
    number: u64,
    commit: &JobCommit,
) -> Result<(), Outside>
    requires { All IsPrintable commit.now.changes }
    ensures ok { OnOk result (Prints (commit_lines (number, commit.now)) (O.written out.old)
        waiting.old (O.written out.new) waiting.new) }
    ensures front { OnErr result (PrintsFront (commit_lines (number, commit.now))
        (O.written out.old) waiting.old (O.written out.new)) }
    ensures cause { HasDeviceCause (O.faults out.old) (O.faults out.new) result }
{
    let changes = commit.changes.as_slice();
    let moment = commit.moment;
    for (i, change) in changes.iter().enumerate() {
        let op = i as u64 + 1;
        let last = i + 1 == changes.len();
        let line = line_of(alloc, number, op, moment, last, change)?;
        print_text(alloc, out, waiting, &line)?;
    }
    Ok(())
}

// The same, where the commit is one of the job.
fn print_own<O: Sink>(
    alloc: Global,
    out: &mut O,
    waiting: &mut Text,
    job: u32,
    number: u64,
    commit: &JobCommit,
) -> Result<(), Outside>
    requires { All IsPrintable commit.now.changes }
    ensures ok { OnOk result (Prints (own_lines job (number, commit.now)) (O.written out.old)
        waiting.old (O.written out.new) waiting.new) }
    ensures front { OnErr result (PrintsFront (own_lines job (number, commit.now))
        (O.written out.old) waiting.old (O.written out.new)) }
    ensures cause { HasDeviceCause (O.faults out.old) (O.faults out.new) result }
{
    if commit.job == job {
        return print_commit(alloc, out, waiting, number, commit);
    }
    Ok(())
}

// Prints the lines of the commits of a job.
fn print_commits<O: Sink>(
    alloc: Global,
    out: &mut O,
    waiting: &mut Text,
    job: u32,
    commits: &[JobCommit],
) -> Result<(), Outside>
    requires { All (λ commit. All IsPrintable commit.changes) commits.now }
    ensures ok { OnOk result (Prints (change_lines job commits.now) (O.written out.old)
        waiting.old (O.written out.new) waiting.new) }
    ensures front { OnErr result (PrintsFront (change_lines job commits.now) (O.written out.old)
        waiting.old (O.written out.new)) }
    ensures cause { HasDeviceCause (O.faults out.old) (O.faults out.new) result }
{
    for (i, commit) in commits.iter().enumerate() {
        print_own(alloc, out, waiting, job, i as u64 + 1, commit)?;
    }
    Ok(())
}

// The same, where that is asked for.
fn print_changes<O: Sink>(
    alloc: Global,
    out: &mut O,
    waiting: &mut Text,
    changes: bool,
    job: u32,
    commits: &[JobCommit],
) -> Result<(), Outside>
    requires { All (λ commit. All IsPrintable commit.changes) commits.now }
    ensures ok { OnOk result (Prints (lines_if changes job commits.now) (O.written out.old)
        waiting.old (O.written out.new) waiting.new) }
    ensures front { OnErr result (PrintsFront (lines_if changes job commits.now)
        (O.written out.old) waiting.old (O.written out.new)) }
    ensures cause { HasDeviceCause (O.faults out.old) (O.faults out.new) result }
{
    if changes {
        return print_commits(alloc, out, waiting, job, commits);
    }
    Ok(())
}

/// Prints what a load comes to: a line for each change of its commits, where that is asked for, and
/// the line of its job.
pub fn print_load<O: Sink>(
    alloc: Global,
    out: &mut O,
    changes: bool,
    job: &Job,
    commits: &[JobCommit],
) -> Result<(), Outside>
    requires { All (λ commit. All IsPrintable commit.changes) commits.now }
    ensures ok { OnOk result (Written (O.written out.old) (O.written out.new)
        (Adds (load_output changes job.now commits.now))) }
    ensures front { OnErr result (Written (O.written out.old) (O.written out.new)
        (AddsFront (load_output changes job.now commits.now))) }
    ensures cause { HasDeviceCause (O.faults out.old) (O.faults out.new) result }
{
    let mut waiting = Text::new(alloc);
    print_changes(alloc, out, &mut waiting, changes, job.number, commits)?;
    print_end(alloc, out, &mut waiting, job)
}

// Prints the line of the job, and writes all that waits.
fn print_end<O: Sink>(
    alloc: Global,
    out: &mut O,
    waiting: &mut Text,
    job: &Job,
) -> Result<(), Outside>
    ensures ok { OnOk result (Written (O.written out.old) (O.written out.new)
        (Adds (waiting.old ++ job_line job.now))) }
    ensures front { OnErr result (PrintsFront (job_line job.now) (O.written out.old) waiting.old
        (O.written out.new)) }
    ensures cause { HasDeviceCause (O.faults out.old) (O.faults out.new) result }
{
    let line = job_line(alloc, job)?;
    print_text(alloc, out, waiting, &line)?;
    flush(alloc, out, waiting)
}
