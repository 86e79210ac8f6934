// The line of a job.
ghost use Rattle.std.specs.Prelude.{◌≡◌, ◌++◌, IfOk, OnOk};
ghost use Rattle.std.specs.List.{flat_map};
ghost use Rattle.bl_cli.specs.Outputs.{job_line, number_behind, numbers_of};

use crate::job_text::{id_text, status_text};
use bl_files::{Counts, totals};
use bl_outside::{NoMemory, Text};
use bl_queue::Job;
use std::alloc::Global;

// Adds a space and the number in decimal digits.
fn push_number(alloc: Global, text: &mut Text, number: u64) -> Result<(), NoMemory>
    ensures { OnOk result (text.new ≡ text.old ++ number_behind number) }
{
    let digits = format!(in alloc; " {number}")?;
    text.extend(digits.as_bytes())
}

fn push_numbers(alloc: Global, text: &mut Text, numbers: &[u64]) -> Result<(), NoMemory>
    ensures { OnOk result (text.new ≡ text.old ++ flat_map number_behind numbers.now) }
{
    for number in numbers {
        push_number(alloc, text, *number)?;
    }
    Ok(())
}

fn push_counts(alloc: Global, text: &mut Text, counts: &Counts) -> Result<(), NoMemory>
    ensures { OnOk result (text.new ≡ text.old ++ flat_map number_behind (numbers_of counts.now)) }
{
    push_numbers(
        alloc,
        text,
        &[
            counts.records,
            counts.duplicates,
            counts.parsing,
            counts.datatype,
            counts.insert,
        ],
    )
}

/// The line of a job: its id, its status and its totals.
pub fn job_line(alloc: Global, job: &Job) -> Result<Text, NoMemory>
    ensures { IfOk result (λ line. line ≡ job_line job.now) }
{
    let mut line = id_text(alloc, job.id)?;
    line.push(b' ')?;
    line.extend(status_text(job.status).as_bytes())?;
    push_counts(alloc, &mut line, &totals(&job.feeds))?;
    line.push(b'\n')?;
    Ok(line)
}
