// The journal over a disk in memory.
ghost use Rattle.std.specs.Prelude.{
  ◌≡◌,
  ◌+◌,
  ◌*◌,
  ◌++◌,
  [],
  None,
  List,
  ℕ,
  length,
  OnOk,
  IfOk,
  IfSome,
};
ghost use Rattle.bl_journal.specs.Journals.{Ends, IsAtGate, Stands};
ghost use Rattle.bl_bench.specs.Counting.{Counted, alike};

use crate::counts::Counts;
use bl_journal::{AppendRefusal, Journal};
use bl_outside::{Disk, Faults, JournalFault, MemoryDisk, Text};
use std::alloc::Global;

const BODY: [u8; 100] = [7; 100];

// Appends frames that are all alike, and answers the place of the gate behind them.
fn append_frames(journal: &mut Journal<MemoryDisk>, frames: u64) -> Result<(), AppendRefusal>
    requires { Ends ⟦<MemoryDisk as Disk>⟧ journal.old [] }
    ensures ends { OnOk result (Ends ⟦<MemoryDisk as Disk>⟧ journal.new (alike frames)) }
    ensures place { OnOk result (journal.new.place ≡ journal.old.place + 105 * frames) }
{
    for _ in 0..frames {
        journal.append(&BODY)?;
    }
    Ok(())
}

// The same where the journal is new.
fn fill(journal: &mut Journal<MemoryDisk>, frames: u64) -> Option<()>
    requires gate { IsAtGate ⟦<MemoryDisk as Disk>⟧ journal.old }
    requires new { Stands (⟦<MemoryDisk as Disk>⟧.seen journal.old.disk) journal.old.place []
        ([], None) }
    ensures ends { IfSome result (λ _. Ends ⟦<MemoryDisk as Disk>⟧ journal.new (alike frames)) }
    ensures place { IfSome result (λ _. journal.new.place ≡ journal.old.place + 105 * frames) }
{
    let Ok(None) = journal.next() else {
        return None;
    };
    append_frames(journal, frames).ok()
}

// A journal of this many frames over a disk in memory.
fn filled(alloc: Global, frames: u64) -> Option<Journal<MemoryDisk>>
    ensures ends { IfSome result (λ journal. Ends ⟦<MemoryDisk as Disk>⟧ journal (alike frames)) }
    ensures place { IfSome result (λ journal. journal.place ≡ 15 + 105 * frames) }
{
    let Ok(disk) = MemoryDisk::new(alloc, Text::new(alloc), Faults::none(alloc)) else {
        return None;
    };
    let Ok(mut journal) = Journal::begin(alloc, disk) else {
        return None;
    };
    fill(&mut journal, frames)?;
    Some(journal)
}

// Reads a journal to its end. None where it can't be read, or a count is at its end.
fn read_frames(journal: &mut Journal<MemoryDisk>) -> Option<Counts>
    requires { IsAtGate ⟦<MemoryDisk as Disk>⟧ journal.old }
    ensures { (bodies : List (List ℕ)) →
        Stands (⟦<MemoryDisk as Disk>⟧.seen journal.old.disk) journal.old.place [] (bodies, None)
        → IfSome result (Counted bodies) }
{
    let mut bytes: u64 = 0;
    for frames in 0..u64::MAX {
        let Ok(found) = journal.next() else {
            return None;
        };
        let Some(body) = found else {
            return Some(Counts {
                items: frames,
                bytes,
            });
        };
        bytes = bytes.checked_add(body.len() as u64)?;
    }
    None
}

/// Appends frames to a new journal, and counts the bytes up to the gate behind them.
pub fn append(alloc: Global, frames: u64) -> Option<Counts>
    ensures frames { IfSome result (λ counts. counts.items ≡ frames) }
    ensures bytes { IfSome result (λ counts. counts.bytes ≡ 15 + 105 * frames) }
{
    let journal = filled(alloc, frames)?;
    Some(Counts {
        items: frames,
        bytes: journal.place(),
    })
}

/// Appends frames, opens the journal again, and counts the frames and the bytes of their bodies.
pub fn open(alloc: Global, frames: u64) -> Option<Counts>
    ensures frames { IfSome result (λ counts. counts.items ≡ frames) }
    ensures bytes { IfSome result (λ counts. counts.bytes ≡ 100 * frames) }
{
    let filled = filled(alloc, frames)?;
    let Ok(mut journal) = Journal::begin(alloc, filled.into_disk()) else {
        return None;
    };
    read_frames(&mut journal)
}
