// One slot over its disk.
ghost use Rattle.std.specs.Prelude.{
  ◌≡◌,
  ◌⊎◌,
  ◌↔◌,
  ◌+◌,
  ◌<◌,
  ◌≤◌,
  ◌^◌,
  List,
  ℕ,
  length,
  Some,
  IfOk,
  OnOk,
  OnErr,
  IfErr,
  IfSome,
  IsErrOf,
  Ok,
  MatchResult,
};
ghost use Rattle.std.specs.declared.option.Option.{Option};
ghost use Rattle.bl_outside.specs.Counts.{HasDeviceCause, Rose};
ghost use Rattle.bl_outside.specs.Sound.{IsSound, IsSettled, Since};
ghost use Rattle.bl_snapshot.specs.SlotFiles.{behind_gate, slot_in, ClosedOr};
ghost use Rattle.bl_snapshot.specs.TwoSlots.{
  Holds,
  IsShut,
  LengthIs,
  NumbersAre,
  GateIs,
  Means,
  IsOfDevice,
};

use crate::Snapshot;
use crate::front::{BEHIND_GATE, BODY, GATE, NEW_FILE, NUMBERS, body_length, first_eight, fits};
use bl_outside::{Disk, JournalFault, Outside, Text, write_through};

/// What the file of an open slot says before its body.
#[derive(Clone, Copy, Debug, PartialEq, Eq)]
pub struct Numbers {
    pub entries: u64,
    pub place: u64,
    /// The length of what is behind the two numbers.
    pub rest: u32,
}

/// What stands at the place of the gate.
#[derive(Clone, Copy, Debug, PartialEq, Eq)]
pub enum Gate {
    /// The file has at most 16 bytes.
    Unfinished,
    Closed,
    Open,
}

// The length of the body, where the slot is open.
fn length_of<D: Disk>(disk: &mut D) -> Result<Option<u32>, JournalFault>
    ensures length { LengthIs (D.seen disk.old) result }
    ensures bound { IfOk result (λ found. IfSome found (λ n. 16 ≤ n)) }
    ensures seen { D.seen disk.new ≡ D.seen disk.old }
    ensures honest { D.honest disk.new ↔ D.honest disk.old }
    ensures crash { D.honest disk.old → (c : List ℕ) → D.may_leave disk.new c
        → D.may_leave disk.old c }
    ensures any_moment { D.honest disk.old
        → Since ⟦<D as Disk>⟧ disk.old disk.new (D.may_leave disk.old) }
    ensures store { IsErrOf result JournalFault.StoreFault
        → Rose (D.faults disk.old) (D.faults disk.new) }
    ensures later { D.faults disk.old ≤ D.faults disk.new }
{
    let size = disk.size()?;
    if size <= 16 {
        return Ok(None);
    }
    let front = disk.read_at(0, 20)?;
    let front = front.as_slice();
    if front.len() <= 16 {
        return Err(JournalFault::NotAJournal(GATE));
    }
    match body_length(front) {
        Err(place) => Err(JournalFault::NotAJournal(place)),
        Ok(None) => Ok(None),
        Ok(Some(length)) => {
            if !fits(size, length) {
                return Err(JournalFault::NotAJournal(GATE));
            }
            Ok(Some(length))
        }
    }
}

/// The two numbers, where the slot is open.
pub fn numbers_of<D: Disk>(disk: &mut D) -> Result<Option<Numbers>, JournalFault>
    ensures numbers { NumbersAre (D.seen disk.old) result }
    ensures seen { D.seen disk.new ≡ D.seen disk.old }
    ensures honest { D.honest disk.new ↔ D.honest disk.old }
    ensures crash { D.honest disk.old → (c : List ℕ) → D.may_leave disk.new c
        → D.may_leave disk.old c }
    ensures any_moment { D.honest disk.old
        → Since ⟦<D as Disk>⟧ disk.old disk.new (D.may_leave disk.old) }
    ensures store { IsErrOf result JournalFault.StoreFault
        → Rose (D.faults disk.old) (D.faults disk.new) }
    ensures later { D.faults disk.old ≤ D.faults disk.new }
{
    let length = match length_of(disk)? {
        None => return Ok(None),
        Some(length) => length,
    };
    let numbers = disk.read_at(NUMBERS, 16)?;
    let numbers = numbers.as_slice();
    if numbers.len() < 8 {
        return Err(JournalFault::NotAJournal(GATE));
    }
    Ok(Some(Numbers {
        entries: first_eight(numbers),
        place: first_eight(&numbers[8..]),
        rest: length - 16,
    }))
}

/// The snapshot behind these numbers of an open slot.
pub fn snapshot_behind<D: Disk>(disk: &mut D, numbers: Numbers) -> Result<Snapshot, JournalFault>
    ensures snapshot { (content : List ℕ) → D.seen disk.old ≡ Some content
        → NumbersAre (Some content) (Ok (Some numbers))
        → MatchResult result
        (λ snapshot. (slot_in content ≡ Ok (Some snapshot))
        × (snapshot.entries ≡ numbers.entries))
        IsOfDevice }
    ensures entries { IfOk result (λ snapshot. snapshot.entries ≡ numbers.entries) }
    ensures seen { D.seen disk.new ≡ D.seen disk.old }
    ensures honest { D.honest disk.new ↔ D.honest disk.old }
    ensures crash { D.honest disk.old → (c : List ℕ) → D.may_leave disk.new c
        → D.may_leave disk.old c }
    ensures any_moment { D.honest disk.old
        → Since ⟦<D as Disk>⟧ disk.old disk.new (D.may_leave disk.old) }
    ensures store { IsErrOf result JournalFault.StoreFault
        → Rose (D.faults disk.old) (D.faults disk.new) }
    ensures later { D.faults disk.old ≤ D.faults disk.new }
{
    let body = disk.read_at(BODY, numbers.rest)?;
    if body.len() != numbers.rest as usize {
        return Err(JournalFault::NotAJournal(GATE));
    }
    Ok(Snapshot {
        entries: numbers.entries,
        place: numbers.place,
        body,
    })
}

// What stands at the gate.
fn gate_of<D: Disk>(disk: &mut D) -> Result<Gate, Outside>
    ensures gate { IfOk result (GateIs (D.seen disk.old)) }
    ensures seen { D.seen disk.new ≡ D.seen disk.old }
    ensures honest { D.honest disk.new ↔ D.honest disk.old }
    ensures crash { D.honest disk.old → (c : List ℕ) → D.may_leave disk.new c
        → D.may_leave disk.old c }
    ensures any_moment { D.honest disk.old
        → Since ⟦<D as Disk>⟧ disk.old disk.new (D.may_leave disk.old) }
    ensures cause { HasDeviceCause (D.faults disk.old) (D.faults disk.new) result }
{
    if disk.size()? <= 16 {
        return Ok(Gate::Unfinished);
    }
    let gate = disk.read_at(GATE, 1)?;
    match gate.as_slice() {
        [1, ..] => Ok(Gate::Open),
        _ => Ok(Gate::Closed),
    }
}

/// Closes the slot: a file of at most 16 bytes gets its head, and an open gate is closed.
pub fn close_file<D: Disk>(disk: &mut D) -> Result<(), Outside>
    requires { IsSound ⟦<D as Disk>⟧ disk.old
        → (found : Option Snapshot) × Holds ⟦<D as Disk>⟧ disk.old found }
    ensures shut { OnOk result (IsSound ⟦<D as Disk>⟧ disk.old → IsShut ⟦<D as Disk>⟧ disk.new) }
    ensures any_moment { (found : Option Snapshot) → Holds ⟦<D as Disk>⟧ disk.old found
        → Since ⟦<D as Disk>⟧ disk.old disk.new (ClosedOr found) }
    ensures sound { IsSound ⟦<D as Disk>⟧ disk.old ↔ IsSound ⟦<D as Disk>⟧ disk.new }
    ensures cause { HasDeviceCause (D.faults disk.old) (D.faults disk.new) result }
{
    match gate_of(disk)? {
        Gate::Unfinished => write_through(disk, 0, &NEW_FILE)?,
        Gate::Open => write_through(disk, GATE, &[0])?,
        Gate::Closed => {}
    }
    Ok(())
}

/// Writes the bytes of a snapshot behind the closed gate of a slot, and opens it.
pub fn fill_file<D: Disk>(disk: &mut D, snapshot: &Snapshot, bytes: &[u8]) -> Result<(), Outside>
    requires bytes { bytes.now ≡ behind_gate snapshot.now }
    requires length { length snapshot.now.body + 16 < 2 ^ 32 }
    requires numbers { (snapshot.now.entries < 2 ^ 64) × (snapshot.now.place < 2 ^ 64) }
    requires shut { IsSound ⟦<D as Disk>⟧ disk.old → IsShut ⟦<D as Disk>⟧ disk.old }
    ensures filled { OnOk result (IsSound ⟦<D as Disk>⟧ disk.old
        → Holds ⟦<D as Disk>⟧ disk.new (Some snapshot.now)) }
    ensures any_moment { IsSound ⟦<D as Disk>⟧ disk.old
        → Since ⟦<D as Disk>⟧ disk.old disk.new (ClosedOr (Some snapshot.now)) }
    ensures sound { IsSound ⟦<D as Disk>⟧ disk.old ↔ IsSound ⟦<D as Disk>⟧ disk.new }
    ensures cause { HasDeviceCause (D.faults disk.old) (D.faults disk.new) result }
{
    write_through(disk, BEHIND_GATE, bytes)?;
    write_through(disk, GATE, &[1])?;
    Ok(())
}
