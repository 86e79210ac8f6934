// Two slots.
ghost use Rattle.std.specs.Prelude.{
  ◌≡◌,
  ◌⊎◌,
  ◌↔◌,
  ◌+◌,
  ◌<◌,
  ◌≤◌,
  ◌^◌,
  List,
  ℕ,
  length,
  Some,
  Ok,
  IfOk,
  OnOk,
  OnErr,
  IfErr,
  IsErrOf,
  MatchResult,
};
ghost use Rattle.std.specs.declared.option.Option.{Option};
ghost use Rattle.bl_outside.specs.Counts.{Rose};
ghost use Rattle.bl_outside.specs.Sound.{IsSound, IsSettled, Since};
ghost use Rattle.bl_snapshot.specs.SlotFiles.{slot_in, entries_of};
ghost use Rattle.bl_snapshot.specs.TwoSlots.{
  NewestIs,
  FaultIs,
  NumbersAre,
  NumbersFault,
  entries_in,
  works_left as left_works,
  IsKnownAs,
  IsUntouched,
  IsOfDevice,
};

use crate::Snapshot;
use crate::slot_file::{Numbers, close_file, fill_file, numbers_of, snapshot_behind};
use crate::snapshot::bytes_behind_gate;
use bl_outside::{Disk, JournalFault, Outside};
use std::alloc::Global;
use std::marker::Model;

/// Two slots over their disks. Contracts see the disks, and for each the number of entries of the
/// snapshot that it holds, where it is known to be open.
#[derive(Drop)]
pub struct Slots<D: Disk> {
    alloc: Global,
    left: D,
    right: D,
    left_open: Option<u64>,
    right_open: Option<u64>,
}

impl<D: Disk> Model for Slots<D> {
    ghost use Rattle.bl_snapshot.specs.TwoSlots.{SlotsRecord, slots_code};

    ghost Value = { SlotsRecord D };

    ghost coded = { slots_code D.code };

    ghost view = { λ s. record {
      left = s.left;
      right = s.right;
      left_open = s.left_open;
      right_open = s.right_open;
    } };
}

// What a look at both slots found.
#[derive(Drop)]
struct Found {
    newest: Option<Snapshot>,
    left_open: Option<u64>,
    right_open: Option<u64>,
}

// The left slot is at work: it isn't the newest.
fn works_left(left_open: Option<u64>, right_open: Option<u64>) -> bool
    ensures { result ≡ left_works left_open right_open }
{
    match (left_open, right_open) {
        (None, _) => true,
        (Some(_), None) => false,
        (Some(left), Some(right)) => left < right,
    }
}

fn entries_in_slot(numbers: Option<Numbers>) -> Option<u64>
    ensures { result ≡ entries_in numbers }
{
    match numbers {
        None => None,
        Some(numbers) => Some(numbers.entries),
    }
}

// Syncs both disks.
fn sync_both<D: Disk>(left: &mut D, right: &mut D) -> Result<(), Outside>
    ensures left_settled { OnOk result (D.honest left.old → IsSettled ⟦<D as Disk>⟧ left.new) }
    ensures right_settled { OnOk result (D.honest right.old → IsSettled ⟦<D as Disk>⟧ right.new) }
    ensures left_untouched { IsUntouched ⟦<D as Disk>⟧ left.old left.new }
    ensures right_untouched { IsUntouched ⟦<D as Disk>⟧ right.old right.new }
    ensures store { IsErrOf result Outside.Failed
        → Rose (D.faults left.old) (D.faults left.new)
        ⊎ Rose (D.faults right.old) (D.faults right.new) }
    ensures left_later { D.faults left.old ≤ D.faults left.new }
    ensures right_later { D.faults right.old ≤ D.faults right.new }
{
    left.sync()?;
    right.sync()?;
    Ok(())
}

// The numbers of both slots. Both disks are synced before either is read.
fn numbers_of_both<D: Disk>(
    left: &mut D,
    right: &mut D,
) -> Result<(Option<Numbers>, Option<Numbers>), JournalFault>
    ensures left { IfOk result (λ found. NumbersAre (D.seen left.old) (Ok found.0)) }
    ensures right { IfOk result (λ found. NumbersAre (D.seen right.old) (Ok found.1)) }
    ensures fault { IfErr result (NumbersFault (D.seen left.old) (D.seen right.old)) }
    ensures left_settled { OnOk result (D.honest left.old → IsSettled ⟦<D as Disk>⟧ left.new) }
    ensures right_settled { OnOk result (D.honest right.old → IsSettled ⟦<D as Disk>⟧ right.new) }
    ensures left_untouched { IsUntouched ⟦<D as Disk>⟧ left.old left.new }
    ensures right_untouched { IsUntouched ⟦<D as Disk>⟧ right.old right.new }
    ensures store { IsErrOf result JournalFault.StoreFault
        → Rose (D.faults left.old) (D.faults left.new)
        ⊎ Rose (D.faults right.old) (D.faults right.new) }
    ensures left_later { D.faults left.old ≤ D.faults left.new }
    ensures right_later { D.faults right.old ≤ D.faults right.new }
{
    sync_both(left, right)?;
    let at_left = numbers_of(left)?;
    let at_right = numbers_of(right)?;
    Ok((at_left, at_right))
}

// The snapshot behind these numbers, where the slot is open.
fn snapshot_in<D: Disk>(
    disk: &mut D,
    numbers: Option<Numbers>,
) -> Result<Option<Snapshot>, JournalFault>
    ensures snapshot { (content : List ℕ) → D.seen disk.old ≡ Some content
        → NumbersAre (Some content) (Ok numbers)
        → MatchResult result (λ found. slot_in content ≡ Ok found) IsOfDevice }
    ensures entries { IfOk result (λ found. entries_of found ≡ entries_in numbers) }
    ensures untouched { IsUntouched ⟦<D as Disk>⟧ disk.old disk.new }
    ensures store { IsErrOf result JournalFault.StoreFault
        → Rose (D.faults disk.old) (D.faults disk.new) }
    ensures later { D.faults disk.old ≤ D.faults disk.new }
{
    match numbers {
        None => Ok(None),
        Some(numbers) => Ok(Some(snapshot_behind(disk, numbers)?)),
    }
}

// The newest snapshot, and the entries of both.
fn newest_of<D: Disk>(left: &mut D, right: &mut D) -> Result<Found, JournalFault>
    ensures newest { IfOk result (λ found.
        NewestIs (D.seen left.old) (D.seen right.old) found.newest) }
    ensures fault { IfErr result (FaultIs (D.seen left.old) (D.seen right.old)) }
    ensures left_known { IfOk result (λ found.
        IsKnownAs ⟦<D as Disk>⟧ left.new found.left_open) }
    ensures right_known { IfOk result (λ found.
        IsKnownAs ⟦<D as Disk>⟧ right.new found.right_open) }
    ensures left_settled { OnOk result (D.honest left.old → IsSettled ⟦<D as Disk>⟧ left.new) }
    ensures right_settled { OnOk result (D.honest right.old → IsSettled ⟦<D as Disk>⟧ right.new) }
    ensures left_untouched { IsUntouched ⟦<D as Disk>⟧ left.old left.new }
    ensures right_untouched { IsUntouched ⟦<D as Disk>⟧ right.old right.new }
    ensures store { IsErrOf result JournalFault.StoreFault
        → Rose (D.faults left.old) (D.faults left.new)
        ⊎ Rose (D.faults right.old) (D.faults right.new) }
    ensures left_later { D.faults left.old ≤ D.faults left.new }
    ensures right_later { D.faults right.old ≤ D.faults right.new }
{
    let (at_left, at_right) = numbers_of_both(left, right)?;
    let left_open = entries_in_slot(at_left);
    let right_open = entries_in_slot(at_right);
    if works_left(left_open, right_open) {
        let newest = snapshot_in(right, at_right)?;
        return Ok(Found {
            newest,
            left_open,
            right_open,
        });
    }
    let newest = snapshot_in(left, at_left)?;
    Ok(Found {
        newest,
        left_open,
        right_open,
    })
}

impl<D: Disk> Slots<D> {
    ghost use Rattle.bl_snapshot.specs.SlotFiles.{ClosedOr};
    ghost use Rattle.bl_snapshot.specs.TwoSlots.{
      Holds,
      IsShut,
      IsKnown,
      IsClosed,
      at_work,
      spared,
      is_left,
    };

    /// Over the disks of the left and the right slot. Nothing is looked at yet.
    pub fn over(alloc: Global, left: D, right: D) -> Slots<D>
        ensures { (result.left ≡ left) × (result.right ≡ right) }
    {
        Slots {
            alloc,
            left,
            right,
            left_open: None,
            right_open: None,
        }
    }

    /// Hands back the disks of the left and the right slot.
    pub fn into_disks(self) -> (D, D)
        ensures { result ≡ (self.left, self.right) }
    {
        let Slots {
            alloc: _,
            left,
            right,
            left_open: _,
            right_open: _,
        } = self;
        (left, right)
    }

    /// The open slot with more entries, the left one where both have as many, or none.
    ///
    /// Both disks are synced before either is read, so what was written of unknown fate is kept or
    /// lost from then on.
    pub fn newest(&mut self) -> Result<Option<Snapshot>, JournalFault>
        ensures newest { IfOk result (NewestIs (D.seen self.old.left) (D.seen self.old.right)) }
        ensures fault { IfErr result (FaultIs (D.seen self.old.left) (D.seen self.old.right)) }
        ensures known { OnOk result (IsKnown ⟦<D as Disk>⟧ self.new) }
        ensures left_settled { OnOk result (
            D.honest self.old.left → IsSettled ⟦<D as Disk>⟧ self.new.left) }
        ensures right_settled { OnOk result (
            D.honest self.old.right → IsSettled ⟦<D as Disk>⟧ self.new.right) }
        // At each moment a crash leaves what one might have left before.
        ensures left_untouched { IsUntouched ⟦<D as Disk>⟧ self.old.left self.new.left }
        ensures right_untouched { IsUntouched ⟦<D as Disk>⟧ self.old.right self.new.right }
        ensures store { IsErrOf result JournalFault.StoreFault
            → Rose (D.faults self.old.left) (D.faults self.new.left)
            ⊎ Rose (D.faults self.old.right) (D.faults self.new.right) }
        ensures left_later { D.faults self.old.left ≤ D.faults self.new.left }
        ensures right_later { D.faults self.old.right ≤ D.faults self.new.right }
    {
        let found = newest_of(&mut self.left, &mut self.right)?;
        let Found {
            newest,
            left_open,
            right_open,
        } = found;
        self.left_open = left_open;
        self.right_open = right_open;
        Ok(newest)
    }

    /// Closes the slot that isn't the newest, so that it can be filled.
    pub fn close_slot(&mut self) -> Result<(), JournalFault>
        requires { IsKnown ⟦<D as Disk>⟧ self.old }
        ensures closed { OnOk result (IsClosed ⟦<D as Disk>⟧ self.new) }
        // At each moment a crash leaves the slot at work closed, or with what it held.
        ensures any_moment { (found : Option Snapshot)
            → Holds ⟦<D as Disk>⟧ (at_work self.old self.old) found
            → Since ⟦<D as Disk>⟧ (at_work self.old self.old) (at_work self.old self.new)
            (ClosedOr found) }
        ensures untouched { spared self.old self.new ≡ spared self.old self.old }
        ensures side { is_left self.new ≡ is_left self.old }
        ensures refusals { IfErr result IsOfDevice }
        ensures sound { IsSound ⟦<D as Disk>⟧ (at_work self.old self.old)
            ↔ IsSound ⟦<D as Disk>⟧ (at_work self.old self.new) }
        ensures store { IsErrOf result JournalFault.StoreFault
            → Rose (D.faults (at_work self.old self.old)) (D.faults (at_work self.old self.new)) }
        ensures later { D.faults (at_work self.old self.old)
            ≤ D.faults (at_work self.old self.new) }
    {
        if works_left(self.left_open, self.right_open) {
            close_file(&mut self.left)?;
            self.left_open = None;
            return Ok(());
        }
        close_file(&mut self.right)?;
        self.right_open = None;
        Ok(())
    }

    /// Writes a snapshot into the slot that was closed, and opens it.
    ///
    /// From `Ok` on each crash leaves it whole.
    pub fn fill_slot(&mut self, snapshot: &Snapshot) -> Result<(), JournalFault>
        requires closed { IsClosed ⟦<D as Disk>⟧ self.old }
        requires length { length snapshot.now.body + 16 < 2 ^ 32 }
        ensures filled { OnOk result (IsSound ⟦<D as Disk>⟧ (at_work self.old self.old)
            → Holds ⟦<D as Disk>⟧ (at_work self.old self.new) (Some snapshot.now)) }
        ensures known { OnOk result (IsKnown ⟦<D as Disk>⟧ self.new) }
        // At each moment a crash leaves the slot closed, or with this snapshot whole.
        ensures any_moment { IsSound ⟦<D as Disk>⟧ (at_work self.old self.old)
            → Since ⟦<D as Disk>⟧ (at_work self.old self.old) (at_work self.old self.new)
            (ClosedOr (Some snapshot.now)) }
        ensures untouched { spared self.old self.new ≡ spared self.old self.old }
        ensures refusals { IfErr result IsOfDevice }
        ensures sound { IsSound ⟦<D as Disk>⟧ (at_work self.old self.old)
            ↔ IsSound ⟦<D as Disk>⟧ (at_work self.old self.new) }
        ensures store { IsErrOf result JournalFault.StoreFault
            → Rose (D.faults (at_work self.old self.old)) (D.faults (at_work self.old self.new)) }
        ensures later { D.faults (at_work self.old self.old)
            ≤ D.faults (at_work self.old self.new) }
    {
        let Ok(bytes) = bytes_behind_gate(self.alloc, snapshot) else {
            return Err(JournalFault::NoMemory);
        };
        if works_left(self.left_open, self.right_open) {
            fill_file(&mut self.left, snapshot, bytes.as_slice())?;
            self.left_open = Some(snapshot.entries);
            return Ok(());
        }
        fill_file(&mut self.right, snapshot, bytes.as_slice())?;
        self.right_open = Some(snapshot.entries);
        Ok(())
    }
}
