// A journal over a disk.
ghost use Rattle.std.specs.Prelude.{
  ◌≡◌,
  ◌⊎◌,
  ◌↔◌,
  ◌+◌,
  ◌<◌,
  ◌≤◌,
  ◌^◌,
  ◌∷◌,
  ◌++◌,
  [],
  List,
  ℕ,
  length,
  take,
  IfOk,
  OnOk,
  OnErr,
  IfErr,
  IfSome,
  IsErrOf,
};
ghost use Rattle.std.specs.Result.{result_err};
ghost use Rattle.bl_outside.specs.Counts.{HasDeviceCause, Rose};
ghost use Rattle.bl_outside.specs.Disks.{OfContent};
ghost use Rattle.bl_journal.specs.Frames.{Found, WithOrWithout};
ghost use Rattle.bl_journal.specs.Journals.{IsSound, IsSettled, Since, Opens, GateIs, FrameIs};

use crate::AppendRefusal;
use crate::frame::{bytes_behind_gate, has_room, is_whole, length_in};
use crate::head::{FIRST_GATE, HEAD, NEW_FILE, difference, is_empty_journal};
use bl_outside::{Disk, JournalFault, Outside, Text, write_through};
use std::alloc::Global;
use std::marker::Model;

/// The frames of one file. Contracts see its disk, and the place of the gate at which it stands.
#[derive(Drop)]
pub struct Journal<D: Disk> {
    alloc: Global,
    disk: D,
    place: u64,
}

impl<D: Disk> Model for Journal<D> {
    ghost use Rattle.bl_journal.specs.Journals.{JournalRecord, journal_code};

    ghost Value = { JournalRecord D };

    ghost coded = { journal_code D.code };

    ghost view = { λ j. record { disk = j.disk; place = j.place } };
}

// Syncs, and then reads how long the file is and how it begins.
fn settled_front<D: Disk>(disk: &mut D) -> Result<(u64, Text), Outside>
    ensures size { IfOk result (λ found. OfContent (D.seen disk.old) length found.0) }
    ensures front { IfOk result (λ found.
        OfContent (D.seen disk.old) (λ content. take 16 content) found.1) }
    ensures settled { OnOk result (D.honest disk.old → IsSettled ⟦<D as Disk>⟧ disk.new) }
    ensures seen { D.seen disk.new ≡ D.seen disk.old }
    ensures honest { D.honest disk.new ↔ D.honest disk.old }
    ensures crash { D.honest disk.old → (c : List ℕ) → D.may_leave disk.new c
        → D.may_leave disk.old c }
    ensures any_moment { D.honest disk.old
        → Since ⟦<D as Disk>⟧ disk.old disk.new (D.may_leave disk.old) }
    ensures cause { HasDeviceCause (D.faults disk.old) (D.faults disk.new) result }
{
    disk.sync()?;
    let size = disk.size()?;
    let front = disk.read_at(0, 16)?;
    Ok((size, front))
}

// Settles the file, and checks its head, or writes it where the file isn't finished.
fn open_file<D: Disk>(disk: &mut D) -> Result<(), JournalFault>
    ensures { Opens ⟦<D as Disk>⟧ disk.old disk.new (result_err result) }
{
    let (size, front) = settled_front(disk)?;
    if size <= 16 {
        if is_empty_journal(front.as_slice()) {
            return Ok(());
        }
        write_through(disk, 0, &NEW_FILE)?;
        return Ok(());
    }
    match difference(0, &HEAD, front.as_slice()) {
        Some(place) => Err(JournalFault::NotAJournal(place)),
        None => Ok(()),
    }
}

// What stands at a gate: the length of an open frame's body, or none where it is closed.
fn length_at<D: Disk>(disk: &mut D, gate: u64) -> Result<Option<u32>, JournalFault>
    ensures gate { GateIs (D.seen disk.old) gate result }
    ensures bound { IfOk result (λ found. IfSome found (λ n. (0 < n) × (gate + 5 + n < 2 ^ 64))) }
    ensures seen { D.seen disk.new ≡ D.seen disk.old }
    ensures honest { D.honest disk.new ↔ D.honest disk.old }
    ensures crash { D.honest disk.old → (c : List ℕ) → D.may_leave disk.new c
        → D.may_leave disk.old c }
    ensures any_moment { D.honest disk.old
        → Since ⟦<D as Disk>⟧ disk.old disk.new (D.may_leave disk.old) }
    ensures store { IsErrOf result JournalFault.StoreFault
        → Rose (D.faults disk.old) (D.faults disk.new) }
    ensures later { D.faults disk.old ≤ D.faults disk.new }
{
    let size = disk.size()?;
    let front = disk.read_at(gate, 5)?;
    let length = match length_in(front.as_slice()) {
        None => return Ok(None),
        Some(length) => length,
    };
    if !is_whole(size, gate, length) {
        return Err(JournalFault::NotAJournal(gate));
    }
    Ok(Some(length))
}

// Reads the open frame at a gate, or none where it is closed.
fn frame_at<D: Disk>(disk: &mut D, gate: u64) -> Result<Option<Text>, JournalFault>
    ensures frame { FrameIs (D.seen disk.old) gate result }
    ensures bound { IfOk result (λ found. IfSome found (λ body.
        (0 < length body) × (gate + 5 + length body < 2 ^ 64))) }
    ensures seen { D.seen disk.new ≡ D.seen disk.old }
    ensures honest { D.honest disk.new ↔ D.honest disk.old }
    ensures crash { D.honest disk.old → (c : List ℕ) → D.may_leave disk.new c
        → D.may_leave disk.old c }
    ensures any_moment { D.honest disk.old
        → Since ⟦<D as Disk>⟧ disk.old disk.new (D.may_leave disk.old) }
    ensures store { IsErrOf result JournalFault.StoreFault
        → Rose (D.faults disk.old) (D.faults disk.new) }
    ensures later { D.faults disk.old ≤ D.faults disk.new }
{
    let length = match length_at(disk, gate)? {
        None => return Ok(None),
        Some(length) => length,
    };
    let body = disk.read_at(gate + 5, length)?;
    if body.len() != length as usize {
        return Err(JournalFault::NotAJournal(gate));
    }
    Ok(Some(body))
}

impl<D: Disk> Journal<D> {
    ghost use Rattle.std.specs.Prelude.{IsNone};
    ghost use Rattle.bl_journal.specs.Journals.{
      Stands,
      Ends,
      IsAtGate,
      IsAtEnd,
      disk_after,
      fault_after,
      NextIs,
      Moves,
      HasRoom,
      IsFull,
    };

    /// Begins over a disk. A refusal hands it back.
    pub fn begin(alloc: Global, disk: D) -> Result<Journal<D>, (JournalFault, D)>
        ensures place { IfOk result (λ journal. journal.place ≡ 15) }
        ensures at_gate { IfOk result (IsAtGate ⟦<D as Disk>⟧) }
        ensures opens { Opens ⟦<D as Disk>⟧ disk (disk_after result) (fault_after result) }
    {
        let mut disk = disk;
        match open_file(&mut disk) {
            Ok(()) => Ok(Journal {
                alloc,
                disk,
                place: FIRST_GATE,
            }),
            Err(fault) => Err((fault, disk)),
        }
    }

    /// Begins again at the first gate.
    ///
    /// It syncs before it reads, so an entry of unknown fate is kept or lost from then on.
    pub fn restart(&mut self) -> Result<(), JournalFault>
        ensures place { self.new.place ≡ 15 }
        ensures at_gate { OnOk result (IsAtGate ⟦<D as Disk>⟧ self.new) }
        ensures opens { Opens ⟦<D as Disk>⟧ self.old.disk self.new.disk (result_err result) }
    {
        self.place = FIRST_GATE;
        open_file(&mut self.disk)?;
        Ok(())
    }

    /// The place of the gate at which it stands.
    pub fn place(&self) -> u64
        ensures { result ≡ self.now.place }
    {
        self.place
    }

    /// Goes to another gate.
    pub fn seek(&mut self, place: u64)
        requires from_first { 15 ≤ place }
        requires gate { IsSound ⟦<D as Disk>⟧ self.old.disk
            → (done : List (List ℕ)) × (ahead : Found)
            × Stands (D.seen self.old.disk) place done ahead }
        ensures { self.new ≡ record { disk = self.old.disk; place = place } }
    {
        self.place = place;
    }

    /// The body of the open frame at the place, moving past it, or none at a closed gate.
    pub fn next(&mut self) -> Result<Option<Text>, JournalFault>
        ensures frame { FrameIs (D.seen self.old.disk) self.old.place result }
        ensures moves { Moves self.old.place self.new.place result }
        ensures seen { D.seen self.new.disk ≡ D.seen self.old.disk }

        // the same in the words of a reader who knows what he has read
        ensures stands { (done : List (List ℕ)) (ahead : Found)
            → Stands (D.seen self.old.disk) self.old.place done ahead
            → NextIs (D.seen self.new.disk) self.new.place done ahead result }
        ensures at_gate { IsAtGate ⟦<D as Disk>⟧ self.old → IsAtGate ⟦<D as Disk>⟧ self.new }
        ensures at_end { IsAtGate ⟦<D as Disk>⟧ self.old
            → IfOk result (λ body. IsNone body → IsAtEnd ⟦<D as Disk>⟧ self.new) }

        ensures settled { IsSettled ⟦<D as Disk>⟧ self.old.disk
            → IsSettled ⟦<D as Disk>⟧ self.new.disk }
        ensures any_moment { D.honest self.old.disk
            → Since ⟦<D as Disk>⟧ self.old.disk self.new.disk (D.may_leave self.old.disk) }
        ensures sound { IsSound ⟦<D as Disk>⟧ self.old.disk ↔ IsSound ⟦<D as Disk>⟧ self.new.disk }
        ensures store { IsErrOf result JournalFault.StoreFault
            → Rose (D.faults self.old.disk) (D.faults self.new.disk) }
        ensures later { D.faults self.old.disk ≤ D.faults self.new.disk }
    {
        match frame_at(&mut self.disk, self.place)? {
            None => Ok(None),
            Some(body) => {
                self.place += 5 + body.len() as u64;
                Ok(Some(body))
            }
        }
    }

    /// Adds a frame with this body, and answers the place of its gate.
    ///
    /// From `Ok` on each crash leaves a file that has it.
    pub fn append(&mut self, body: &[u8]) -> Result<u64, AppendRefusal>
        requires body { 0 < length body.now }
        requires at_end { IsAtEnd ⟦<D as Disk>⟧ self.old }

        ensures place { IfOk result (λ gate. (gate ≡ self.old.place)
            × (self.new.place ≡ self.old.place + 5 + length body.now)) }
        ensures acknowledged { OnOk result ((bodies : List (List ℕ))
            → Ends ⟦<D as Disk>⟧ self.old bodies
            → Ends ⟦<D as Disk>⟧ self.new (bodies ++ body.now ∷ [])) }
        ensures at_end { OnOk result (IsAtEnd ⟦<D as Disk>⟧ self.new) }
        // A crash at any moment of the call leaves the bodies from before it, with the new one or
        // without.
        ensures any_moment { (bodies : List (List ℕ)) → Ends ⟦<D as Disk>⟧ self.old bodies
            → Since ⟦<D as Disk>⟧ self.old.disk self.new.disk (WithOrWithout bodies body.now) }

        ensures room { OnOk result (HasRoom self.old.place (length body.now)) }
        ensures full { IsErrOf result AppendRefusal.Full
            → (self.new ≡ self.old) × IsFull self.old.place (length body.now) }
        ensures store { IsErrOf result AppendRefusal.StoreFault
            → HasRoom self.old.place (length body.now)
            × Rose (D.faults self.old.disk) (D.faults self.new.disk) }
        // Without room no device was called.
        ensures memory { IsErrOf result AppendRefusal.NoMemory
            → (self.new ≡ self.old) ⊎ HasRoom self.old.place (length body.now) }

        ensures still { OnErr result (self.new.place ≡ self.old.place) }
        ensures sound { IsSound ⟦<D as Disk>⟧ self.old.disk ↔ IsSound ⟦<D as Disk>⟧ self.new.disk }
        ensures later { D.faults self.old.disk ≤ D.faults self.new.disk }
    {
        let bytes = bytes_behind_gate(self.alloc, body)?;
        let gate = self.place;
        if !has_room(gate, body.len()) {
            return Err(AppendRefusal::Full);
        }
        let bytes = bytes.as_slice();
        write_through(&mut self.disk, gate + 1, bytes)?;
        write_through(&mut self.disk, gate, &[1])?;
        self.place = gate + 5 + body.len() as u64;
        Ok(gate)
    }

    /// Hands back the disk.
    pub fn into_disk(self) -> D
        ensures { result ≡ self.disk }
    {
        let Journal {
            alloc: _,
            disk,
            place: _,
        } = self;
        disk
    }
}
