ghost use Rattle.std.specs.Prelude.{
  ◌≡◌,
  ◌↔◌,
  ◌≤◌,
  List,
  ℕ,
  length,
  take,
  drop,
  IfOk,
  OnOk,
  OnErr,
  is_some,
  Some,
};
ghost use Rattle.std.specs.declared.option.Option.{Option};
ghost use Rattle.bl_outside.specs.Counts.{HasDeviceCause};
ghost use Rattle.bl_outside.specs.Disks.{
  overwritten,
  Torn,
  Follows,
  OnlySeen,
  StepsTold,
  OfContent,
  IsInside,
  Elapses,
};

use crate::{Outside, Text};

/// One file on a disk, as reads see it and as a crash may leave it.
pub trait Disk {
    /// What reads see, where it is told.
    ghost seen: { Self → Option (List ℕ) };

    /// It keeps the disk model. No call changes that.
    ghost honest: { Self → Type 0 };

    /// What a crash at this moment may leave.
    ghost may_leave: { Self → List ℕ → Type 0 };

    /// The moment, as a number that doesn't fall.
    ghost moment: { Self → ℕ };

    /// What a crash at some moment from that one on might have left, during a call or between two.
    ghost left_since: { Self → ℕ → List ℕ → Type 0 };

    /// How often it has failed.
    ghost faults: { Self → ℕ };

    fn size(&mut self) -> Result<u64, Outside>
        ensures size { IfOk result (OfContent (seen self.old) length) }
        ensures seen { seen self.new ≡ seen self.old }
        ensures honest { honest self.new ↔ honest self.old }
        ensures crash { honest self.old → (c : List ℕ) → may_leave self.new c
            → may_leave self.old c }
        ensures time { Elapses (moment self.old) (moment self.new) (left_since self.old)
            (left_since self.new) (may_leave self.new) }
        ensures cause { HasDeviceCause (faults self.old) (faults self.new) result };

    fn read_at(&mut self, at: u64, most: u32) -> Result<Text, Outside>
        ensures bytes { IfOk result (OfContent (seen self.old)
            (λ content. take most (drop at content))) }
        ensures most { IfOk result (λ bytes. length bytes ≤ most) }
        ensures seen { seen self.new ≡ seen self.old }
        ensures honest { honest self.new ↔ honest self.old }
        ensures crash { honest self.old → (c : List ℕ) → may_leave self.new c
            → may_leave self.old c }
        ensures time { Elapses (moment self.old) (moment self.new) (left_since self.old)
            (left_since self.new) (may_leave self.new) }
        ensures cause { HasDeviceCause (faults self.old) (faults self.new) result };

    fn write_at(&mut self, at: u64, bytes: &[u8]) -> Result<(), Outside>
        requires { honest self.old → IsInside (seen self.old) at }
        ensures written { OnOk result (honest self.old → StepsTold
            (λ old new. new ≡ overwritten old at bytes.now) (seen self.old) (seen self.new)) }
        ensures refused { OnErr result (honest self.old
            → StepsTold (Torn at (length bytes.now)) (seen self.old) (seen self.new)) }
        ensures told { is_some (seen self.new) ≡ is_some (seen self.old) }
        ensures honest { honest self.new ↔ honest self.old }
        ensures crash { honest self.old → Follows (Torn at (length bytes.now)) (may_leave self.old)
            (may_leave self.new) }
        ensures time { Elapses (moment self.old) (moment self.new) (left_since self.old)
            (left_since self.new) (may_leave self.new) }
        ensures cause { HasDeviceCause (faults self.old) (faults self.new) result };

    fn sync(&mut self) -> Result<(), Outside>
        ensures durable { OnOk result (honest self.old → OnlySeen (seen self.new)
            (may_leave self.new)) }
        ensures seen { seen self.new ≡ seen self.old }
        ensures honest { honest self.new ↔ honest self.old }
        ensures crash { honest self.old → (c : List ℕ) → may_leave self.new c
            → may_leave self.old c }
        ensures time { Elapses (moment self.old) (moment self.new) (left_since self.old)
            (left_since self.new) (may_leave self.new) }
        ensures cause { HasDeviceCause (faults self.old) (faults self.new) result };

    /// This moment is one of those since an earlier one.
    ghost counts_now: { (disk : Self) (t : ℕ) (c : List ℕ) → t ≤ moment disk → may_leave disk c
        → left_since disk t c };

    /// Since this moment there is no other.
    ghost only_now: { (disk : Self) (c : List ℕ) → left_since disk (moment disk) c
        → may_leave disk c };

    /// A crash may leave what reads see.
    ghost seen_is_image: { (disk : Self) (c : List ℕ) → honest disk → seen disk ≡ Some c
        → may_leave disk c };
}
