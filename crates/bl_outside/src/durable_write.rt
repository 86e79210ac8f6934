// A write that is on the disk once it is done.
ghost use Rattle.std.specs.Prelude.{◌≡◌, ◌↔◌, length, is_some, OnOk};
ghost use Rattle.bl_outside.specs.Counts.{HasDeviceCause};
ghost use Rattle.bl_outside.specs.Disks.{
  overwritten,
  OnlySeen,
  StepsTold,
  IsInside,
  LeavesOnly,
  AsBeforeOrTorn,
};

use crate::{Disk, Outside};

/// Writes and syncs: two device calls.
///
/// A crash at any moment leaves what one might have left before, or that with the write torn.
pub fn write_through<D: Disk>(disk: &mut D, at: u64, bytes: &[u8]) -> Result<(), Outside>
    requires { D.honest disk.old → IsInside (D.seen disk.old) at }
    ensures written { OnOk result (D.honest disk.old
        → StepsTold (λ old new. new ≡ overwritten old at bytes.now) (D.seen disk.old)
        (D.seen disk.new)) }
    ensures durable { OnOk result (D.honest disk.old
        → OnlySeen (D.seen disk.new) (D.may_leave disk.new)) }
    ensures any_moment { D.honest disk.old
        → LeavesOnly D.moment D.left_since disk.old disk.new
        (AsBeforeOrTorn at (length bytes.now) (D.may_leave disk.old)) }
    ensures told { is_some (D.seen disk.new) ≡ is_some (D.seen disk.old) }
    ensures honest { D.honest disk.new ↔ D.honest disk.old }
    ensures cause { HasDeviceCause (D.faults disk.old) (D.faults disk.new) result }
{
    disk.write_at(at, bytes)?;
    disk.sync()?;
    Ok(())
}
