ghost use Rattle.std.specs.Prelude.{◌≡◌, ◌≤◌, ◌<◌, ℕ, IfOk};
ghost use Rattle.std.specs.declared.option.Option.{Option};
ghost use Rattle.std.specs.Str.{IsUtf8};
ghost use Rattle.bl_outside.specs.Counts.{HasDeviceCause};
ghost use Rattle.bl_outside.specs.Folders.{Files, Lists, ListsNames, ReadsFile, IsPiece};

use crate::{Listing, Outside, Piece, Text};

/// Files under paths.
pub trait Folder {
    /// The files, where they are told.
    ghost files: { Self → Option Files };

    /// How often it has failed.
    ghost faults: { Self → ℕ };

    fn list(&mut self, path: &Text) -> Result<Listing, Outside>
        requires { IsUtf8 path.now }
        ensures listing { IfOk result (Lists (files self.old) path.now) }
        ensures names { IfOk result ListsNames }
        ensures files { files self.new ≡ files self.old }
        ensures cause { HasDeviceCause (faults self.old) (faults self.new) result };

    fn read_at(&mut self, path: &Text, at: u64, most: u32) -> Result<Piece, Outside>
        requires path { IsUtf8 path.now }
        requires most { 0 < most }
        ensures bytes { IfOk result (ReadsFile (files self.old) path.now at) }
        ensures piece { IfOk result (IsPiece most) }
        ensures files { files self.new ≡ files self.old }
        ensures cause { HasDeviceCause (faults self.old) (faults self.new) result };
}
