// Where commits come from.
ghost use Rattle.std.specs.Prelude.{◌≡◌, ◌≤◌, List, ℕ, IfOk, IfErr};
ghost use Rattle.std.specs.declared.option.Option.{Option};
ghost use Rattle.bl_stream.specs.declared.commit.Commit.{Commit as CommitRecord};
ghost use Rattle.bl_stream.specs.Readers.{IsCommit, IsTold, Gives, IsCause};

use crate::{Commit, CommitFault};

/// Commits by their numbers, from 1.
pub trait CommitReader {
    /// The commits, where they are told. No call changes them.
    ghost commits: { Self → Option (List CommitRecord) };

    /// How often it has failed.
    ghost faults: { Self → ℕ };

    fn commit(&mut self, number: u64) -> Result<Commit, CommitFault>
        requires { IsTold (commits self.old) number }
        ensures gives { IfOk result (Gives (commits self.old) number) }
        ensures valid { IfOk result IsCommit }
        ensures commits { commits self.new ≡ commits self.old }
        ensures later { faults self.old ≤ faults self.new }
        ensures cause { IfErr result (IsCause (faults self.old) (faults self.new)) };
}
