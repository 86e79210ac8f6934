// The commits of the change stream.
ghost use Rattle.std.specs.Prelude.{◌≡◌, ◌++◌, All, OnErr, OnOk};
ghost use Rattle.bl_value.specs.Valid.{IsChange};
ghost use Rattle.bl_world.specs.Worlds.{IsChanges, commit_of};

use crate::JobCommit;
use bl_outside::{List, NoMemory};
use bl_value::Change;

/// The changes of a batch are a commit, where there is one or more.
pub fn push_commit(
    commits: &mut List<JobCommit>,
    job: u32,
    moment: u64,
    changes: List<Change>,
) -> Result<(), NoMemory>
    requires { All IsChange changes }
    ensures ok { OnOk result (commits.new ≡ commits.old ++ commit_of job moment changes) }
    ensures valid { OnOk result (All (λ commit. IsChanges commit.changes) commits.old
        → All (λ commit. IsChanges commit.changes) commits.new) }
    ensures err { OnErr result (commits.new ≡ commits.old) }
{
    if changes.is_empty() {
        return Ok(());
    }
    commits.push(JobCommit {
        job,
        moment,
        changes,
    })
}
