// Commits in memory.
ghost use Rattle.std.specs.Prelude.{◌≡◌, Some, IfOk, IfErr, OnErr};
ghost use Rattle.std.specs.List.{All};
ghost use Rattle.bl_stream.specs.Readers.{IsCommit, IsTold, Gives, IsCause};

use crate::{Commit, CommitFault, CommitReader};
use bl_outside::List;
use std::alloc::Global;
use std::marker::Model;

/// Commits in memory, which a reader copies. Contracts see them as their list.
#[derive(Drop)]
pub struct MemoryCommits {
    alloc: Global,
    commits: List<Commit>,
}

impl Model for MemoryCommits {
    ghost use Rattle.std.specs.Prelude.{List};
    ghost use Rattle.std.specs.List.{All};
    ghost use Rattle.bl_stream.specs.declared.commit.Commit.{Commit as CommitRecord};
    ghost use Rattle.bl_stream.specs.Readers.{IsCommit};

    ghost Value = { List CommitRecord };

    ghost view = { λ it. it.commits };

    ghost invariant = { λ it. All IsCommit it.commits };
}

impl MemoryCommits {
    pub fn new(alloc: Global, commits: List<Commit>) -> MemoryCommits
        requires { All IsCommit commits }
        ensures { result ≡ commits }
    {
        MemoryCommits { alloc, commits }
    }
}

impl CommitReader for MemoryCommits {
    ghost commits = { λ it. Some it };

    ghost faults = { λ _. 0 };

    fn commit(&mut self, number: u64) -> Result<Commit, CommitFault>
        requires { IsTold (Some self.old) number }
        ensures gives { IfOk result (Gives (Some self.old) number) }
        ensures valid { IfOk result IsCommit }
        ensures commits { self.new ≡ self.old }
        ensures memory { OnErr result (result ≡ Err CommitFault.NoMemory) }
        ensures cause { IfErr result (IsCause 0 0) }
    {
        let commit = &self.commits.as_slice()[(number - 1) as usize];
        Ok(commit.copy(self.alloc)?)
    }
}
