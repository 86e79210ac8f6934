// Where a page begins.
ghost use Rattle.std.specs.Prelude.{◌≡◌, ◌≤◌, IfSome};
ghost use Rattle.bl_stream.specs.Filling.{from_place, start_of, skipped};

use crate::Iterator4;

/// The operations of a commit that come before those of a page.
#[derive(Clone, Copy, Debug)]
pub enum Before {
    Operations(u64),
    AllButOne,
}

/// Where a page begins: a commit, and what of it comes before.
#[derive(Clone, Copy, Debug)]
pub struct Start {
    pub number: u64,
    pub before: Before,
}

impl Before {
    /// How many of so many operations come before.
    pub fn count(self, operations: u64) -> u64
        ensures { result ≡ skipped self operations }
    {
        match self {
            Before::Operations(before) => before,
            Before::AllButOne => operations.saturating_sub(1),
        }
    }
}

// The first commit of the stream that has, or is followed by, events behind so many operations of
// a commit.
fn from_place(first: u64, newest: u64, commit: u64, before: u64) -> Option<Start>
    ensures { result ≡ from_place (first, newest) commit before }
{
    if commit < first {
        Some(Start {
            number: first,
            before: Before::Operations(0),
        })
    } else if commit <= newest {
        Some(Start {
            number: commit,
            before: Before::Operations(before),
        })
    } else {
        None
    }
}

/// The first commit that is read for a page, and what of it comes before the page.
pub fn start_of(first: u64, newest: u64, iterator: Iterator4) -> Option<Start>
    ensures { result ≡ start_of (first, newest) iterator }
{
    match iterator {
        Iterator4::At(commit, op) => from_place(first, newest, commit, op.saturating_sub(1)),
        Iterator4::After(commit, op) => from_place(first, newest, commit, op),
        Iterator4::TrimHorizon => Some(Start {
            number: first,
            before: Before::Operations(0),
        }),
        Iterator4::Latest => Some(Start {
            number: newest,
            before: Before::AllButOne,
        }),
    }
}
