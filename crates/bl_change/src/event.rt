// One event of the stream.
use bl_value::Change;

/// One change of a commit, with its place in the stream.
#[derive(Debug, Drop)]
pub struct Event {
    /// The number of its commit, from 1.
    pub commit: u64,
    /// Its number within the commit, from 1.
    pub op: u64,
    /// The commit's moment, in milliseconds from 1970 UTC.
    pub moment: u64,
    /// It is the last of its commit.
    pub last: bool,
    pub change: Change,
}
