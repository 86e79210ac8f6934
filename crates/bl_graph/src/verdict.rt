// What a row does to the graph.
use bl_outside::List;
use bl_value::{Change, LogCode};

/// What a row does to the graph.
#[derive(Debug, Drop)]
pub enum Verdict {
    /// These changes, one or more, from left to right.
    Changes(List<Change>),
    /// The graph has all that the row says.
    Duplicate,
    /// The row is refused for this code, at this column (0 where the code has none).
    Refused(LogCode, u32),
}
