// What a layer counts of its work.

/// How many frames, records or entries there were, and how many bytes.
#[derive(Clone, Copy, Debug, PartialEq, Eq)]
pub struct Counts {
    pub items: u64,
    pub bytes: u64,
}
