// What a page is asked for.

/// The most events that may be asked for.
pub const MOST_EVENTS: u32 = 100_000;

/// Where a page begins. A pair is a commit and an operation in it, both from 1.
#[derive(Clone, Copy, Debug, PartialEq, Eq)]
pub enum Iterator4 {
    /// AT_SEQUENCE_NUMBER: with the first event whose pair is not below this one.
    At(u64, u64),
    /// AFTER_SEQUENCE_NUMBER: with the first event whose pair is above this one.
    After(u64, u64),
    /// TRIM_HORIZON: with the first event.
    TrimHorizon,
    /// LATEST: with the last event.
    Latest,
}

/// What is asked of a stream.
#[derive(Clone, Copy, Debug, PartialEq, Eq)]
pub struct PageAsk {
    pub iterator: Iterator4,
    /// The most events of the page, 1 to [`MOST_EVENTS`].
    pub limit: u32,
}
