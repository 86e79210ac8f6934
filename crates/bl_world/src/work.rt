// What is to be done next.

/// What is to be done next. Jobs and files are counted from 1.
#[derive(Clone, Copy, Debug, PartialEq, Eq)]
pub enum Work {
    /// No job is unended.
    Idle,
    /// The job is to be planned.
    Plan {
        job: u32,
        /// The number of the load that it goes on with, or 0.
        previous: u32,
        /// It is to go on with a load, and there is none.
        no_previous: bool,
    },
    /// The file goes on.
    Continue {
        job: u32,
        feed: u32,
        /// How many of its records are taken.
        from: u64,
    },
}
