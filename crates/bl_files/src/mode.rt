// Whether a load goes on with an earlier one.

/// The mode of a load (Neptune User Guide, "Loader command").
#[derive(Clone, Copy, Debug, PartialEq, Eq)]
pub enum Mode {
    /// Begin anew.
    New,
    /// Go on with the previous load of the source, which must be there.
    Resume,
    /// Go on with the previous load of the source, or begin anew where there is none.
    Auto,
}
