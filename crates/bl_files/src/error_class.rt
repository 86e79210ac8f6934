// The counters of refusals.

/// The counter of a refusal (Neptune User Guide, "Loader Get-Status responses").
#[derive(Clone, Copy, Debug, PartialEq, Eq)]
pub enum ErrorClass {
    Parsing,
    Datatype,
    Insert,
}
