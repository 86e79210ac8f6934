// What the words ask for.
use crate::asked::Asked;
use bl_stream::PageAsk;

/// What is to be shown of a store.
#[derive(Clone, Copy, Debug, PartialEq, Eq)]
pub enum Look {
    /// The ids of the loads.
    Loads,
    /// The status of the load of this id. A text that is no id stands for 0, which no load has.
    Load(u128),
    /// A page of the change stream.
    Page(PageAsk),
}

/// A command with its options.
#[derive(Debug, Drop)]
pub enum Command {
    Load(Asked),
    /// Requests of the input are answered, with up to so many turns of the loader behind each.
    Script(u64),
    Show(Look),
    Help,
}
