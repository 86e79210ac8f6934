// What a seat at the table knows.
use std::collections::LinkedList;

/// The view of one seat: what its holder knows. Proofs alone speak of it, and no value of it is
/// made.
pub struct Standing {
    /// It has a ticket.
    pub waits: bool,
    /// Its ticket is the one that is served.
    pub inside: bool,
    /// The value is out with its seat.
    pub has: bool,
    /// The number of its ticket, while it has one.
    pub ticket: u64,
    /// The entries that it has seen.
    pub seen: LinkedList<LinkedList<u8>>,
    /// The numbers of its own entries.
    pub mine: LinkedList<u64>,
    /// The entries that it has announced, which it is about to put back.
    pub bound: Option<LinkedList<LinkedList<u8>>>,
    /// What another one had seen that was joined to it, until the next step tells that this begins
    /// what it has seen itself.
    pub note: LinkedList<LinkedList<u8>>,
}
