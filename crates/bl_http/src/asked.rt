// What a client asks.
use crate::{HeadRefusal, Request};
use bl_outside::List;

/// What stands next in an input.
#[derive(Debug, Drop)]
pub enum Asked {
    Got(Request),
    /// A head that can't be answered as it asks.
    Refused(HeadRefusal),
    /// The input ended behind a request.
    End,
    /// The input ended inside a request.
    Torn,
    /// 1 TiB was taken, and the bytes that aren't used yet are no whole request.
    TooLong,
}

/// How the requests of an input end.
#[derive(Clone, Copy, Debug, PartialEq, Eq)]
pub enum Ending {
    /// The last request closes the connection, and nothing behind it is read.
    Closed,
    Refused(HeadRefusal),
    End,
    Torn,
    TooLong,
}

/// The requests of an input.
#[derive(Debug, Drop)]
pub struct Requests {
    pub requests: List<Request>,
    pub ending: Ending,
}
