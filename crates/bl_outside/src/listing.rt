// What a folder answers.
use crate::{List, Text};

/// What lies at a path.
#[derive(Debug, Drop)]
pub enum Listing {
    /// Neither a file nor a folder.
    Missing,
    /// One file.
    OneFile,
    /// A folder, and the names of the files that lie directly in it, in any order.
    Names(List<Text>),
}

/// A part of a file.
#[derive(Debug, Drop)]
pub enum Piece {
    /// There is no such file.
    Missing,
    /// The file ends at or before the place.
    Ended,
    /// Bytes from the place on, one or more.
    Bytes(Text),
}
