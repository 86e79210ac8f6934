// What the header of a file says of it.
ghost use Rattle.std.specs.Prelude.{◌≡◌, ℕ, List as Items, IfOk, IsTrue, ◌↔◌};
ghost use Rattle.bl_rows.specs.Contents.{Fields};
ghost use Rattle.bl_rows.specs.RowReaders.{Stands};
ghost use Rattle.bl_chain.specs.Folders.{kind_of};
ghost use Rattle.bl_load.specs.Gathering.{IsReading};
ghost use Rattle.bl_load.specs.Resuming.{HasColumns, IsContent, IsRefusedBy, kind_in};

use bl_files::FeedKind;
use bl_header::{HeaderRefusal, read_header};
use bl_outside::{Digest, NoMemory};
use bl_rows::RowReader;
use bl_value::{Columns, LogCode, Side};
use std::alloc::Global;

/// What the header of a file says of it.
#[derive(Debug, Drop)]
pub enum Content {
    /// The file has no record at all.
    Empty,
    /// The header is refused, at this column, or 0.
    Refused(u32),
    Read(Columns),
}

// The content of a header that is refused, but for want of memory.
fn refused(refusal: HeaderRefusal) -> Result<Content, NoMemory>
    ensures { IfOk result (IsRefusedBy refusal) }
{
    match refusal {
        HeaderRefusal::NoMemory => Err(NoMemory),
        _ => Ok(Content::Refused(refusal.column())),
    }
}

/// What the header of the file says of it.
pub fn content_of(alloc: Global, reader: &RowReader) -> Result<Content, NoMemory>
    requires { IsReading reader.now }
    ensures content { (all : Items Fields) (taken : ℕ) (left : Items Fields)
        → Stands reader.now all taken left → IfOk result (IsContent all) }
    ensures columns { IfOk result HasColumns }
{
    if reader.is_empty() {
        return Ok(Content::Empty);
    }
    match read_header(alloc, reader.header()) {
        Ok(columns) => Ok(Content::Read(columns)),
        Err(refusal) => refused(refusal),
    }
}

/// What a file of this side is about.
pub fn kind_of(side: Side) -> FeedKind
    ensures { result ≡ kind_of side }
{
    match side {
        Side::Vertex => FeedKind::Vertex,
        Side::Edge => FeedKind::Edge,
    }
}

impl Content {
    /// What the file is about.
    pub fn kind(&self) -> FeedKind
        ensures { result ≡ kind_in self.now }
    {
        match self {
            Content::Empty => FeedKind::Vertex,
            Content::Refused(column) => FeedKind::Refused(LogCode::Header, *column),
            Content::Read(columns) => kind_of(columns.side),
        }
    }
}

/// These are the same digest.
pub fn is_same(a: &Digest, b: &Digest) -> bool
    ensures { IsTrue result ↔ (a.now ≡ b.now) }
{
    a.bytes.as_slice() == b.bytes.as_slice()
}

/// A file of this side is of the kind.
pub fn is_kind(side: Side, kind: FeedKind) -> bool
    ensures { IsTrue result ↔ (kind_of side ≡ kind) }
{
    match (side, kind) {
        (Side::Vertex, FeedKind::Vertex) | (Side::Edge, FeedKind::Edge) => true,
        _ => false,
    }
}
