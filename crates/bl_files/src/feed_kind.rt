// What a file is about.
ghost use Rattle.std.specs.Prelude.{◌≡◌};
ghost use Rattle.bl_files.specs.Codes.{has_file_code};

use crate::is_file_code;
use bl_value::LogCode;

/// Whether a file is about vertices or about edges, or why it isn't read at all.
#[derive(Clone, Copy, Debug, PartialEq, Eq)]
pub enum FeedKind {
    Vertex,
    Edge,
    /// The code, one of those of files, and the column of a refused header, else 0.
    Refused(LogCode, u32),
}

impl FeedKind {
    /// Where the file isn't read, it is for the code of a file.
    pub fn has_file_code(self) -> bool
        ensures { result ≡ has_file_code self }
    {
        match self {
            FeedKind::Vertex | FeedKind::Edge => true,
            FeedKind::Refused(code, _) => is_file_code(code),
        }
    }
}
