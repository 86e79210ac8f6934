// A file, read whole.
ghost use Rattle.std.specs.Prelude.{◌≡◌, ◌≤◌, IfOk, IsErrOf};
ghost use Rattle.std.specs.Str.{IsUtf8};
ghost use Rattle.bl_outside.specs.Counts.{Rose};
ghost use Rattle.bl_rows.specs.File.{IsSmall, ReadsWhole};
ghost use Rattle.bl_rows.specs.declared.file.FileRefusal.TheVariants as refusal;

use bl_outside::{Folder, NoMemory, Outside, Piece, Text};
use std::alloc::Global;
use thiserror::Error;

/// The most bytes that a file may have.
pub const FILE_LIMIT: usize = 268_435_456;

/// The most bytes that are asked for at once.
const PIECE: u32 = 1_048_576;

/// All bytes of a file.
#[derive(Debug, Drop)]
pub struct FileBytes {
    pub bytes: Text,
}

/// Why a file was not read.
#[derive(Clone, Copy, Debug, PartialEq, Eq, Error)]
pub enum FileRefusal {
    #[error("there is no such file")]
    Missing,
    #[error("the file has more than 268,435,456 bytes")]
    TooLarge,
    /// The folder failed. Its count of faults rose.
    #[error("the file could not be read")]
    ReadFault,
    #[error("out of memory")]
    NoMemory,
}

impl From<NoMemory> for FileRefusal {
    ghost use Rattle.std.specs.Prelude.{◌≡◌};
    ghost use Rattle.bl_rows.specs.declared.file.FileRefusal.TheVariants as refusal;

    ghost from_gives = { λ _ e. e ≡ refusal.NoMemory };

    fn from(_: NoMemory) -> FileRefusal {
        FileRefusal::NoMemory
    }
}

impl From<Outside> for FileRefusal {
    ghost use Rattle.bl_rows.specs.File.{refused_by};
    ghost use Rattle.std.specs.Prelude.{◌≡◌};

    ghost from_gives = { λ outside e. e ≡ refused_by outside };

    fn from(outside: Outside) -> FileRefusal {
        match outside {
            Outside::Failed => FileRefusal::ReadFault,
            Outside::NoMemory => FileRefusal::NoMemory,
        }
    }
}

/// The file at the path, whole, in whatever pieces it comes.
pub fn read_file<F: Folder>(
    alloc: Global,
    folder: &mut F,
    path: &Text,
) -> Result<FileBytes, FileRefusal>
    requires { IsUtf8 path.now }
    ensures whole { ReadsWhole (F.files folder.old) path.now result }
    ensures small { IfOk result (λ file. IsSmall file.bytes) }
    ensures files { F.files folder.new ≡ F.files folder.old }
    ensures later { F.faults folder.old ≤ F.faults folder.new }
    ensures fault { IsErrOf result FileRefusal.ReadFault
        → Rose (F.faults folder.old) (F.faults folder.new) }
{
    let mut bytes = Text::new(alloc);
    while bytes.len() <= FILE_LIMIT {
        match folder.read_at(path, bytes.len() as u64, PIECE)? {
            Piece::Missing => return Err(FileRefusal::Missing),
            Piece::Ended => return Ok(FileBytes { bytes }),
            Piece::Bytes(piece) => bytes.extend(piece.as_slice())?,
        }
    }
    Err(FileRefusal::TooLarge)
}
