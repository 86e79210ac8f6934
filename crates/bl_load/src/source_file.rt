// A file of a source, by its name.
ghost use Rattle.std.specs.Prelude.{◌≡◌, ◌≤◌, ◌↔◌, ◌≢◌, IsTrue, IfOk, IsErrOf, is_some};
ghost use Rattle.std.specs.List.{All};
ghost use Rattle.std.specs.Str.{IsUtf8};
ghost use Rattle.std.specs.FinMap.{get};
ghost use Rattle.bl_outside.specs.Counts.{HasDeviceCause, Rose};
ghost use Rattle.bl_outside.specs.Folders.{Files};
ghost use Rattle.bl_rows.specs.File.{IsSmall};
ghost use Rattle.bl_rows.specs.declared.file.FileRefusal.TheVariants as refusal;
ghost use Rattle.bl_chain.specs.Folders.{is_compressed};
ghost use Rattle.bl_load.specs.SourceFiles.{HasBytes, ReadsSource, file_path, IsThere};

use bl_outside::{Folder, NoMemory, Outside, Piece, Text, is_utf8};
use bl_rows::{FileBytes, FileRefusal, read_file};
use std::alloc::Global;

/// The path of a file: that of its source, where the name is empty, else the source's path, a slash
/// and the name.
pub fn file_path(alloc: Global, source: &Text, name: &Text) -> Result<Text, NoMemory>
    ensures { IfOk result (λ path. path ≡ file_path source.now name.now) }
{
    let mut path = source.copy(alloc)?;
    if !name.is_empty() {
        path.push(b'/')?;
        path.extend(name.as_slice())?;
    }
    Ok(path)
}

/// The path says that the file is compressed.
pub fn is_compressed(path: &[u8]) -> bool
    ensures { result ≡ is_compressed path.now }
{
    path.ends_with(b".gz") || path.ends_with(b".bz2")
}

// The name has no slash.
fn is_flat(name: &[u8]) -> bool
    ensures { IsTrue result ↔ All (λ b. b ≢ 47) name.now }
{
    name.iter().all(|b| *b != b'/')
}

// The name is one that a file in a folder may have.
fn is_plain(name: &[u8]) -> bool
    ensures { IsTrue result ↔ (IsUtf8 name.now × All (λ b. b ≢ 47) name.now) }
{
    if !is_utf8(name) {
        return false;
    }
    is_flat(name)
}

// There is a file at the path.
fn is_there<F: Folder>(folder: &mut F, path: &Text) -> Result<bool, Outside>
    requires { IsUtf8 path.now }
    ensures there { IfOk result (IsThere (F.files folder.old) path.now) }
    ensures files { F.files folder.new ≡ F.files folder.old }
    ensures cause { HasDeviceCause (F.faults folder.old) (F.faults folder.new) result }
{
    match folder.read_at(path, 0, 1)? {
        Piece::Missing => Ok(false),
        Piece::Ended | Piece::Bytes(_) => Ok(true),
    }
}

/// The file of this name, whole: the source itself, or one that lies directly in its folder.
pub fn read_source<F: Folder>(
    alloc: Global,
    folder: &mut F,
    source: &Text,
    name: &Text,
) -> Result<FileBytes, FileRefusal>
    requires { IsUtf8 source.now }
    ensures whole { ReadsSource (F.files folder.old) source.now name.now result }
    ensures small { IfOk result (λ file. IsSmall file.bytes) }
    ensures files { F.files folder.new ≡ F.files folder.old }
    ensures later { F.faults folder.old ≤ F.faults folder.new }
    ensures fault { IsErrOf result FileRefusal.ReadFault
        → Rose (F.faults folder.old) (F.faults folder.new) }
{
    if name.is_empty() {
        return read_file(alloc, folder, source);
    }
    if !is_plain(name.as_slice()) {
        return Err(FileRefusal::Missing);
    }
    if is_there(folder, source)? {
        return Err(FileRefusal::Missing);
    }
    let path = file_path(alloc, source, name)?;
    read_file(alloc, folder, &path)
}
