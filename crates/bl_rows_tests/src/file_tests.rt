// Files of a folder in memory, their records and digests.
ghost use Rattle.std.specs.Prelude.{◌≡◌, length, IfOk};
ghost use Rattle.std.specs.Str.{IsUtf8};

use bl_outside::{
    Digest, Faults, Folder, List, Listing, MemoryFolder, NoMemory, Outside, Piece, Text,
};
use bl_rows::{FileRefusal, RowReader, read_file, start};
use std::alloc::Global;
use std::process::Abort;

fn path_of<R: Abort>(rt: &R, alloc: Global, path: &str) -> Text
    ensures { IsUtf8 result }
{
    Text::of_str(alloc, path).expect(rt, "memory")
}

// A folder in which `a` has these bytes, which come in pieces of at most a size. One call is to
// fail.
fn folder_of<R: Abort>(
    rt: &R,
    alloc: Global,
    bytes: &[u8],
    piece: u32,
    fails: u64,
) -> MemoryFolder {
    let mut plan = List::new(alloc);
    plan.push(fails).expect(rt, "memory");
    let mut folder = MemoryFolder::new(alloc, piece, Faults::of(plan, 0));
    let file = Text::copy_of(alloc, bytes).expect(rt, "memory");
    let path = path_of(rt, alloc, "a");
    folder.put_file(path, file).expect(rt, "memory");
    folder
}

// The file at the path.
fn file_read<R: Abort>(
    rt: &R,
    alloc: Global,
    path: &str,
    folder: &mut MemoryFolder,
) -> Result<Text, FileRefusal> {
    let path = path_of(rt, alloc, path);
    let file = read_file(alloc, folder, &path)?;
    Ok(file.bytes)
}

// Whether the file `a` is read whole.
fn is_read<R: Abort>(rt: &R, alloc: Global, bytes: &[u8], piece: u32) -> bool {
    let mut folder = folder_of(rt, alloc, bytes, piece, 0);
    let read = file_read(rt, alloc, "a", &mut folder).expect(rt, "a file");
    read.as_slice() == bytes
}

// Why the file isn't read, where it isn't.
fn refusal<R: Abort>(rt: &R, alloc: Global, path: &str, fails: u64) -> Option<FileRefusal> {
    let mut folder = folder_of(rt, alloc, b"hello", 2, fails);
    file_read(rt, alloc, path, &mut folder).err()
}

#[test]
fn a_file_is_read_to_its_end_in_whatever_pieces(rt: HostRuntime) {
    let alloc = rt.alloc();
    for piece in 1..6 {
        assert!(rt; is_read(&rt, alloc, b"hello", piece));
    }
    assert!(rt; is_read(&rt, alloc, b"", 1));
    assert!(rt; refusal(&rt, alloc, "b", 0) == Some(FileRefusal::Missing));
    assert!(rt; refusal(&rt, alloc, "a", 2) == Some(FileRefusal::ReadFault));
}

// A folder with one file of this size, whose bytes are made as they are asked for. It notes the
// most bytes that were asked for at once.
#[derive(Drop)]
struct LargeFolder {
    alloc: Global,
    size: u64,
    most: u32,
}

fn zeros(alloc: Global, count: usize) -> Result<Text, NoMemory>
    ensures { IfOk result (λ bytes. length bytes ≡ count) }
{
    Ok(Text::from_vec(vec![in alloc; 0; count]?))
}

impl Folder for LargeFolder {
    ghost use Rattle.std.specs.Prelude.{None};

    ghost files = { λ _. None };

    ghost faults = { λ _. 0 };

    fn list(&mut self, _: &Text) -> Result<Listing, Outside> {
        Err(Outside::NoMemory)
    }

    fn read_at(&mut self, _: &Text, at: u64, most: u32) -> Result<Piece, Outside> {
        self.most = self.most.max(most);
        if at >= self.size {
            return Ok(Piece::Ended);
        }
        let count = (self.size - at).min(u64::from(most));
        Ok(Piece::Bytes(zeros(self.alloc, count as usize)?))
    }
}

#[test]
fn a_file_has_a_limit_to_the_byte_and_is_read_in_pieces_of_a_mebibyte(rt: HostRuntime) {
    let alloc = rt.alloc();
    let path = Text::of_str(alloc, "a").expect(&rt, "memory");
    for (size, is_read) in [(268_435_456, true), (268_435_457, false)] {
        let mut folder = LargeFolder {
            alloc,
            size,
            most: 0,
        };
        match read_file(alloc, &mut folder, &path) {
            Ok(file) => assert!(rt; is_read && file.bytes.len() == 268_435_456),
            Err(refusal) => assert!(rt; !is_read && refusal == FileRefusal::TooLarge),
        }
        assert!(rt; folder.most == 1_048_576);
    }
}

fn reader_of<R: Abort>(rt: &R, alloc: Global, bytes: &[u8]) -> RowReader {
    let mut folder = folder_of(rt, alloc, bytes, 1, 0);
    let path = path_of(rt, alloc, "a");
    let file = read_file(alloc, &mut folder, &path).expect(rt, "a file");
    start(alloc, file).expect(rt, "memory")
}

// Adds a bar after each field, and a line end.
fn write<R: Abort>(rt: &R, fields: &List<Text>, out: &mut Text) {
    for field in fields.as_slice() {
        out.extend(field.as_slice()).expect(rt, "memory");
        out.push(b'|').expect(rt, "memory");
    }
    out.push(b'\n').expect(rt, "memory");
}

fn write_next<R: Abort>(rt: &R, reader: &mut RowReader, out: &mut Text) {
    if let Some(fields) = reader.next().expect(rt, "memory") {
        write(rt, &fields, out);
    }
}

// The header and the records, each in a line.
fn written<R: Abort>(rt: &R, alloc: Global, bytes: &[u8]) -> Text {
    let mut reader = reader_of(rt, alloc, bytes);
    let mut out = Text::new(alloc);
    write(rt, reader.header(), &mut out);
    for _ in 0..10 {
        write_next(rt, &mut reader, &mut out);
    }
    out
}

#[test]
fn a_file_has_its_records(rt: HostRuntime) {
    let table: [(&[u8], &[u8]); 9] = [
        (
            b"~id,t:String\nv1,\"a,\"\"b\"\"\nc\"",
            b"~id|t:String|\nv1|a,\"b\"\nc|\n",
        ),
        (b"\xef\xbb\xbf~id\nv1\n", b"~id|\nv1|\n"),
        (b"\xef\xbb\xbf\xef\xbb\xbf~id\n", b"\xef\xbb\xbf~id|\n"),
        (b"a,b\r\nc,d\r\n", b"a|b|\nc|d|\n"),
        (b"a\n\n\r\nb\n\nc", b"a|\nb|\nc|\n"),
        (b"a,b\nc\nd,e,f\n", b"a|b|\nc|\nd|e|f|\n"),
        (b"~id", b"~id|\n"),
        (b",\n", b"||\n"),
        (b"", b"\n"),
    ];
    for (bytes, wanted) in &table {
        let out = written(&rt, rt.alloc(), bytes);
        assert!(rt; out.as_slice() == *wanted);
    }
}

fn is_empty<R: Abort>(rt: &R, alloc: Global, bytes: &[u8]) -> bool {
    reader_of(rt, alloc, bytes).is_empty()
}

#[test]
fn a_file_without_a_record_has_none(rt: HostRuntime) {
    let alloc = rt.alloc();
    assert!(rt; is_empty(&rt, alloc, b"") && is_empty(&rt, alloc, b"\n\r\n"));
    assert!(rt; !is_empty(&rt, alloc, b"~id"));
}

#[test]
fn a_reader_that_has_ended_stays_ended(rt: HostRuntime) {
    let mut reader = reader_of(&rt, rt.alloc(), b"~id\nv1\nv2\n");
    let table: [(bool, u64); 5] = [(true, 1), (true, 2), (false, 2), (false, 2), (false, 2)];
    for (found, taken) in &table {
        let record = reader.next().expect(&rt, "memory");
        assert!(rt; record.is_some() == *found);
        assert!(rt; reader.taken() == *taken);
    }
}

// The digit of a number below 16.
fn digit(number: u8) -> u8 {
    let place = usize::from(number);
    b"0123456789abcdef".get(place).copied().unwrap_or(b'?')
}

// Bytes in hexadecimal digits.
fn hexadecimal<R: Abort>(rt: &R, alloc: Global, digest: &Digest) -> Text {
    let mut out = Text::new(alloc);
    for byte in digest.bytes {
        let pair = [digit(byte / 16), digit(byte % 16)];
        out.extend(pair.as_slice()).expect(rt, "memory");
    }
    out
}

// The digest after so many records.
fn digest_after<R: Abort>(rt: &R, alloc: Global, bytes: &[u8], records: usize) -> Text {
    let mut reader = reader_of(rt, alloc, bytes);
    for _ in 0..records {
        reader.next().expect(rt, "memory");
    }
    hexadecimal(rt, alloc, &reader.digest())
}

#[test]
fn a_digest_goes_over_the_records_that_were_taken(rt: HostRuntime) {
    let table: [(&[u8], usize, &str); 7] = [
        (
            b"",
            1,
            "e3b0c44298fc1c149afbf4c8996fb92427ae41e4649b934ca495991b7852b855",
        ),
        (
            b"~id\nv1\n",
            0,
            "7da8fb947565cdd2cee7197c7ebe6833987847f0dc0401edefd1e962fd48cd2f",
        ),
        (
            b"~id\nv1\n",
            1,
            "0f075bab2081286c3793c87a335c379c326c30285a0bd8e57cbf70b68bd5a935",
        ),
        (
            b"\xef\xbb\xbf~id\r\n\r\nv1",
            9,
            "0f075bab2081286c3793c87a335c379c326c30285a0bd8e57cbf70b68bd5a935",
        ),
        (
            b"~id,name\nv1,Ann\nv2,\n",
            2,
            "655e6e917755491367ae2953b4139f7843a9aac313dc8613a7c1c272f8cfbd7d",
        ),
        (
            b"~id,name\nv1,\"Ann\"\nv2,\"\"",
            2,
            "655e6e917755491367ae2953b4139f7843a9aac313dc8613a7c1c272f8cfbd7d",
        ),
        (
            b"~id,t:String\nv1,\"a,\"\"b\"\"\nc\"",
            1,
            "ab76e9fdb3ee5037651eb4ed722b2aea65fa29a7d92591186477c4bdf7a3c160",
        ),
    ];
    for (bytes, records, wanted) in &table {
        let digest = digest_after(&rt, rt.alloc(), bytes, *records);
        assert!(rt; digest.as_slice() == wanted.as_bytes());
    }
}
