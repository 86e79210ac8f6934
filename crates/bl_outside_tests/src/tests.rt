// Each call once, and what no clause says.
ghost use Rattle.std.specs.Str.{IsUtf8};

use bl_outside::{
    Clock, Digest, Disk, Disks, Failed, Faults, Fill, FixedClock, Folder, List, Listing,
    MemoryDisk, MemoryFolder, MemorySink, MemorySource, NoMemory, Outside, Piece, Sink, Source,
    Text, is_utf8,
};
use std::alloc::Global;
use std::hash::{BuildHasher, BuildHasherDefault, FoldHasher};

fn one(alloc: Global, n: u64) -> Result<Faults, NoMemory> {
    let mut list = List::new(alloc);
    list.push(n)?;
    Ok(Faults::of(list, 0))
}

fn folder(alloc: Global, plan: Faults) -> Result<MemoryFolder, NoMemory> {
    let mut folder = MemoryFolder::new(alloc, 2, plan);
    folder.put_file(
        Text::of_str(alloc, "b/f/x.csv")?,
        Text::of_str(alloc, "abc")?,
    )?;
    folder.put_file(Text::of_str(alloc, "b/f/y.csv")?, Text::of_str(alloc, "")?)?;
    folder.put_file(
        Text::of_str(alloc, "b/f/in/z.csv")?,
        Text::of_str(alloc, "z")?,
    )?;
    folder.put_file(Text::of_str(alloc, "b/fg")?, Text::of_str(alloc, "g")?)?;
    Ok(folder)
}

fn names(folder: &mut MemoryFolder, path: &Text) -> usize
    requires { IsUtf8 path.now }
{
    match folder.list(path) {
        Ok(Listing::Names(names)) => names.len() + 10,
        Ok(Listing::OneFile) => 1,
        Ok(Listing::Missing) => 0,
        Err(_) => 99,
    }
}

fn lists(alloc: Global) -> Result<bool, NoMemory> {
    let mut files = folder(alloc, one(alloc, 2)?)?;
    let first = names(&mut files, &Text::of_str(alloc, "b/f")?) == 12;
    let second = names(&mut files, &Text::of_str(alloc, "b/f")?) == 99;
    let third = names(&mut files, &Text::of_str(alloc, "b")?) == 11;
    let fourth = names(&mut files, &Text::of_str(alloc, "b/f/x.csv")?) == 1;
    let fifth = names(&mut files, &Text::of_str(alloc, "c")?) == 0;
    Ok(first && second && third && fourth && fifth)
}

#[test]
fn a_folder_in_memory_lists_and_fails_once(rt: HostRuntime) {
    assert!(rt; lists(rt.alloc()) == Ok(true));
}

// Writes where that is inside.
fn write<D: Disk>(disk: &mut D, at: u64, bytes: &[u8]) {
    if let Ok(size) = disk.size() {
        if at <= size {
            let _ = disk.write_at(at, bytes);
        }
    }
}

fn stops(alloc: Global, fill: Fill) -> Result<Text, NoMemory> {
    let mut disk = MemoryDisk::new(alloc, Text::of_str(alloc, "aaaa")?, Faults::none(alloc))?;
    write(&mut disk, 0, b"bb".as_slice());
    let _ = disk.sync();
    write(&mut disk, 3, b"cc".as_slice());
    let mut stopped = disk.stopped(fill)?;
    match stopped.read_at(0, 100) {
        Ok(bytes) => Ok(bytes),
        Err(_) => Err(NoMemory),
    }
}

#[test]
fn a_stop_leaves_old_new_or_ones(rt: HostRuntime) {
    let old = stops(rt.alloc(), Fill::Old).expect(&rt, "memory");
    assert!(rt; old.as_slice() == b"bbaa".as_slice());
    let new = stops(rt.alloc(), Fill::New).expect(&rt, "memory");
    assert!(rt; new.as_slice() == b"bbacc".as_slice());
    let ones = stops(rt.alloc(), Fill::Ones).expect(&rt, "memory");
    assert!(rt; ones.as_slice() == b"bba\xff\xff".as_slice());
}

// What is read at a place of a file, in words where it is no bytes.
fn piece(alloc: Global, path: &str, at: u64) -> Result<Text, NoMemory> {
    let mut files = folder(alloc, Faults::none(alloc))?;
    match files.read_at(&Text::of_str(alloc, path)?, at, 9) {
        Ok(Piece::Bytes(bytes)) => Ok(bytes),
        Ok(Piece::Ended) => Text::of_str(alloc, "ended"),
        Ok(Piece::Missing) => Text::of_str(alloc, "missing"),
        Err(_) => Err(NoMemory),
    }
}

#[test]
fn a_file_is_read_in_pieces(rt: HostRuntime) {
    for (path, at, want) in [
        ("b/f/x.csv", 0, "ab"),
        ("b/f/x.csv", 2, "c"),
        ("b/f/x.csv", 3, "ended"),
        ("b/f", 0, "missing"),
    ] {
        let read = piece(rt.alloc(), path, at).expect(&rt, "memory");
        assert!(rt; read.as_slice() == want.as_bytes(), "{path} at {at}");
    }
}

// All that a source gives in ten calls, and a star for each failure.
fn taken(alloc: Global) -> Result<Text, NoMemory> {
    let mut source = MemorySource::new(Text::of_str(alloc, "abcde")?, 2, one(alloc, 2)?);
    let mut all = Text::new(alloc);
    for _ in 0..10 {
        let mut room = [0; 3];
        match source.take(room.as_mut_slice()) {
            Ok(n) => all.extend(&room[..n])?,
            Err(Failed) => all.push(42)?,
        }
    }
    Ok(all)
}

#[test]
fn a_source_gives_its_bytes_once(rt: HostRuntime) {
    let all = taken(rt.alloc()).expect(&rt, "memory");
    assert!(rt; all.as_slice() == b"ab*cde".as_slice());
}

#[test]
fn a_sink_keeps_what_is_put(rt: HostRuntime) {
    let mut sink = MemorySink::new(rt.alloc(), one(rt.alloc(), 2).expect(&rt, "memory"));
    assert!(rt; sink.put(b"abc".as_slice()) == Ok(()));
    assert!(rt; sink.put(b"defg".as_slice()) == Err(Failed));
    assert!(rt; sink.put(b"h".as_slice()) == Ok(()));
    assert!(rt; sink.bytes().as_slice() == b"abcdeh".as_slice());
}

#[test]
fn a_clock_stands(rt: HostRuntime) {
    let mut clock = FixedClock::new(7);
    assert!(rt; clock.now() == 7 && clock.now() == 7);
}

fn disk(alloc: Global) -> Result<MemoryDisk, NoMemory> {
    MemoryDisk::new(alloc, Text::of_str(alloc, "abc")?, Faults::none(alloc))
}

fn on_disk(alloc: Global) -> Result<(u64, Text, Text), Outside> {
    let mut disks = Disks {
        journal: disk(alloc)?,
        left: disk(alloc)?,
        right: disk(alloc)?,
    };
    write(&mut disks.left, 1, b"XYZ".as_slice());
    disks.left.sync()?;
    let size = disks.left.size()?;
    Ok((size, disks.left.read_at(1, 2)?, disks.left.read_at(9, 5)?))
}

#[test]
fn a_disk_reads_what_was_written(rt: HostRuntime) {
    let (size, inside, past) = on_disk(rt.alloc()).expect(&rt, "memory");
    assert!(rt; size == 4);
    assert!(rt; inside.as_slice() == b"XY".as_slice());
    assert!(rt; past.len() == 0);
}

fn joined(alloc: Global) -> Result<Text, NoMemory> {
    let mut whole = Text::from_vec(Text::of_str(alloc, "ab")?.copy(alloc)?.into_vec()?);
    whole.push(99)?;
    whole.extend(b"de".as_slice())?;
    Ok(whole)
}

#[test]
fn texts_go_by_their_bytes(rt: HostRuntime) {
    let whole = joined(rt.alloc()).expect(&rt, "memory");
    let same = Text::of_str(rt.alloc(), "abcde").expect(&rt, "memory");
    let less = Text::of_str(rt.alloc(), "abcd").expect(&rt, "memory");
    assert!(rt; whole == same && whole != less && less < same);
    assert!(rt; whole.len() == 5 && whole.get(4) == Some(&101) && whole.get(5) == None);
}

fn numbers(alloc: Global, from: u64, to: u64) -> Result<List<u64>, NoMemory> {
    let mut list = List::with_capacity(alloc, 2)?;
    for n in from..to {
        list.push(n)?;
    }
    Ok(list)
}

// Each call that changes a list, one after the other.
fn changed(alloc: Global) -> Result<(List<u64>, u64), NoMemory> {
    let mut list = List::from_vec(numbers(alloc, 1, 4)?.into_vec());
    list.reserve(4)?;
    list.append(numbers(alloc, 4, 7)?)?;
    list.extend([7, 8].as_slice())?;
    list.drop_front(2);
    list.truncate(4);
    let old = if list.len() > 1 {
        list.replace(1, 40)
    } else {
        0
    };
    Ok((list, old))
}

#[test]
fn a_list_keeps_its_items_in_order(rt: HostRuntime) {
    let (list, old) = changed(rt.alloc()).expect(&rt, "memory");
    assert!(rt; list.as_slice() == [3, 40, 5, 6].as_slice() && old == 4);
    assert!(rt; list.len() == 4 && list.get(0) == Some(&3) && list.get(4) == None);
    assert!(rt; !list.is_empty() && List::<u64>::new(rt.alloc()).is_empty());
}

// The text of so many letters, grown letter by letter.
fn letters(alloc: Global, count: usize) -> Result<Text, NoMemory> {
    let mut text = Text::new(alloc);
    for _ in 0..count {
        text.push(b'x')?;
    }
    Ok(text)
}

#[test]
fn a_text_grows_past_the_bytes_that_it_holds_in_place(rt: HostRuntime) {
    let alloc = rt.alloc();
    for (count, word) in [
        (0, ""),
        (15, "xxxxxxxxxxxxxxx"),
        (16, "xxxxxxxxxxxxxxxx"),
        (17, "xxxxxxxxxxxxxxxxx"),
        (33, "xxxxxxxxxxxxxxxxxxxxxxxxxxxxxxxxx"),
    ] {
        let grown = letters(alloc, count).expect(&rt, "memory");
        let whole = Text::of_str(alloc, word).expect(&rt, "memory");
        assert!(rt; grown == whole && whole.as_str() == word && grown.len() == count);
        let copy = grown.copy(alloc).expect(&rt, "memory");
        let bytes = copy.into_vec().expect(&rt, "memory");
        assert!(rt; bytes.as_slice() == word.as_bytes());
    }
}

fn hash_of(text: &Text) -> u64 {
    BuildHasherDefault::<FoldHasher>::new().hash_one(text)
}

#[test]
fn equal_texts_have_one_hash(rt: HostRuntime) {
    let alloc = rt.alloc();
    let short = Text::of_str(alloc, "ab").expect(&rt, "memory");
    let grown = Text::from_vec(
        letters(alloc, 2)
            .expect(&rt, "memory")
            .into_vec()
            .expect(&rt, "memory"),
    );
    let same = Text::of_str(alloc, "xx").expect(&rt, "memory");
    assert!(rt; hash_of(&grown) == hash_of(&same) && hash_of(&short) != hash_of(&same));
}

// A disk fails at its second and at its fifth call.
fn failing(alloc: Global) -> Result<MemoryDisk, NoMemory> {
    let mut fails = List::new(alloc);
    fails.push(2)?;
    fails.push(5)?;
    MemoryDisk::new(alloc, Text::of_str(alloc, "abc")?, Faults::of(fails, 0))
}

#[test]
fn a_disk_fails_at_the_calls_of_its_plan_alone(rt: HostRuntime) {
    let mut disk = failing(rt.alloc()).expect(&rt, "memory");
    assert!(rt; disk.size() == Ok(3) && disk.size() == Err(Outside::Failed));
    assert!(rt; disk.sync() == Ok(()) && disk.read_at(0, 1).is_ok());
    assert!(rt; disk.read_at(0, 1).is_err() && disk.read_at(0, 1).is_ok());
}

#[test]
fn digests_are_compared_by_their_bytes(rt: HostRuntime) {
    let digest = Digest { bytes: [7; 32] };
    assert!(rt; digest == Digest { bytes: [7; 32] } && digest != Digest { bytes: [8; 32] });
}

#[test]
fn a_text_is_utf8_without_surrogates_or_long_forms(rt: HostRuntime) {
    for (bytes, expected) in [
        (b"".as_slice(), true),
        (b"a\xC3\xA9".as_slice(), true),
        (b"\xF4\x8F\xBF\xBF".as_slice(), true),
        (b"\xC3".as_slice(), false),
        (b"\xC0\x80".as_slice(), false),
        (b"\xED\xA0\x80".as_slice(), false),
        (b"\xF4\x90\x80\x80".as_slice(), false),
    ] {
        assert!(rt; is_utf8(bytes) == expected);
    }
}
