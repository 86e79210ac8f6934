// Entries as bytes and back.
ghost use Rattle.std.specs.Prelude.{◌≡◌, ◌<◌};
ghost use Rattle.bl_entry.specs.Decoded.{Decodes};

use bl_entry::{Entry, EntryRefusal, decode, encode, no_encoding_begins_another};
use bl_outside::{NoMemory, Steps, Text};
use std::alloc::Global;
use std::marker::Brand;
use std::sync::ledger::{Blank, Ledger};

fn decoded<L: Ledger>(alloc: Global, blank: Blank, bytes: &[u8]) -> Result<Entry, EntryRefusal>
    requires name { blank.name ≡ L.name }
    requires parts { blank.parts ≡ L.parts }
    requires some { 0 < blank.parts }
    ensures { Decodes bytes.now result }
{
    let mut steps = Steps::<L>::new(blank);
    decode(alloc, bytes, &mut steps)
}

fn read(alloc: Global, bytes: &[u8]) -> Result<Entry, EntryRefusal>
    ensures { Decodes bytes.now result }
{
    decoded::<Brand>(alloc, Blank::new(1), bytes)
}

const CANCEL: [u8; 14] = [2, 0, 0, 0, 0, 0, 0, 0, 5, 0, 0, 0, 2, 0];

#[test]
fn a_cancel_has_thirteen_bytes(rt: HostRuntime) {
    let cancel = Entry::Cancel { moment: 5, job: 2 };
    let bytes = encode(rt.alloc(), &cancel).expect(&rt, "memory");
    assert!(rt; bytes.as_slice() == &CANCEL[..13]);
    let entry = read(rt.alloc(), &CANCEL[..13]);
    assert!(rt; matches!(&entry, Ok(Entry::Cancel { moment: 5, job: 2 })));
    for part in [&CANCEL[..12], &CANCEL[..14], &CANCEL[..0]] {
        let entry = read(rt.alloc(), part);
        assert!(rt; matches!(&entry, Err(EntryRefusal::NotAnEntry)));
    }
    no_encoding_begins_another();
}

// A batch of two rows: one log, and the label `p` of `v1`.
const BATCH: [u8; 98] = [
    4, 0, 0, 0, 0, 0, 0, 0, 7, 0, 0, 0, 1, 0, 0, 0, 2, 0, 0, 0, 0, 0, 0, 0, 3, 0, 0, 0, 2, 9, 9, 9,
    9, 9, 9, 9, 9, 9, 9, 9, 9, 9, 9, 9, 9, 9, 9, 9, 9, 9, 9, 9, 9, 9, 9, 9, 9, 9, 9, 9, 9, 0, 0, 0,
    1, 0, 0, 0, 1, 6, 0, 0, 0, 0, 0, 0, 0, 4, 0, 0, 0, 2, 0, 0, 0, 1, 1, 0, 0, 0, 2, 118, 49, 0, 0,
    0, 1, 112,
];

#[test]
fn a_batch_is_read_and_written_again(rt: HostRuntime) {
    match read(rt.alloc(), &BATCH) {
        Ok(entry) => {
            let bytes = encode(rt.alloc(), &entry).expect(&rt, "memory");
            assert!(rt; bytes.as_slice() == BATCH.as_slice());
        }
        Err(_) => assert!(rt; false),
    }
    // a list that says it has more than there is
    let entry = read(rt.alloc(), &BATCH[..97]);
    assert!(rt; matches!(&entry, Err(EntryRefusal::NotAnEntry)));
}

fn joined(alloc: Global, parts: &[&[u8]]) -> Result<Text, NoMemory> {
    let mut bytes = Text::new(alloc);
    for part in parts {
        bytes.extend(part)?;
    }
    Ok(bytes)
}

// The bytes of the entry that was read from these, and none where they are no entry.
fn again(alloc: Global, parts: &[&[u8]]) -> Result<Option<Text>, NoMemory> {
    match read(alloc, joined(alloc, parts)?.as_slice()) {
        Ok(entry) => Ok(Some(encode(alloc, &entry)?)),
        Err(EntryRefusal::NotAnEntry) => Ok(None),
        Err(EntryRefusal::NoMemory) => Err(NoMemory),
    }
}

// The moment 5 and the job 2.
const HEAD: &[u8] = b"\0\0\0\0\0\0\0\x05\0\0\0\x02";

const DIGEST: &[u8] = &[9; 32];

const ID: &[u8] = &[7; 16];

const SOURCE: &[u8] = b"\0\0\0\x08s3://b/f";

const NONE: &[u8] = b"\0\0\0\0";

// From the record 0, one row, and no duplicate.
const ROW: &[u8] = b"\0\0\0\x01\0\0\0\0\0\0\0\0\0\0\0\x01";

// A value of the vertex `v` at the key `k`, but for the value.
const VALUE: &[u8] = b"\0\0\0\x01\x03\0\0\0\0\x01v\0\0\0\x01k";

#[test]
fn each_kind_of_entry_is_read_and_written_again(rt: HostRuntime) {
    let table: [&[&[u8]]; 16] = [
        &[b"\x01", HEAD, ID, SOURCE, b"\0\0\0\0\0\0", NONE],
        &[
            b"\x01",
            HEAD,
            ID,
            SOURCE,
            b"\0\x02\x01\x01\x03\x01",
            b"\0\0\0\x02",
            ID,
            &[255; 16],
        ],
        &[b"\x02", HEAD],
        &[b"\x03", HEAD, b"\0", NONE],
        &[
            b"\x03",
            HEAD,
            b"\0\0\0\0\x03",
            b"\0\0\0\x05a.csv\0",
            DIGEST,
            b"\0\0\0\0\x01",
            DIGEST,
            b"\0\0\0\x01x\x02\x14\0\0\0\x02",
            DIGEST,
        ],
        &[b"\x03", HEAD, b"\x01"],
        &[b"\x03", HEAD, b"\x02"],
        &[b"\x03", HEAD, b"\x03"],
        &[b"\x03", HEAD, b"\x04\0\0\0\0\0\0\x13\x88"],
        &[b"\x04", HEAD, ROW, DIGEST, NONE, NONE, NONE],
        &[
            b"\x04",
            HEAD,
            ROW,
            DIGEST,
            NONE,
            NONE,
            b"\0\0\0\x02",
            b"\x02\0\0\0\x01e\0\0\0\x01l\0\0\0\x01v\0\0\0\x01w",
            b"\x04\x01\0\0\0\x01e\0\0\0\x01k\x01\x01",
        ],
        &[
            b"\x04",
            HEAD,
            ROW,
            DIGEST,
            NONE,
            NONE,
            VALUE,
            b"\x06\0\0\0\x03\xe2\x82\xac",
        ],
        &[b"\x05", HEAD, b"\0\0\0\x03", b"\0"],
        &[
            b"\x05",
            HEAD,
            b"\0\0\0\x03",
            b"\x01\x07\0\0\0\0\0\0\0\x04\0\0\0\x02",
        ],
        &[b"\x05", HEAD, b"\0\0\0\x03", b"\x02"],
        &[b"\x05", HEAD, b"\0\0\0\x03", b"\x03"],
    ];
    for parts in &table {
        let bytes = joined(rt.alloc(), parts).expect(&rt, "memory");
        let written = again(rt.alloc(), parts).expect(&rt, "memory");
        match written {
            Some(written) => assert!(rt; written.as_slice() == bytes.as_slice(), "{bytes:?}"),
            None => assert!(rt; false, "{bytes:?}"),
        }
    }
}

#[test]
fn a_part_out_of_its_range_is_no_entry(rt: HostRuntime) {
    let table: [&[&[u8]]; 24] = [
        &[],
        &[b"\0", HEAD],
        &[b"\x06", HEAD],
        // a format, a mode, a truth value, a parallelism
        &[b"\x01", HEAD, ID, SOURCE, b"\x01\0\0\0\0\0", NONE],
        &[b"\x01", HEAD, ID, SOURCE, b"\0\x03\0\0\0\0", NONE],
        &[b"\x01", HEAD, ID, SOURCE, b"\0\0\x02\0\0\0", NONE],
        &[b"\x01", HEAD, ID, SOURCE, b"\0\0\0\x02\0\0", NONE],
        &[b"\x01", HEAD, ID, SOURCE, b"\0\0\0\0\x04\0", NONE],
        &[b"\x01", HEAD, ID, SOURCE, b"\0\0\0\0\0\x02", NONE],
        // sources that aren't kept so
        &[
            b"\x01",
            HEAD,
            ID,
            b"\0\0\0\x07s3://b/",
            b"\0\0\0\0\0\0",
            NONE,
        ],
        &[b"\x01", HEAD, ID, b"\0\0\0\x03b/f", b"\0\0\0\0\0\0", NONE],
        // a list that says it has more than there is
        &[
            b"\x01",
            HEAD,
            ID,
            SOURCE,
            b"\0\0\0\0\0\0",
            b"\xff\xff\xff\xff",
        ],
        &[b"\x03", HEAD, b"\0\xff\xff\xff\xff"],
        &[b"\x03", HEAD, b"\x05"],
        &[b"\x03", HEAD, b"\0\0\0\0\x01", b"\0\0\0\x01x\x03", DIGEST],
        // texts: one that is no UTF-8, one that is cut, an empty id
        &[b"\x03", HEAD, b"\0\0\0\0\x01", b"\0\0\0\x01\xff\0", DIGEST],
        &[b"\x03", HEAD, b"\0\0\0\0\x01", b"\xff\xff\xff\xffx"],
        &[
            b"\x04",
            HEAD,
            ROW,
            DIGEST,
            NONE,
            NONE,
            b"\0\0\0\x01\x01\0\0\0\0\0\0\0\x01l",
        ],
        // a change, a side, values
        &[
            b"\x04",
            HEAD,
            ROW,
            DIGEST,
            NONE,
            NONE,
            b"\0\0\0\x01\x05\0\0\0\0\x01v\0\0\0\x01k\x01\0",
        ],
        &[
            b"\x04",
            HEAD,
            ROW,
            DIGEST,
            NONE,
            NONE,
            b"\0\0\0\x01\x03\x02\0\0\0\x01v\0\0\0\x01k\x01\0",
        ],
        &[b"\x04", HEAD, ROW, DIGEST, NONE, NONE, VALUE, b"\0\0"],
        &[b"\x04", HEAD, ROW, DIGEST, NONE, NONE, VALUE, b"\x08\0"],
        &[b"\x04", HEAD, ROW, DIGEST, NONE, NONE, VALUE, b"\x01\x02"],
        &[b"\x05", HEAD, b"\0\0\0\x03", b"\x04"],
    ];
    for parts in &table {
        let written = again(rt.alloc(), parts).expect(&rt, "memory");
        assert!(rt; written.is_none(), "{parts:?}");
    }
}

#[test]
fn dates_and_texts_have_their_ends(rt: HostRuntime) {
    for (seconds, is_date) in [
        (-62167219200i64, true),
        (-62167219201, false),
        (253402300799, true),
        (253402300800, false),
    ] {
        let bytes = seconds.to_be_bytes();
        let parts: [&[u8]; 9] = [
            b"\x04", HEAD, ROW, DIGEST, NONE, NONE, VALUE, b"\x07", &bytes,
        ];
        let written = again(rt.alloc(), &parts).expect(&rt, "memory");
        assert!(rt; written.is_some() == is_date, "{seconds}");
    }
    for (length, is_id) in [(1u32, true), (1_024, true), (1_025, false)] {
        let id = joined(rt.alloc(), &[b"\0\0\0\x01\x01", &length.to_be_bytes()]);
        let mut id = id.expect(&rt, "memory");
        for _ in 0..length {
            id.push(b'v').expect(&rt, "memory");
        }
        let parts: [&[u8]; 8] = [
            b"\x04",
            HEAD,
            ROW,
            DIGEST,
            NONE,
            NONE,
            id.as_slice(),
            b"\0\0\0\x01l",
        ];
        let written = again(rt.alloc(), &parts).expect(&rt, "memory");
        assert!(rt; written.is_some() == is_id, "{length}");
    }
}

#[test]
fn logs_have_the_numbers_of_codes_alone(rt: HostRuntime) {
    for number in 0..=255u8 {
        let is_code = (1 <= number && number <= 12)
            || (20 <= number && number <= 24)
            || (30 <= number && number <= 33);
        let log: [&[u8]; 5] = [b"\x05", HEAD, b"\0\0\0\x03\x01", &[number], &[0; 12]];
        let written = again(rt.alloc(), &log).expect(&rt, "memory");
        assert!(rt; written.is_some() == is_code, "a log of {number}");
        let kind: [&[u8]; 6] = [
            b"\x03",
            HEAD,
            b"\0\0\0\0\x01\0\0\0\x01x\x02",
            &[number],
            NONE,
            DIGEST,
        ];
        let written = again(rt.alloc(), &kind).expect(&rt, "memory");
        assert!(rt; written.is_some() == is_code, "a kind of {number}");
    }
}

#[test]
fn a_long_list_is_read_and_written_again(rt: HostRuntime) {
    let count: u32 = 1_000;
    let mut bytes = joined(
        rt.alloc(),
        &[b"\x04", HEAD, ROW, DIGEST, NONE, &count.to_be_bytes()],
    )
    .expect(&rt, "memory");
    for number in 0..count {
        bytes.extend(&[6]).expect(&rt, "memory");
        bytes
            .extend(&(number as u64).to_be_bytes())
            .expect(&rt, "memory");
        bytes.extend(&number.to_be_bytes()).expect(&rt, "memory");
    }
    bytes.extend(NONE).expect(&rt, "memory");
    let written = again(rt.alloc(), &[bytes.as_slice()]).expect(&rt, "memory");
    assert!(rt; written.is_some_and(|written| written.as_slice() == bytes.as_slice()));
}
