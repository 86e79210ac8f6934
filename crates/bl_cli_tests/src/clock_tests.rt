// A clock that moves, and a salt.
use crate::test_runs::{PEOPLE, folder_of, store};
use bl_cli::{Status, run};
use bl_outside::{Clock, Faults, MemorySink, MemorySource, Text};
use std::alloc::Global;
use std::process::Abort;

// It moves on by a second with each reading.
#[derive(Drop)]
struct MovingClock {
    last: u64,
    readings: u64,
}

impl Clock for MovingClock {
    ghost use Rattle.std.specs.Prelude.{None};

    ghost last = { λ c. c.last };

    ghost readings = { λ c. c.readings };

    ghost fixed = { λ c. None };

    fn now(&mut self) -> u64 {
        self.readings = self.readings.saturating_add(1);
        self.last = self.last.saturating_add(1_000);
        self.last
    }
}

const SALT: u128 = 0x0011_2233_4455_6677_8899_AABB_CCDD_EEFF;

const OUTPUT: &str =
    "{\"commitTimestamp\":3000,\"data\":{\"id\":\"v1\",\"key\":\"label\",\"type\":\"vl\",\"value\":{\"dataType\":\"String\",\"value\":\"person\"}},\"eventId\":{\"commitNum\":1,\"opNum\":1},\"op\":\"ADD\"}
{\"commitTimestamp\":3000,\"data\":{\"id\":\"v1\",\"key\":\"name\",\"type\":\"vp\",\"value\":{\"dataType\":\"String\",\"value\":\"Ann\"}},\"eventId\":{\"commitNum\":1,\"opNum\":2},\"isLastOp\":true,\"op\":\"ADD\"}
00112233-4455-4677-8899-000000000001 LOAD_COMPLETED 1 0 0 0 0
";

fn words<R: Abort>(rt: &R, alloc: Global) -> Vec<String> {
    let mut words = Vec::new(alloc);
    for word in ["load", "s3://b/people.csv", "--changes"] {
        let word = String::from_str(alloc, word).expect(rt, "memory");
        words.push(word).expect(rt, "memory");
    }
    words
}

// The clock is read once for each entry: the load, its start, its batch, and the end of its file.
// The batch has the third moment, and the id has bytes of the salt.
#[test]
fn a_load_has_the_moments_of_the_clock_and_an_id_of_the_salt(rt: HostRuntime) {
    let alloc = rt.alloc();
    let mut folder = folder_of(&rt, alloc, PEOPLE, Faults::none(alloc));
    let disks = store(&rt, alloc, b"", Faults::none(alloc));
    let words = words(&rt, alloc);
    let mut clock = MovingClock {
        last: 0,
        readings: 0,
    };
    let mut input = MemorySource::new(Text::new(alloc), 1, Faults::none(alloc));
    let mut out = MemorySink::new(alloc, Faults::none(alloc));
    let mut err = MemorySink::new(alloc, Faults::none(alloc));
    let (status, _) = run(
        &rt,
        alloc,
        &words,
        &mut folder,
        disks,
        &mut clock,
        SALT,
        &mut input,
        &mut out,
        &mut err,
    );
    assert!(rt; status == Status::Ok);
    assert!(rt; clock.readings == 4);
    assert!(rt; out.bytes().as_slice() == OUTPUT.as_bytes());
    assert!(rt; err.bytes().is_empty());
}
