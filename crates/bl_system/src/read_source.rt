// A source over a reader. It tells no content.
ghost use Rattle.std.specs.Prelude.{◌≤◌, IfOk, length};

use bl_outside::{Failed, Source};
use std::io::{ErrorKind, Read};

// One read, again where a signal cut it short.
pub fn read_some<R: Read>(reader: &mut R, room: &mut [u8]) -> Result<usize, Failed>
    ensures { IfOk result (λ n. n ≤ length room.old) }
{
    for _ in 0..u64::MAX {
        match reader.read(room) {
            Ok(n) => return Ok(n),
            Err(e) if e.kind() == ErrorKind::Interrupted => {}
            Err(_) => return Err(Failed),
        }
    }
    Err(Failed)
}

/// What a reader gives.
#[derive(Drop)]
pub struct ReadSource<R: Read + Drop> {
    reader: R,
    faults: u64,
}

impl<R: Read + Drop> ReadSource<R> {
    pub fn new(reader: R) -> ReadSource<R> {
        ReadSource { reader, faults: 0 }
    }
}

impl<R: Read + Drop> Source for ReadSource<R> {
    ghost use Rattle.std.specs.Prelude.{None};

    ghost left = { λ _. None };

    ghost faults = { λ s. s.faults };

    ghost taken = { λ s t. Unit {0} };

    fn take(&mut self, room: &mut [u8]) -> Result<usize, Failed> {
        let answer = read_some(&mut self.reader, room);
        if answer.is_err() {
            self.faults = self.faults.saturating_add(1);
        }
        answer
    }
}
