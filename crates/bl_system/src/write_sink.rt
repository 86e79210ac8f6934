// A sink over a writer. It tells no content.
use bl_outside::{Failed, Sink};
use std::io::Write;

// The whole piece, and then what the writer holds back.
pub fn put_whole<W: Write>(writer: &mut W, piece: &[u8]) -> Result<(), Failed> {
    match writer.write_all(piece) {
        Ok(()) => {}
        Err(_) => return Err(Failed),
    }
    match writer.flush() {
        Ok(()) => Ok(()),
        Err(_) => Err(Failed),
    }
}

/// What goes to a writer.
#[derive(Drop)]
pub struct WriteSink<W: Write + Drop> {
    writer: W,
    faults: u64,
}

impl<W: Write + Drop> WriteSink<W> {
    pub fn new(writer: W) -> WriteSink<W> {
        WriteSink { writer, faults: 0 }
    }
}

impl<W: Write + Drop> Sink for WriteSink<W> {
    ghost use Rattle.std.specs.Prelude.{None};

    ghost written = { λ _. None };

    ghost faults = { λ s. s.faults };

    ghost put_to = { λ s t. Unit {0} };

    fn put(&mut self, piece: &[u8]) -> Result<(), Failed> {
        let answer = put_whole(&mut self.writer, piece);
        if answer.is_err() {
            self.faults = self.faults.saturating_add(1);
        }
        answer
    }
}
