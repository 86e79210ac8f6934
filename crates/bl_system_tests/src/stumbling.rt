// A reader and a writer that go a byte at a time, are interrupted once, and fail once.
use std::io::{Error, ErrorKind, Read, Result, Write};

/// Calls by their number from 1. 0 stands for none.
#[derive(Clone, Copy)]
pub struct Stumbles {
    pub interrupted: u64,
    pub fails: u64,
}

// What becomes of a call.
fn judge(calls: u64, stumbles: Stumbles) -> Result<()> {
    if calls == stumbles.interrupted {
        return Err(Error::from(ErrorKind::Interrupted));
    }
    if calls == stumbles.fails {
        return Err(Error::from(ErrorKind::Other));
    }
    Ok(())
}

/// Gives the letters of a word.
#[derive(Drop)]
pub struct StumblingReader {
    pub left: &'static [u8],
    pub calls: u64,
    pub stumbles: Stumbles,
}

impl Read for StumblingReader {
    fn read(&mut self, room: &mut [u8]) -> Result<usize> {
        self.calls = self.calls.saturating_add(1);
        judge(self.calls, self.stumbles)?;
        match (self.left.split_first(), room.first_mut()) {
            (Some((letter, rest)), Some(first)) => {
                *first = *letter;
                self.left = rest;
                Ok(1)
            }
            _ => Ok(0),
        }
    }
}

/// Takes a byte a call.
#[derive(Drop)]
pub struct StumblingWriter {
    pub calls: u64,
    pub stumbles: Stumbles,
}

impl Write for StumblingWriter {
    fn write(&mut self, bytes: &[u8]) -> Result<usize> {
        self.calls = self.calls.saturating_add(1);
        judge(self.calls, self.stumbles)?;
        Ok(bytes.len().min(1))
    }

    fn flush(&mut self) -> Result<()> {
        self.calls = self.calls.saturating_add(1);
        judge(self.calls, self.stumbles)
    }
}
