// A connection of a socket. It tells no content.
ghost use Rattle.std.specs.Prelude.{◌≡◌, ◌≤◌, IfOk, length};

use crate::read_source::read_some;
use crate::write_sink::put_whole;
use bl_outside::{Failed, Link, Sink, Source};
use std::net::TcpStream;
use std::time::{Duration, Instant};

/// Both directions of a socket.
///
/// The peer has its patience twice: so long it may be silent before a request begins, and so long
/// the request may take to come whole. What is written ends both. A read that comes or waits beyond
/// that fails, and so does a write of which nothing is taken for so long.
#[derive(Drop)]
pub struct TcpLink<R: std::rt::Clock + Drop> {
    system: R,
    stream: TcpStream,
    patience: Duration,
    /// When the peer's time began. None: the system's clock could not be read.
    since: Option<Instant>,
    /// A byte of the request has come.
    begun: bool,
    read_faults: u64,
    write_faults: u64,
}

impl<R: std::rt::Clock + Drop> TcpLink<R> {
    pub fn new(system: R, stream: TcpStream, patience: Duration) -> TcpLink<R> {
        let since = Instant::now(&system).ok();
        TcpLink {
            system,
            stream,
            patience,
            since,
            begun: false,
            read_faults: 0,
            write_faults: 0,
        }
    }

    // What is left of the peer's time.
    fn time_left(&self) -> Result<Duration, Failed> {
        let since = self.since.ok_or(Failed)?;
        let waited = since.elapsed(&self.system).map_err(|_| Failed)?;
        match self.patience.checked_sub(waited) {
            Some(left) if !left.is_zero() => Ok(left),
            _ => Err(Failed),
        }
    }

    // Another part of the peer's time begins.
    fn begin(&mut self, begun: bool)
        ensures reads { self.new.read_faults ≡ self.old.read_faults }
        ensures writes { self.new.write_faults ≡ self.old.write_faults }
    {
        self.begun = begun;
        self.since = Instant::now(&self.system).ok();
    }

    fn read(&mut self, room: &mut [u8]) -> Result<usize, Failed>
        ensures bound { IfOk result (λ n. n ≤ length room.old) }
        ensures reads { self.new.read_faults ≡ self.old.read_faults }
        ensures writes { self.new.write_faults ≡ self.old.write_faults }
    {
        let left = self.time_left()?;
        if self.stream.set_read_timeout(Some(left)).is_err() {
            return Err(Failed);
        }
        let count = read_some(&mut self.stream, room)?;
        if !self.begun {
            self.begin(true);
        }
        Ok(count)
    }

    fn write(&mut self, piece: &[u8]) -> Result<(), Failed>
        ensures reads { self.new.read_faults ≡ self.old.read_faults }
        ensures writes { self.new.write_faults ≡ self.old.write_faults }
    {
        if self.stream.set_write_timeout(Some(self.patience)).is_err() {
            return Err(Failed);
        }
        put_whole(&mut self.stream, piece)?;
        self.begin(false);
        Ok(())
    }
}

impl<R: std::rt::Clock + Drop> Source for TcpLink<R> {
    ghost use Rattle.std.specs.Prelude.{◌≡◌, None};

    ghost left = { λ _. None };

    ghost faults = { λ link. link.read_faults };

    ghost taken = { λ old new. new.write_faults ≡ old.write_faults };

    fn take(&mut self, room: &mut [u8]) -> Result<usize, Failed> {
        let answer = self.read(room);
        if answer.is_err() {
            self.read_faults = self.read_faults.saturating_add(1);
        }
        answer
    }
}

impl<R: std::rt::Clock + Drop> Sink for TcpLink<R> {
    ghost use Rattle.std.specs.Prelude.{◌≡◌, None};

    ghost written = { λ _. None };

    ghost faults = { λ link. link.write_faults };

    ghost put_to = { λ old new. new.read_faults ≡ old.read_faults };

    fn put(&mut self, piece: &[u8]) -> Result<(), Failed> {
        let answer = self.write(piece);
        if answer.is_err() {
            self.write_faults = self.write_faults.saturating_add(1);
        }
        answer
    }
}

impl<R: std::rt::Clock + Drop> Link for TcpLink<R> {
    ghost use Rattle.std.specs.Prelude.{refl};

    ghost take_keeps = { λ old new same. (refl, same) };

    ghost put_keeps = { λ old new same. (refl, same) };
}
