// What is held between a source and its requests.
ghost use Rattle.std.specs.Prelude.{◌≡◌, ◌⊎◌, ◌↔◌, ◌<◌, ◌≤◌, ◌+◌, length, take, drop, vec_len, Ok, IfOk, OnOk, OnErr, IsErrOf, IsTrue};
ghost use Rattle.bl_outside.specs.Counts.{HasCause, Rose};
ghost use Rattle.bl_http.specs.Buffers.{Grows, IsAtEnd, IsAtLimit, IsWithin, Moves, empty_buffer, input_limit, part};

use crate::HttpFault;
use bl_outside::{Failed, Source};
use std::alloc::{AllocError, Global};
use std::marker::Model;

/// The most bytes that are taken of one input: 1 TiB.
pub const INPUT_LIMIT: u64 = 1_099_511_627_776;

/// The most bytes that are taken at once.
const PIECE: usize = 16_384;

/// The bytes that were taken and aren't used yet. Contracts see them, and how many were taken in
/// all.
#[derive(Drop)]
pub struct Buffer {
    room: Vec<u8>,
    // The bytes that are held stand in the room from one place to the other.
    from: usize,
    to: usize,
    taken: u64,
}

impl Model for Buffer {
    ghost use Rattle.bl_http.specs.Buffers.{BufferRecord, IsInOrder, held_in};

    ghost Value = { BufferRecord };

    ghost view = { held_in };

    ghost invariant = { IsInOrder };
}

impl Buffer {
    /// An empty one. It takes no memory.
    pub fn new(alloc: Global) -> Buffer
        ensures { result ≡ empty_buffer }
    {
        Buffer {
            room: Vec::new(alloc),
            from: 0,
            to: 0,
            taken: 0,
        }
    }

    /// The bytes that were taken and aren't used yet.
    pub(crate) fn as_slice(&self) -> &[u8]
        ensures bytes { result.now ≡ self.now.bytes }
        ensures within { IsWithin self.now }
    {
        &self.room[self.from..self.to]
    }

    /// All bytes were taken that may be.
    pub(crate) fn is_full(&self) -> bool
        ensures { IsTrue result ↔ (self.now.taken ≡ input_limit) }
    {
        self.taken == INPUT_LIMIT
    }

    /// Uses the first `count` bytes up.
    pub(crate) fn consume(&mut self, count: usize)
        requires { count ≤ length self.old.bytes }
        ensures used { self.new ≡ record self.old { bytes = drop count self.old.bytes } }
        ensures within { IsWithin self.new }
    {
        self.from += count;
        if self.from == self.to {
            self.from = 0;
            self.to = 0;
        }
    }

    /// Takes a piece from the source. 0 bytes come at the end of the input and at the limit alone.
    pub(crate) fn fill<S: Source>(&mut self, source: &mut S) -> Result<usize, HttpFault>
        ensures moves { Moves (S.left source.old) (S.left source.new) self.old self.new }
        ensures grows { IfOk result (λ count.
            length self.new.bytes ≡ length self.old.bytes + count) }
        ensures ends { result ≡ Ok 0
            → IsAtEnd (S.left source.new) self.new ⊎ IsAtLimit self.new }
        ensures within { IsWithin self.new }
        ensures later { S.faults source.old ≤ S.faults source.new }
        ensures fault { IsErrOf result HttpFault.ReadFault
            → Rose (S.faults source.old) (S.faults source.new) }
    {
        let most = (INPUT_LIMIT - self.taken).min(PIECE as u64) as usize;
        if most == 0 {
            return Ok(0);
        }
        make_room(&mut self.room, &mut self.from, &mut self.to)?;
        let count = take_piece(source, &mut self.room, self.to, most)?;
        self.to += count;
        self.taken += count as u64;
        Ok(count)
    }
}

// Makes room for a piece behind what is held, which may move to the front.
fn make_room(room: &mut Vec<u8>, from: &mut usize, to: &mut usize) -> Result<(), AllocError>
    requires places { from.old ≤ to.old }
    requires inside { to.old ≤ vec_len room.old }
    ensures same { part room.new.items from.new to.new ≡ part room.old.items from.old to.old }
    ensures places { from.new ≤ to.new }
    ensures size { to.new + from.old ≡ to.old + from.new }
    ensures inside { to.new ≤ vec_len room.new }
    ensures room { OnOk result (to.new + 16384 ≤ vec_len room.new) }
{
    if room.len() - *to >= PIECE {
        return Ok(());
    }
    room.drain(..*from);
    *to -= *from;
    *from = 0;
    room.resize(*to + PIECE, 0)
}

// Takes a piece of at most so many bytes to the end of what is held.
fn take_piece<S: Source>(
    source: &mut S,
    room: &mut Vec<u8>,
    to: usize,
    most: usize,
) -> Result<usize, Failed>
    requires some { 0 < most }
    requires inside { to + most ≤ vec_len room.old }
    ensures grows { IfOk result
        (Grows (S.left source.old) (S.left source.new) room.old.items room.new.items to) }
    ensures bound { IfOk result (λ count. count ≤ most) }
    ensures size { vec_len room.new ≡ vec_len room.old }
    ensures stays { OnErr result (take to room.new.items ≡ take to room.old.items) }
    ensures left { OnErr result (S.left source.new ≡ S.left source.old) }
    ensures cause { HasCause (S.faults source.old) (S.faults source.new) result }
{
    source.take(&mut room[to..to + most])
}
