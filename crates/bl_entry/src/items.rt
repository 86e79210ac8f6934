// What stands in the lists of an entry.
ghost use Rattle.std.specs.Prelude.{◌<◌, ◌^◌};
ghost use Rattle.bl_entry.specs.Encoding.{change_bytes, found_bytes, log_bytes, u128_bytes};
ghost use Rattle.bl_entry.specs.Reading.{change_at, found_at, log_at, long_at};
ghost use Rattle.bl_value.specs.Valid.{IsChange};
ghost use Rattle.bl_entry.specs.Valid.{IsFound, IsLog};

use crate::EntryRefusal;
use crate::buffer::Buffer;
use crate::part::Part;
use crate::read_changes::{read_change, read_log};
use crate::read_files::read_found;
use crate::read_parts::read_u128;
use crate::write_parts::{write_change, write_found, write_log, write_u128};
use bl_files::{Found, Log};
use bl_outside::NoMemory;
use bl_value::Change;
use std::alloc::Global;

impl Part for Log {
    ghost bytes = { log_bytes };

    ghost valid = { IsLog };

    ghost at = { log_at };

    fn write(&self, out: &mut Buffer) -> Result<(), NoMemory> {
        write_log(out, self)
    }

    fn read(_: Global, input: &[u8]) -> Result<(Log, &[u8]), EntryRefusal> {
        read_log(input)
    }
}

impl Part for Change {
    ghost bytes = { change_bytes };

    ghost valid = { IsChange };

    ghost at = { change_at };

    fn write(&self, out: &mut Buffer) -> Result<(), NoMemory> {
        write_change(out, self)
    }

    fn read(alloc: Global, input: &[u8]) -> Result<(Change, &[u8]), EntryRefusal> {
        read_change(alloc, input)
    }
}

impl Part for Found {
    ghost bytes = { found_bytes };

    ghost valid = { IsFound };

    ghost at = { found_at };

    fn write(&self, out: &mut Buffer) -> Result<(), NoMemory> {
        write_found(out, self)
    }

    fn read(alloc: Global, input: &[u8]) -> Result<(Found, &[u8]), EntryRefusal> {
        read_found(alloc, input)
    }
}

impl Part for u128 {
    ghost bytes = { u128_bytes };

    ghost valid = { λ id. id < 2 ^ 128 };

    ghost at = { long_at };

    fn write(&self, out: &mut Buffer) -> Result<(), NoMemory> {
        write_u128(out, *self)
    }

    fn read(_: Global, input: &[u8]) -> Result<(u128, &[u8]), EntryRefusal> {
        read_u128(input)
    }
}
