// The parts of an entry that stand in lists.
ghost use Rattle.std.specs.Prelude.{◌≡◌, ◌++◌, ℕ, List as Items, OnOk};
ghost use Rattle.std.specs.declared.option.Option.{Option};
ghost use Rattle.bl_entry.specs.Encoding.{list_bytes};
ghost use Rattle.bl_entry.specs.Reading.{Gives, items_at, list_at};
ghost use Rattle.bl_entry.specs.Valid.{IsList};

use crate::EntryRefusal;
use crate::buffer::Buffer;
use crate::read_parts::read_u32;
use bl_outside::{List, NoMemory};
use std::alloc::Global;

/// A part of an entry that stands in lists.
pub trait Part: Drop {
    ghost bytes: { Self → Items ℕ };

    ghost valid: { Self → Type 0 };

    ghost at: { Items ℕ → Option (Self × Items ℕ) };

    fn write(&self, out: &mut Buffer) -> Result<(), NoMemory>
        requires { valid self.now }
        ensures { OnOk result (out.new ≡ out.old ++ bytes self.now) };

    fn read(alloc: Global, input: &[u8]) -> Result<(Self, &[u8]), EntryRefusal>
        ensures { Gives (λ x. (x.0, x.1.now)) result (at input.now) };
}

/// The number of items, and the items.
pub fn write_list<T: Part>(out: &mut Buffer, items: &List<T>) -> Result<(), NoMemory>
    requires { IsList T.valid items.now }
    ensures { OnOk result (out.new ≡ out.old ++ list_bytes T.bytes items.now) }
{
    out.extend(&(items.len() as u32).to_be_bytes())?;
    for item in items.as_slice() {
        item.write(out)?;
    }
    Ok(())
}

/// A list takes memory for the items that are there, whatever their number is said to be.
pub fn read_list<T: Part>(alloc: Global, input: &[u8]) -> Result<(List<T>, &[u8]), EntryRefusal>
    ensures { Gives (λ x. (x.0, x.1.now)) result (list_at T.at input.now) }
{
    let (count, rest) = read_u32(input)?;
    read_items(alloc, count, rest)
}

fn read_items<T: Part>(
    alloc: Global,
    count: u32,
    input: &[u8],
) -> Result<(List<T>, &[u8]), EntryRefusal>
    ensures { Gives (λ x. (x.0, x.1.now)) result (items_at T.at count input.now) }
{
    let mut items = List::new(alloc);
    let mut rest = input;
    for _ in 0..count {
        let (item, after) = T::read(alloc, rest)?;
        items.push(item)?;
        rest = after;
    }
    Ok((items, rest))
}
