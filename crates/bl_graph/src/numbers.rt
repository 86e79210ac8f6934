// A set of numbers.
ghost use Rattle.std.specs.Prelude.{◌≡◌, ◌==◌, nat_eq, IfOk, OnOk, OnErr};
ghost use Rattle.std.specs.List.{list_any};
ghost use Rattle.bl_outside.specs.OrderedSet as set;
ghost use Rattle.bl_graph.specs.Held.{numbers_in, numbers_of};

use crate::{Copied, FEW};
use bl_outside::NoMemory;
use smallvec::SmallVec;
use std::alloc::Global;
use std::collections::BTreeSet;
use std::marker::Model;

/// The numbers in the order in which they came while they are few, and else in theirs.
#[derive(Drop)]
pub enum HeldNumbers {
    Few(SmallVec<usize, 2>),
    Many(BTreeSet<usize>),
}

/// Numbers, each once.
#[derive(Drop)]
pub struct Numbers {
    held: HeldNumbers,
}

impl Model for Numbers {
    ghost use Rattle.bl_graph.specs.Codes.{numbers_code};
    ghost use Rattle.bl_graph.specs.Numbered.{ByNumber};
    ghost use Rattle.bl_graph.specs.Held.{numbers_in, numbers_of};
    ghost use Rattle.bl_outside.specs.OrderedSet as set;

    ghost Value = { ByNumber (Unit {0}) };

    ghost coded = { numbers_code };

    ghost view = { λ a. numbers_in (numbers_of a.held) };
}

fn is_among(numbers: &[usize], number: usize) -> bool
    ensures { result ≡ list_any (λ other. nat_eq other number) numbers.now }
{
    numbers.iter().any(|other| *other == number)
}

// A set of all of these.
fn ordered(alloc: Global, numbers: &[usize]) -> Result<BTreeSet<usize>, NoMemory>
    ensures { IfOk result (λ all. numbers_in all.keys ≡ numbers_in numbers.now) }
{
    let mut all = BTreeSet::new(alloc);
    for number in numbers {
        all.insert(*number)?;
    }
    Ok(all)
}

impl Numbers {
    pub fn new(alloc: Global) -> Numbers
        ensures { result ≡ set.empty }
    {
        Numbers {
            held: HeldNumbers::Few(SmallVec::new(alloc)),
        }
    }

    pub fn contains(&self, number: usize) -> bool
        ensures { result ≡ set.contains self.now number }
    {
        match &self.held {
            HeldNumbers::Few(few) => is_among(few.as_slice(), number),
            HeldNumbers::Many(many) => many.contains(&number),
        }
    }

    pub fn is_empty(&self) -> bool
        ensures { result ≡ (set.len self.now == 0) }
    {
        match &self.held {
            HeldNumbers::Few(few) => few.is_empty(),
            HeldNumbers::Many(many) => many.len() == 0,
        }
    }

    pub fn insert(&mut self, alloc: Global, number: usize) -> Result<(), NoMemory>
        ensures ok { OnOk result (self.new ≡ set.insert self.old number) }
        ensures err { OnErr result (self.new ≡ self.old) }
    {
        if self.contains(number) {
            return Ok(());
        }
        insert_new(alloc, &mut self.held, number)
    }
}

impl Copied for Numbers {
    fn copied(&self, alloc: Global) -> Result<Numbers, NoMemory> {
        let held = match &self.held {
            HeldNumbers::Few(few) => HeldNumbers::Few(SmallVec::from_slice(alloc, few.as_slice())?),
            HeldNumbers::Many(many) => HeldNumbers::Many(copy_of(alloc, many)?),
        };
        Ok(Numbers { held })
    }
}

// Adds a number that isn't there.
fn insert_new(alloc: Global, held: &mut HeldNumbers, number: usize) -> Result<(), NoMemory>
    ensures ok { OnOk result (numbers_in (numbers_of held.new)
        ≡ set.insert (numbers_in (numbers_of held.old)) number) }
    ensures err { OnErr result (numbers_in (numbers_of held.new)
        ≡ numbers_in (numbers_of held.old)) }
{
    match held {
        HeldNumbers::Few(few) => {
            if few.len() < FEW {
                few.push(number)?;
            } else {
                let mut many = ordered(alloc, few.as_slice())?;
                many.insert(number)?;
                *held = HeldNumbers::Many(many);
            }
        }
        HeldNumbers::Many(many) => {
            many.insert(number)?;
        }
    }
    Ok(())
}

// A copy of an ordered set.
fn copy_of(alloc: Global, numbers: &BTreeSet<usize>) -> Result<BTreeSet<usize>, NoMemory>
    ensures { IfOk result (λ copy. numbers_in copy.keys ≡ numbers_in numbers.now.keys) }
{
    let mut copy = BTreeSet::new(alloc);
    for number in numbers.iter() {
        copy.insert(*number)?;
    }
    Ok(copy)
}
