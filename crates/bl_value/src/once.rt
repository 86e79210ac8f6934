// Items without repeats.
ghost use Rattle.std.specs.Prelude.{◌≡◌, ◌++◌, ◌∷◌, [], IfOk, OnOk};
ghost use Rattle.std.specs.List.{list_any};
ghost use Rattle.std.specs.Ordering.{eq_by_cmp};
ghost use Rattle.bl_value.specs.Once.{HasEach, MayHaveEach, once_behind};

use crate::Value;
use bl_outside::{List, NoMemory, Text};
use std::alloc::Global;
use std::collections::BTreeSet;
use std::marker::Model;

/// So many items are compared one by one. More of them are looked up in a set.
const FEW: usize = 16;

/// What can be copied where there is memory.
pub trait Copied: Ord + Drop + Sized {
    fn copied(&self, alloc: Global) -> Result<Self, NoMemory>
        ensures { IfOk result (λ copy. copy ≡ self.now) };
}

impl Copied for Text {
    fn copied(&self, alloc: Global) -> Result<Text, NoMemory> {
        self.copy(alloc)
    }
}

impl Copied for Value {
    fn copied(&self, alloc: Global) -> Result<Value, NoMemory> {
        self.copy(alloc)
    }
}

/// Items, each once, in the order in which they came. Contracts see it as a list.
#[derive(Drop)]
pub struct EachOnce<T: Ord> {
    items: List<T>,
    seen: Option<BTreeSet<T>>,
}

impl<T: Ord> Model for EachOnce<T> {
    ghost use Rattle.std.specs.Prelude.{List as Items};
    ghost use Rattle.std.specs.Coded.{coded_list};

    ghost Value = { Items T };

    ghost coded = { coded_list T.code };

    ghost use Rattle.bl_value.specs.Once.{MayHaveEach};

    ghost view = { λ it. it.items };

    ghost invariant = { λ it. MayHaveEach T.cmp it.seen it.items };
}

impl<T: Copied> EachOnce<T> {
    pub fn new(alloc: Global) -> EachOnce<T>
        ensures { result ≡ [] }
    {
        EachOnce {
            items: List::new(alloc),
            seen: None,
        }
    }

    /// Adds an item behind the others, unless one of them is equal to it.
    pub fn push(&mut self, alloc: Global, item: T) -> Result<(), NoMemory>
        ensures { OnOk result
            (self.new ≡ self.old ++ once_behind (eq_by_cmp T.cmp) self.old (item ∷ [])) }
    {
        if self.seen.is_none() && self.items.len() < FEW {
            return push_to_few(&mut self.items, item);
        }
        let mut seen = set_of(alloc, self.seen.take(), self.items.as_slice())?;
        push_to_many(alloc, &mut seen, &mut self.items, item)?;
        self.seen = Some(seen);
        Ok(())
    }

    pub fn into_list(self) -> List<T>
        ensures { result ≡ self }
    {
        let EachOnce { items, seen: _ } = self;
        items
    }
}

fn is_among<T: Ord>(items: &[T], item: &T) -> bool
    ensures { result ≡ list_any (λ other. eq_by_cmp T.cmp other item.now) items.now }
{
    items.iter().any(|other| other.cmp(item).is_eq())
}

#[tactic(auto, using(crate::proofs::Repeats::item_there, crate::proofs::Repeats::item_new))]
fn push_to_few<T: Ord + Drop>(items: &mut List<T>, item: T) -> Result<(), NoMemory>
    ensures { OnOk result
        (items.new ≡ items.old ++ once_behind (eq_by_cmp T.cmp) items.old (item ∷ [])) }
{
    if is_among(items.as_slice(), &item) {
        return Ok(());
    }
    items.push(item)
}

// Adds an item to the items and to their set, unless it is there.
fn push_to_many<T: Copied>(
    alloc: Global,
    seen: &mut BTreeSet<T>,
    items: &mut List<T>,
    item: T,
) -> Result<(), NoMemory>
    requires { HasEach T.cmp seen.old items.old }
    ensures items { OnOk result
        (items.new ≡ items.old ++ once_behind (eq_by_cmp T.cmp) items.old (item ∷ [])) }
    ensures seen { OnOk result (HasEach T.cmp seen.new items.new) }
{
    if seen.insert(item.copied(alloc)?)? {
        items.push(item)?;
    }
    Ok(())
}

// The set of the items, which may have been made before.
fn set_of<T: Copied>(
    alloc: Global,
    made: Option<BTreeSet<T>>,
    items: &[T],
) -> Result<BTreeSet<T>, NoMemory>
    requires { MayHaveEach T.cmp made items.now }
    ensures { IfOk result (λ seen. HasEach T.cmp seen items.now) }
{
    if let Some(seen) = made {
        return Ok(seen);
    }
    let mut seen = BTreeSet::new(alloc);
    for item in items {
        seen.insert(item.copied(alloc)?)?;
    }
    Ok(seen)
}
