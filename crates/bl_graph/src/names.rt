// Texts and their numbers.
ghost use Rattle.std.specs.Prelude.{◌≡◌, [], length, nat_eq, position, slice_get, Some, IfOk};
ghost use Rattle.std.specs.List.{IsDistinct};
ghost use Rattle.std.specs.Cmp.Lexicographic.{pointwise};
ghost use Rattle.std.specs.Option.{option_copied};
ghost use Rattle.bl_graph.specs.Numbered.{IsFront};

use crate::Seeded;
use bl_outside::{NoMemory, Text};
use indexmap::IndexSet;
use std::alloc::Global;
use std::marker::Model;

/// Texts, each once. A text's place is its number.
#[derive(Drop)]
pub struct Names {
    alloc: Global,
    seeded: Seeded,
    texts: IndexSet<Text, Seeded>,
}

impl Model for Names {
    ghost use Rattle.std.specs.Prelude.{List, ℕ};

    ghost Value = { List (List ℕ) };

    ghost view = { λ a. a.texts.keys };
}

impl Names {
    pub fn new(alloc: Global, seeded: Seeded) -> Names
        ensures { result ≡ [] }
    {
        Names {
            alloc,
            seeded,
            texts: IndexSet::with_hasher(alloc, seeded),
        }
    }

    pub fn len(&self) -> usize
        ensures len { result ≡ length self.now }
        ensures differ { IsDistinct (pointwise nat_eq) self.now }
    {
        self.texts.len()
    }

    pub fn number_of(&self, text: &Text) -> Option<usize>
        ensures { result ≡ position (pointwise nat_eq text.now) self.now }
    {
        self.texts.get_index_of(text)
    }

    pub fn text(&self, number: usize) -> Option<&Text>
        ensures { option_copied result ≡ slice_get self.now number }
    {
        self.texts.get_index(number)
    }

    /// The number of a text, which is the next one where it had none. Numbers stay.
    pub fn add(&mut self, text: &Text) -> Result<usize, NoMemory>
        ensures number { IfOk result (λ number.
            position (pointwise nat_eq text.now) self.new ≡ Some number) }
        ensures front { IsFront self.old self.new }
    {
        match self.texts.get_index_of(text) {
            Some(number) => Ok(number),
            None => Ok(self.texts.insert_full(text.copy(self.alloc)?)?.0),
        }
    }

    pub fn copied(&self) -> Result<Names, NoMemory>
        ensures { IfOk result (λ copy. copy ≡ self.now) }
    {
        Ok(Names {
            alloc: self.alloc,
            seeded: self.seeded,
            texts: copy_texts(self.alloc, self.seeded, &self.texts)?,
        })
    }
}

fn copy_texts(
    alloc: Global,
    seeded: Seeded,
    texts: &IndexSet<Text, Seeded>,
) -> Result<IndexSet<Text, Seeded>, NoMemory>
    ensures { IfOk result (λ copy. copy.keys ≡ texts.now.keys) }
{
    let mut copy = IndexSet::with_hasher(alloc, seeded);
    for text in texts.iter() {
        copy.insert(text.copy(alloc)?)?;
    }
    Ok(copy)
}
