// Bytes that are written one behind the other.
ghost use Rattle.std.specs.Prelude.{◌≡◌, ◌∷◌, ◌++◌, [], IfOk, OnOk, OnErr};

use bl_outside::{NoMemory, Text};
use std::alloc::Global;
use std::marker::Model;

/// Bytes that are written one behind the other. Contracts see it as the list of its bytes.
#[derive(Drop)]
pub struct Buffer {
    bytes: Vec<u8>,
}

impl Model for Buffer {
    ghost use Rattle.std.specs.Prelude.{List, ℕ};

    ghost Value = { List ℕ };

    ghost view = { λ it. it.bytes.items };
}

impl Buffer {
    /// No byte, and room for so many.
    pub fn with_capacity(alloc: Global, capacity: usize) -> Result<Buffer, NoMemory>
        ensures { IfOk result (λ it. it ≡ []) }
    {
        Ok(Buffer {
            bytes: Vec::with_capacity(alloc, capacity)?,
        })
    }

    pub fn extend(&mut self, bytes: &[u8]) -> Result<(), NoMemory>
        ensures ok { OnOk result (self.new ≡ self.old ++ bytes.now) }
        ensures err { OnErr result (self.new ≡ self.old) }
    {
        self.bytes.extend_from_slice(bytes)?;
        Ok(())
    }

    pub fn push(&mut self, byte: u8) -> Result<(), NoMemory>
        ensures ok { OnOk result (self.new ≡ self.old ++ byte ∷ []) }
        ensures err { OnErr result (self.new ≡ self.old) }
    {
        self.bytes.push(byte)?;
        Ok(())
    }

    /// It takes no memory.
    pub fn into_text(self) -> Text
        ensures { result ≡ self }
    {
        let Buffer { bytes } = self;
        Text::from_vec(bytes)
    }
}
