// A disk that tells its content and doesn't keep the disk model.
ghost use Rattle.std.specs.Prelude.{Some};

use bl_outside::{Disk, Outside, Text};
use std::alloc::Global;

/// It writes nothing and syncs nothing, and says that it has.
#[derive(Drop)]
pub struct LyingDisk {
    pub alloc: Global,
    pub bytes: Text,
}

impl Disk for LyingDisk {
    ghost seen = { λ d. Some d.bytes };

    ghost honest = { λ d. ⊥ };

    ghost may_leave = { λ d c. Unit {0} };

    ghost moment = { λ d. 0 };

    ghost left_since = { λ d t c. Unit {0} };

    ghost faults = { λ d. 0 };

    ghost counts_now = { λ d t c le now. tt };

    ghost only_now = { λ d c since. tt };

    ghost seen_is_image = { λ d c honest seen. tt };

    fn size(&mut self) -> Result<u64, Outside> {
        Ok(self.bytes.len() as u64)
    }

    fn read_at(&mut self, at: u64, most: u32) -> Result<Text, Outside> {
        let bytes = self.bytes.as_slice();
        let start = (at as usize).min(bytes.len());
        let end = start + (most as usize).min(bytes.len() - start);
        Ok(Text::copy_of(self.alloc, &bytes[start..end])?)
    }

    fn write_at(&mut self, _: u64, _: &[u8]) -> Result<(), Outside> {
        Ok(())
    }

    fn sync(&mut self) -> Result<(), Outside> {
        Ok(())
    }
}
