// The hash of texts, begun with a seed.
use std::hash::{BuildHasher, FoldHasher, Hasher};

/// Makes hashers that have taken a seed already. Whoever doesn't know the seed cannot choose texts
/// of one hash.
#[derive(Clone, Copy)]
pub struct Seeded {
    begun: FoldHasher,
}

impl Seeded {
    pub fn new(seed: u128) -> Seeded {
        let mut begun = FoldHasher::default();
        begun.write(&seed.to_le_bytes());
        Seeded { begun }
    }
}

impl BuildHasher for Seeded {
    type Hasher = FoldHasher;

    ghost build_hasher = { λ seeded. seeded.begun };

    fn build_hasher(&self) -> FoldHasher {
        self.begun
    }
}
