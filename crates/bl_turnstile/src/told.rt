ghost use Rattle.std.specs.Prelude.{◌≡◌, ℕ, List, length};

/// A value that stands for a list of entries, each of which is a list of bytes.
pub trait Told {
    /// The entries for which it stands when its turnstile is made.
    ghost first: { List (List ℕ) };

    /// It stands for these entries, of which the first has this number.
    ghost stands: { Self → ℕ → List (List ℕ) → Type 0 };

    /// The number of the last entry, where it stands for one list alone.
    fn seq(&self) -> u64
        ensures { (entries : List (List ℕ)) → stands self.now 1 entries
            → ((other : List (List ℕ)) → stands self.now 1 other → other ≡ entries)
            → length entries ≡ result };
}
