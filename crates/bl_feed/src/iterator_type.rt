// Where a page begins, by the names of the Neptune User Guide.
ghost use Rattle.std.specs.Prelude.{◌≡◌};
ghost use Rattle.bl_feed.specs.Parameters.{iterator_at, needs_commit, type_named};

use bl_stream::Iterator4;

/// The kinds of places at which a page begins.
#[derive(Clone, Copy, Debug, PartialEq, Eq)]
pub enum IteratorType {
    AtSequenceNumber,
    AfterSequenceNumber,
    TrimHorizon,
    Latest,
}

impl IteratorType {
    pub fn named(name: &[u8]) -> Option<IteratorType>
        ensures { result ≡ type_named name.now }
    {
        if name == b"AT_SEQUENCE_NUMBER".as_slice() {
            Some(IteratorType::AtSequenceNumber)
        } else if name == b"AFTER_SEQUENCE_NUMBER".as_slice() {
            Some(IteratorType::AfterSequenceNumber)
        } else if name == b"TRIM_HORIZON".as_slice() {
            Some(IteratorType::TrimHorizon)
        } else if name == b"LATEST".as_slice() {
            Some(IteratorType::Latest)
        } else {
            None
        }
    }

    /// A page of this kind begins at a pair, or after one.
    pub fn needs_commit(self) -> bool
        ensures { result ≡ needs_commit self }
    {
        matches!(
            self,
            IteratorType::AtSequenceNumber | IteratorType::AfterSequenceNumber
        )
    }

    /// The place of this kind. Where it is no pair, the two numbers are unused.
    pub fn at(self, commit: u64, op: u64) -> Iterator4
        ensures { result ≡ iterator_at self commit op }
    {
        match self {
            IteratorType::AtSequenceNumber => Iterator4::At(commit, op),
            IteratorType::AfterSequenceNumber => Iterator4::After(commit, op),
            IteratorType::TrimHorizon => Iterator4::TrimHorizon,
            IteratorType::Latest => Iterator4::Latest,
        }
    }
}
