// How a journal's file begins.
ghost use Rattle.std.specs.Prelude.{◌≡◌, ◌↔◌, ◌+◌, ◌<◌, ◌^◌, length, IsTrue};
ghost use Rattle.bl_journal.specs.Frames.{head, first_difference, IsEmptyJournal};

/// `NEPTLOAD-JRNL-1`
pub const HEAD: [u8; 15] = [78, 69, 80, 84, 76, 79, 65, 68, 45, 74, 82, 78, 76, 45, 49];

/// The head and a closed gate.
pub const NEW_FILE: [u8; 16] = [
    78, 69, 80, 84, 76, 79, 65, 68, 45, 74, 82, 78, 76, 45, 49, 0,
];

/// The place of the first gate.
pub const FIRST_GATE: u64 = 15;

/// The first place, counted from this one, at which the bytes differ from the expected ones.
pub fn difference(place: u64, expected: &[u8], bytes: &[u8]) -> Option<u64>
    requires { place + length expected.now < 2 ^ 32 }
    ensures { result ≡ first_difference place expected.now bytes.now }
{
    let [first, rest @ ..] = expected else {
        return None;
    };
    let [byte, behind @ ..] = bytes else {
        return Some(place);
    };
    if *first == *byte {
        return difference(place + 1, rest, behind);
    }
    Some(place)
}

fn is_head(bytes: &[u8]) -> bool
    ensures { IsTrue result ↔ (bytes.now ≡ head) }
{
    bytes == HEAD.as_slice()
}

/// The bytes are the head and a closed gate.
pub fn is_empty_journal(bytes: &[u8]) -> bool
    ensures { IsTrue result ↔ IsEmptyJournal bytes.now }
{
    match bytes {
        [front @ .., gate] => is_head(front) && *gate != 1,
        [] => false,
    }
}
