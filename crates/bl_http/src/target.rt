// The two parts of a request's target.
ghost use Rattle.std.specs.Prelude.{◌≡◌, ◌==◌, ◌<◌, length, position, IfOk, IfSome};
ghost use Rattle.bl_http.specs.Targets.{is_mark, path_of, query_of, parameters as parameters_of};

use bl_outside::{List, NoMemory, Text};
use std::alloc::Global;

// The place of the first such byte.
pub fn place_of(bytes: &[u8], byte: u8) -> Option<usize>
    ensures value { result ≡ position (λ b. b == byte) bytes.now }
    ensures within { IfSome result (λ place. place < length bytes.now) }
{
    bytes.iter().position(|b| *b == byte)
}

/// The path and the query of a target.
pub fn divided(target: &[u8]) -> (&[u8], &[u8])
    ensures path { result.0.now ≡ path_of target.now }
    ensures query { result.1.now ≡ query_of target.now }
{
    match place_of(target, b'?') {
        Some(mark) => (&target[..mark], &target[mark + 1..]),
        None => (target, &[]),
    }
}

/// The parameters of a query.
pub fn parameters(alloc: Global, query: &[u8]) -> Result<List<(Text, Text)>, NoMemory>
    ensures { IfOk result (λ pairs. pairs ≡ parameters_of query.now) }
{
    let mut pairs = List::new(alloc);
    for pair in form_urlencoded::parse(alloc, query) {
        let (name, value) = pair?;
        let name = Text::copy_of(alloc, name.as_bytes())?;
        let value = Text::copy_of(alloc, value.as_bytes())?;
        pairs.push((name, value))?;
    }
    Ok(pairs)
}
