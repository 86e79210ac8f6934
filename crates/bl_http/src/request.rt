// A request, and how it is made of the bytes of its head and body.
ghost use Rattle.std.specs.Prelude.{◌≡◌, ◌+◌, ◌<◌, ◌≤◌, List, ℕ, length, take, drop, IfOk};
ghost use Rattle.http_header.specs.Token.{IsToken};
ghost use Rattle.httparse.specs.Grammar.{RequestHead};
ghost use Rattle.bl_http.specs.Parts.{IsParts, IsPartsOf};
ghost use Rattle.bl_http.specs.Requests.{request_of};

use crate::head::HeadParts;
use crate::target::{divided, parameters};
use bl_outside::{List, NoMemory, Text};
use http::Method;
use http::method::MethodError;
use std::alloc::Global;

/// A request, whole.
#[derive(Debug, Drop)]
pub struct Request {
    pub method: Method,
    /// The target up to the first `?`, as it came.
    pub path: Text,
    /// The parameters behind it, decoded, in their order.
    pub query: List<(Text, Text)>,
    pub body: Text,
    /// The connection ends with the reply.
    pub close: bool,
}

// The method of these bytes, which are a token.
fn method_of(alloc: Global, bytes: &[u8]) -> Result<Method, NoMemory>
    requires { IsToken bytes.now }
    ensures { IfOk result (λ method. method ≡ bytes.now) }
{
    match Method::from_bytes(alloc, bytes) {
        Ok(method) => Ok(method),
        Err(error) => match error {
            MethodError::OutOfMemory => Err(NoMemory),
            MethodError::Invalid => unreachable!(),
        },
    }
}

/// The request that the bytes begin with.
pub fn request_at(alloc: Global, bytes: &[u8], parts: HeadParts) -> Result<Request, NoMemory>
    requires parts { IsParts bytes.now parts }
    requires whole { parts.size + parts.body ≤ length bytes.now }
    ensures { (head : RequestHead) → IsPartsOf bytes.now parts head
        → IfOk result (λ request. request
        ≡ request_of head (take parts.body (drop parts.size bytes.now))) }
{
    let method = method_of(alloc, parts.method.of(bytes))?;
    let (path, query) = divided(parts.target.of(bytes));
    let path = Text::copy_of(alloc, path)?;
    let query = parameters(alloc, query)?;
    let body = Text::copy_of(alloc, &bytes[parts.size..parts.size + parts.body])?;
    Ok(Request {
        method,
        path,
        query,
        body,
        close: parts.close,
    })
}
