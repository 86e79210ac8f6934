// The body of a request for a load.
ghost use Rattle.std.specs.Prelude.{◌≡◌, Some, IfOk, IfErr, IsSome};
ghost use Rattle.std.specs.Str.{IsUtf8};
ghost use Rattle.serde_json.specs.View.{view};
ghost use Rattle.bl_entry.specs.Valid.{IsRequest};
ghost use Rattle.bl_feed.specs.LoadBodies.{IsBody, Reads, ReadsOf, IsNoBody};

use crate::BodyRefusal;
use crate::load_members::{
    dependencies_at, format_at, mode_at, parallelism_at, source_at, truth_at,
};
use bl_files::LoadRequest;
use bl_outside::Text;
use serde_json::Value as Json;
use std::alloc::Global;

// The object that a body is.
fn object_in(alloc: Global, body: &Text) -> Result<Json, BodyRefusal>
    ensures ok { IfOk result (λ json. IsBody body.now (view json)) }
    ensures err { IfErr result (IsNoBody body.now) }
{
    let json = match Json::from_slice(alloc, body.as_slice()) {
        Ok(json) => json,
        Err(error) if error.is_memory() => return Err(BodyRefusal::NoMemory),
        Err(_) => return Err(BodyRefusal::NotAnObject),
    };
    if json.is_object() {
        Ok(json)
    } else {
        Err(BodyRefusal::NotAnObject)
    }
}

// The request of an object, or the first member that is refused.
fn request_in(alloc: Global, body: &Json) -> Result<LoadRequest, BodyRefusal>
    ensures reads { ReadsOf (view body.now) result }
    ensures valid { IfOk result IsRequest }
{
    let source = source_at(alloc, body)?.ok_or(BodyRefusal::Member(1))?;
    let format = format_at(body).ok_or(BodyRefusal::Member(2))?;
    let mode = mode_at(body).ok_or(BodyRefusal::Member(3))?;
    let fail_on_error = truth_at(body, "failOnError", true).ok_or(BodyRefusal::Member(4))?;
    let parallelism = parallelism_at(body).ok_or(BodyRefusal::Member(5))?;
    let update_single = truth_at(body, "updateSingleCardinalityProperties", false);
    let update_single = update_single.ok_or(BodyRefusal::Member(6))?;
    let queue = truth_at(body, "queueRequest", false).ok_or(BodyRefusal::Member(7))?;
    let dependencies = dependencies_at(alloc, body)?.ok_or(BodyRefusal::Member(8))?;
    Ok(LoadRequest {
        source,
        format,
        mode,
        fail_on_error,
        update_single,
        parallelism,
        queue,
        dependencies,
    })
}

/// The load that a body asks for. Of two equal members the last counts, and unknown members are
/// unused; null is a wrong form, also of a member with a default.
pub fn read_load(alloc: Global, body: &Text) -> Result<LoadRequest, BodyRefusal>
    ensures reads { Reads body.now result }
    ensures valid { IfOk result IsRequest }
{
    let object = object_in(alloc, body)?;
    request_in(alloc, &object)
}
