// Bodies of success of requests that change the list of loads.
ghost use Rattle.std.specs.Prelude.{◌≡◌, IfOk, codes};
ghost use Rattle.serde_json.specs.Data.{member, no_members, object, string};
ghost use Rattle.serde_json.specs.View.{view};
ghost use Rattle.bl_feed.specs.Bodies.{
  cancelled_text,
  id_text,
  submitted_text,
  success_data,
};

use crate::load_id::id_json;
use crate::problem_body::success_value;
use bl_outside::{NoMemory, Text};
use serde_json::{Value as Json, json};
use std::alloc::Global;

fn submitted_value(alloc: Global, id: u128) -> Result<Json, NoMemory>
    ensures { IfOk result (λ json. view json ≡ success_data
        (object (member (codes "loadId") (string (id_text id)) no_members))) }
{
    let id = id_json(alloc, id)?;
    success_value(alloc, json!(in alloc; {"loadId": id})?)
}

/// The body of a load that was taken on, with its id.
pub fn submitted_json(alloc: Global, id: u128) -> Result<Text, NoMemory>
    ensures { IfOk result (λ text. text ≡ submitted_text id) }
{
    let value = submitted_value(alloc, id)?;
    Ok(Text::from_vec(value.to_vec(alloc)?))
}

/// The body of a load that was cancelled.
pub fn cancelled_json(alloc: Global) -> Result<Text, NoMemory>
    ensures { IfOk result (λ text. text ≡ cancelled_text) }
{
    Text::of_str(alloc, "{\"status\":\"200 OK\"}")
}
