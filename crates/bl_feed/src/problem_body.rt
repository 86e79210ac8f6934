// The body of a refusal.
ghost use Rattle.std.specs.Prelude.{◌≡◌, IfOk};
ghost use Rattle.std.specs.Str.{IsUtf8};
ghost use Rattle.serde_json.specs.View.{view};
ghost use Rattle.bl_feed.specs.Bodies.{problem_data, problem_text, success_data};

use bl_outside::{NoMemory, Text};
use serde_json::{Value as Json, json};
use std::alloc::Global;

fn problem_value(alloc: Global, code: &str, message: &str) -> Result<Json, NoMemory>
    ensures { IfOk result (λ json. view json ≡ problem_data code.now message.now) }
{
    Ok(json!(in alloc; {"code": code, "detailedMessage": message})?)
}

/// The body of a refusal, with its code and what is to be said of it.
pub fn problem_json(alloc: Global, code: &str, message: &Text) -> Result<Text, NoMemory>
    requires { IsUtf8 message.now }
    ensures { IfOk result (λ text. text ≡ problem_text code.now message.now) }
{
    let value = problem_value(alloc, code, message.as_str())?;
    Ok(Text::from_vec(value.to_vec(alloc)?))
}

/// A body of success.
pub fn success_value(alloc: Global, payload: Json) -> Result<Json, NoMemory>
    ensures { IfOk result (λ json. view json ≡ success_data (view payload)) }
{
    Ok(json!(in alloc; {"payload": payload, "status": "200 OK"})?)
}
