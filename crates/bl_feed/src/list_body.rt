// The body of a list of loads.
ghost use Rattle.std.specs.Prelude.{◌≡◌, IfOk, map};
ghost use Rattle.serde_json.specs.Data.{string};
ghost use Rattle.serde_json.specs.View.{view};
ghost use Rattle.bl_feed.specs.Bodies.{id_text, ids_data, list_text, success_data};

use crate::load_id::id_json;
use crate::problem_body::success_value;
use bl_outside::{List, NoMemory, Text};
use serde_json::{Value as Json, json};
use std::alloc::Global;

// The texts of ids.
fn id_values(alloc: Global, ids: &[u128]) -> Result<Vec<Json>, NoMemory>
    ensures { IfOk result (λ values. map view values.items ≡ map (λ id. string (id_text id)) ids.now) }
{
    let mut values = Vec::new(alloc);
    for id in ids {
        values.push(id_json(alloc, *id)?)?;
    }
    Ok(values)
}

fn ids_value(alloc: Global, ids: &List<u128>) -> Result<Json, NoMemory>
    ensures { IfOk result (λ json. view json ≡ ids_data ids.now) }
{
    let ids = Json::Array(id_values(alloc, ids.as_slice())?);
    Ok(json!(in alloc; {"loadIds": ids})?)
}

fn list_value(alloc: Global, ids: &List<u128>) -> Result<Json, NoMemory>
    ensures { IfOk result (λ json. view json ≡ success_data (ids_data ids.now)) }
{
    let payload = ids_value(alloc, ids)?;
    success_value(alloc, payload)
}

/// The body of a list of loads, by their ids.
pub fn list_json(alloc: Global, ids: &List<u128>) -> Result<Text, NoMemory>
    ensures { IfOk result (λ text. text ≡ list_text ids.now) }
{
    let value = list_value(alloc, ids)?;
    Ok(Text::from_vec(value.to_vec(alloc)?))
}
