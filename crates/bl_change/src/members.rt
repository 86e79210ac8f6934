// Members of an object by their names.
ghost use Rattle.std.specs.Prelude.{◌≡◌, ◌≤◌, Some, MatchResult, FitsSigned, IfOk};
ghost use Rattle.std.specs.Int.{w64};
ghost use Rattle.serde_json.specs.Data.{boolean, number, unsigned, string};
ghost use Rattle.serde_json.specs.Find.{get, of_integer};
ghost use Rattle.serde_json.specs.View.{view};
ghost use Rattle.bl_value.specs.Valid.{IsId, IsKey};
ghost use Rattle.bl_change.specs.Found.{Finds, FindsNone};

use crate::EventRefusal;
use bl_outside::Text;
use bl_value::{ID_LIMIT, KEY_LIMIT};
use serde_json::Value as Json;
use std::alloc::Global;

/// The member of this name.
pub fn member_at<'a>(json: &'a Json, name: &str) -> Result<&'a Json, EventRefusal>
    ensures { MatchResult result
        (λ member. get name.now (view json.now) ≡ Some (view member.now))
        (FindsNone (λ member. get name.now (view json.now) ≡ Some member)) }
{
    json.get(name).ok_or(EventRefusal::NotAnEvent)
}

pub fn bool_at(json: &Json, name: &str) -> Result<bool, EventRefusal>
    ensures { Finds (λ truth. get name.now (view json.now) ≡ Some (boolean truth)) result }
{
    let Some(truth) = member_at(json, name)?.as_bool() else {
        return Err(EventRefusal::NotAnEvent);
    };
    Ok(truth)
}

pub fn number_at(json: &Json, name: &str) -> Result<u64, EventRefusal>
    ensures { Finds (λ n. get name.now (view json.now) ≡ Some (number (unsigned n))) result }
{
    let Some(number) = member_at(json, name)?.as_u64() else {
        return Err(EventRefusal::NotAnEvent);
    };
    Ok(number)
}

/// A number from 1.
pub fn ordinal_at(json: &Json, name: &str) -> Result<u64, EventRefusal>
    ensures valid { IfOk result (λ n. 1 ≤ n) }
    ensures found { Finds
        (λ n. (1 ≤ n) × (get name.now (view json.now) ≡ Some (number (unsigned n)))) result }
{
    let number = number_at(json, name)?;
    if number == 0 {
        return Err(EventRefusal::NotAnEvent);
    }
    Ok(number)
}

pub fn integer_at(json: &Json, name: &str) -> Result<i64, EventRefusal>
    ensures { Finds
        (λ n. FitsSigned w64 n × (get name.now (view json.now) ≡ Some (number (of_integer n))))
        result }
{
    let Some(integer) = member_at(json, name)?.as_i64() else {
        return Err(EventRefusal::NotAnEvent);
    };
    Ok(integer)
}

pub fn text_at<'a>(json: &'a Json, name: &str) -> Result<&'a str, EventRefusal>
    ensures { MatchResult result
        (λ text. get name.now (view json.now) ≡ Some (string text.now))
        (FindsNone (λ text. get name.now (view json.now) ≡ Some (string text))) }
{
    let Some(text) = member_at(json, name)?.as_str() else {
        return Err(EventRefusal::NotAnEvent);
    };
    Ok(text)
}

/// An id or a label, of 1 byte or more.
pub fn id_at(alloc: Global, json: &Json, name: &str) -> Result<Text, EventRefusal>
    ensures valid { IfOk result IsId }
    ensures found { Finds
        (λ id. IsId id × (get name.now (view json.now) ≡ Some (string id))) result }
{
    let id = text_at(json, name)?;
    if id.is_empty() || id.len() > ID_LIMIT {
        return Err(EventRefusal::NotAnEvent);
    }
    Ok(Text::copy_of(alloc, id.as_bytes())?)
}

/// A property's key, of 1 byte or more.
pub fn key_at(alloc: Global, json: &Json, name: &str) -> Result<Text, EventRefusal>
    ensures valid { IfOk result IsKey }
    ensures found { Finds
        (λ key. IsKey key × (get name.now (view json.now) ≡ Some (string key))) result }
{
    let key = text_at(json, name)?;
    if key.is_empty() || key.len() > KEY_LIMIT {
        return Err(EventRefusal::NotAnEvent);
    }
    Ok(Text::copy_of(alloc, key.as_bytes())?)
}
