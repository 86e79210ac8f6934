// The parts of an entry, written at the end of a text.
ghost use Rattle.std.specs.Prelude.{◌≡◌, ◌++◌, ◌<◌, ◌^◌, length, OnOk};
ghost use Rattle.bl_entry.specs.Encoding.{
  change_bytes,
  code_bytes,
  end_bytes,
  found_bytes,
  kind_bytes,
  log_bytes,
  mode_bytes,
  plan_bytes,
  request_bytes,
  side_bytes,
  text_bytes,
  truth_bytes,
  u128_bytes,
  u32_bytes,
  u64_bytes,
  value_bytes,
};
ghost use Rattle.bl_value.specs.Valid.{IsChange, IsValue};
ghost use Rattle.bl_entry.specs.Valid.{IsEnd, IsFound, IsKind, IsLog, IsPlan, IsRequest};

use crate::buffer::Buffer;
use crate::code_number;
use crate::part::write_list;
use bl_files::{FeedEnd, FeedKind, Found, LoadRequest, Log, Mode, PlanResult};
use bl_outside::{NoMemory, Text};
use bl_value::{Change, LogCode, Side, Value};

pub fn write_u32(out: &mut Buffer, number: u32) -> Result<(), NoMemory>
    ensures { OnOk result (out.new ≡ out.old ++ u32_bytes number) }
{
    out.extend(&number.to_be_bytes())
}

pub fn write_u64(out: &mut Buffer, number: u64) -> Result<(), NoMemory>
    ensures { OnOk result (out.new ≡ out.old ++ u64_bytes number) }
{
    out.extend(&number.to_be_bytes())
}

#[tactic(auto, using(crate::proofs::Appends::joined))]
pub fn write_u128(out: &mut Buffer, number: u128) -> Result<(), NoMemory>
    ensures { OnOk result (out.new ≡ out.old ++ u128_bytes number) }
{
    write_u64(out, (number / 18446744073709551616) as u64)?;
    write_u64(out, (number % 18446744073709551616) as u64)
}

fn write_truth(out: &mut Buffer, truth: bool) -> Result<(), NoMemory>
    ensures { OnOk result (out.new ≡ out.old ++ truth_bytes truth) }
{
    out.push(if truth { 1 } else { 0 })
}

#[tactic(auto, using(crate::proofs::Appends::joined))]
fn write_text(out: &mut Buffer, text: &Text) -> Result<(), NoMemory>
    requires { length text.now < 2 ^ 32 }
    ensures { OnOk result (out.new ≡ out.old ++ text_bytes text.now) }
{
    write_u32(out, text.len() as u32)?;
    out.extend(text.as_slice())
}

fn write_code(out: &mut Buffer, code: LogCode) -> Result<(), NoMemory>
    ensures { OnOk result (out.new ≡ out.old ++ code_bytes code) }
{
    out.push(code_number(code))
}

#[tactic(auto, using(crate::proofs::Appends::joined))]
pub fn write_log(out: &mut Buffer, log: &Log) -> Result<(), NoMemory>
    ensures { OnOk result (out.new ≡ out.old ++ log_bytes log.now) }
{
    write_code(out, log.code)?;
    write_u64(out, log.number)?;
    write_u32(out, log.column)
}

fn write_side(out: &mut Buffer, side: Side) -> Result<(), NoMemory>
    ensures { OnOk result (out.new ≡ out.old ++ side_bytes side) }
{
    match side {
        Side::Vertex => out.push(0),
        Side::Edge => out.push(1),
    }
}

#[tactic(auto, using(crate::proofs::Appends::joined))]
fn write_value(out: &mut Buffer, value: &Value) -> Result<(), NoMemory>
    requires { IsValue value.now }
    ensures { OnOk result (out.new ≡ out.old ++ value_bytes value.now) }
{
    match value {
        Value::Bool(truth) => {
            out.push(1)?;
            write_truth(out, *truth)
        }
        Value::Byte(number) => {
            out.push(2)?;
            out.extend(&number.to_be_bytes())
        }
        Value::Short(number) => {
            out.push(3)?;
            out.extend(&number.to_be_bytes())
        }
        Value::Int(number) => {
            out.push(4)?;
            out.extend(&number.to_be_bytes())
        }
        Value::Long(number) => {
            out.push(5)?;
            out.extend(&number.to_be_bytes())
        }
        Value::Str(text) => {
            out.push(6)?;
            write_text(out, text)
        }
        Value::Date(seconds) => {
            out.push(7)?;
            out.extend(&seconds.to_be_bytes())
        }
    }
}

#[tactic(auto, using(crate::proofs::Appends::joined))]
pub fn write_change(out: &mut Buffer, change: &Change) -> Result<(), NoMemory>
    requires { IsChange change.now }
    ensures { OnOk result (out.new ≡ out.old ++ change_bytes change.now) }
{
    match change {
        Change::AddLabel { id, label } => {
            out.push(1)?;
            write_text(out, id)?;
            write_text(out, label)
        }
        Change::AddEdge {
            id,
            label,
            from,
            to,
        } => {
            out.push(2)?;
            write_text(out, id)?;
            write_text(out, label)?;
            write_text(out, from)?;
            write_text(out, to)
        }
        Change::AddValue {
            side,
            id,
            key,
            value,
        } => {
            out.push(3)?;
            write_property(out, *side, id, key, value)
        }
        Change::RemoveValue {
            side,
            id,
            key,
            value,
        } => {
            out.push(4)?;
            write_property(out, *side, id, key, value)
        }
    }
}

#[tactic(auto, using(crate::proofs::Appends::joined))]
fn write_property(
    out: &mut Buffer,
    side: Side,
    id: &Text,
    key: &Text,
    value: &Value,
) -> Result<(), NoMemory>
    requires id { length id.now < 2 ^ 32 }
    requires key { length key.now < 2 ^ 32 }
    requires value { IsValue value.now }
    ensures { OnOk result
        (out.new ≡ out.old
        ++ (side_bytes side
        ++ (text_bytes id.now ++ (text_bytes key.now ++ value_bytes value.now)))) }
{
    write_side(out, side)?;
    write_text(out, id)?;
    write_text(out, key)?;
    write_value(out, value)
}

#[tactic(auto, using(crate::proofs::Appends::joined))]
fn write_kind(out: &mut Buffer, kind: FeedKind) -> Result<(), NoMemory>
    ensures { OnOk result (out.new ≡ out.old ++ kind_bytes kind) }
{
    match kind {
        FeedKind::Vertex => out.push(0),
        FeedKind::Edge => out.push(1),
        FeedKind::Refused(code, column) => {
            out.push(2)?;
            write_code(out, code)?;
            write_u32(out, column)
        }
    }
}

#[tactic(auto, using(crate::proofs::Appends::joined))]
pub fn write_found(out: &mut Buffer, found: &Found) -> Result<(), NoMemory>
    requires { IsFound found.now }
    ensures { OnOk result (out.new ≡ out.old ++ found_bytes found.now) }
{
    write_text(out, &found.name)?;
    write_kind(out, found.kind)?;
    out.extend(&found.digest.bytes)
}

#[tactic(auto, using(crate::proofs::Appends::joined))]
pub fn write_plan(out: &mut Buffer, plan: &PlanResult) -> Result<(), NoMemory>
    requires { IsPlan plan.now }
    ensures { OnOk result (out.new ≡ out.old ++ plan_bytes plan.now) }
{
    match plan {
        PlanResult::Feeds(found) => {
            out.push(0)?;
            write_list(out, found)
        }
        PlanResult::NoPrevious => out.push(1),
        PlanResult::SourceNotFound => out.push(2),
        PlanResult::ListFault => out.push(3),
        PlanResult::TooManyFiles(number) => {
            out.push(4)?;
            write_u64(out, *number)
        }
    }
}

#[tactic(auto, using(crate::proofs::Appends::joined))]
pub fn write_end(out: &mut Buffer, end: FeedEnd) -> Result<(), NoMemory>
    ensures { OnOk result (out.new ≡ out.old ++ end_bytes end) }
{
    match end {
        FeedEnd::Completed => out.push(0),
        FeedEnd::Stopped(log) => {
            out.push(1)?;
            write_log(out, &log)
        }
        FeedEnd::ReadError => out.push(2),
        FeedEnd::Modified => out.push(3),
    }
}

fn write_mode(out: &mut Buffer, mode: Mode) -> Result<(), NoMemory>
    ensures { OnOk result (out.new ≡ out.old ++ mode_bytes mode) }
{
    match mode {
        Mode::New => out.push(0),
        Mode::Resume => out.push(1),
        Mode::Auto => out.push(2),
    }
}

#[tactic(auto, using(crate::proofs::Appends::joined))]
pub fn write_request(out: &mut Buffer, request: &LoadRequest) -> Result<(), NoMemory>
    requires { IsRequest request.now }
    ensures { OnOk result (out.new ≡ out.old ++ request_bytes request.now) }
{
    write_text(out, &request.source)?;
    out.push(request.format)?;
    write_mode(out, request.mode)?;
    write_truth(out, request.fail_on_error)?;
    write_truth(out, request.update_single)?;
    out.push(request.parallelism)?;
    write_truth(out, request.queue)?;
    write_list(out, &request.dependencies)
}
