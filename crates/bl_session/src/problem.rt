// Why a request is refused.
ghost use Rattle.std.specs.Prelude.{◌≡◌, ◌++◌, IfOk};
ghost use Rattle.std.specs.Option.{option_copied};
ghost use Rattle.std.specs.Str.{IsUtf8};
ghost use Rattle.bl_session.specs.Problems.{
  allow_of,
  code_of,
  head_code,
  head_message,
  head_status,
  member_name,
  message_of,
  status_of,
};

use crate::parameter::Parameter;
use crate::route::Route;
use bl_feed::{id_text, job_status_text};
use bl_http::HeadRefusal;
use bl_outside::{NoMemory, Text};
use bl_queue::JobStatus;
use std::alloc::Global;

/// Why a request is refused, in the order in which it is looked at.
#[derive(Clone, Copy, Debug, PartialEq, Eq)]
pub enum Problem {
    Head(HeadRefusal),
    NoRoute,
    MethodNotAllowed(Route),
    NotAnObject,
    /// The member of a load body of this number, from 1.
    BadMember(u8),
    BadParameter(Parameter),
    TooManyDependencies,
    /// The dependency at this place, from 1.
    UnknownDependency(u32),
    /// The load of this id hasn't ended.
    LoadBusy(u128),
    QueueFull,
    NumbersUsedUp,
    UnknownLoad,
    LoadEnded(JobStatus),
    NoRecords,
    JournalFull,
    StoreFault,
    /// The store is damaged at this place.
    BadStore(u64),
}

fn head_status(refusal: HeadRefusal) -> u16
    ensures { result ≡ head_status refusal }
{
    match refusal {
        HeadRefusal::BadHead | HeadRefusal::BadLength => 400,
        HeadRefusal::HeadTooLarge => 431,
        HeadRefusal::BodyTooLarge => 413,
        HeadRefusal::TransferEncoding => 501,
    }
}

fn head_code(refusal: HeadRefusal) -> &'static str
    ensures { result.now ≡ head_code refusal }
{
    match refusal {
        HeadRefusal::BadHead => "BadHead",
        HeadRefusal::HeadTooLarge => "HeadTooLarge",
        HeadRefusal::BadLength => "BadLength",
        HeadRefusal::BodyTooLarge => "BodyTooLarge",
        HeadRefusal::TransferEncoding => "TransferEncoding",
    }
}

fn head_message(refusal: HeadRefusal) -> &'static str
    ensures { result.now ≡ head_message refusal }
{
    match refusal {
        HeadRefusal::BadHead => "the request head can not be read",
        HeadRefusal::HeadTooLarge => "the request head is too large",
        HeadRefusal::BadLength => "content-length is not one number",
        HeadRefusal::BodyTooLarge => "the body has more than 1048576 bytes",
        HeadRefusal::TransferEncoding => "transfer-encoding is not supported",
    }
}

// The member of a load body of this number.
fn member_name(number: u8) -> &'static str
    ensures { result.now ≡ member_name number }
{
    match number {
        1 => "source",
        2 => "format",
        3 => "mode",
        4 => "failOnError",
        5 => "parallelism",
        6 => "updateSingleCardinalityProperties",
        7 => "queueRequest",
        _ => "dependencies",
    }
}

// Three texts, one behind the other.
fn joined(alloc: Global, front: &str, middle: &str, end: &str) -> Result<Text, NoMemory>
    ensures text { IfOk result (λ text. text ≡ front.now ++ middle.now ++ end.now) }
    ensures utf8 { IfOk result IsUtf8 }
{
    let text = format!(in alloc; "{front}{middle}{end}")?;
    Text::of_str(alloc, text.as_str())
}

fn busy_message(alloc: Global, id: u128) -> Result<Text, NoMemory>
    ensures text { IfOk result (λ text. text ≡ message_of (Problem.LoadBusy id)) }
    ensures utf8 { IfOk result IsUtf8 }
{
    let id = id_text(alloc, id)?;
    joined(alloc, "load ", id.as_str(), " has not ended")
}

fn dependency_message(alloc: Global, place: u32) -> Result<Text, NoMemory>
    ensures text { IfOk result (λ text. text ≡ message_of (Problem.UnknownDependency place)) }
    ensures utf8 { IfOk result IsUtf8 }
{
    let text = format!(in alloc; "dependency {place} is not a kept load")?;
    Text::of_str(alloc, text.as_str())
}

fn damage_message(alloc: Global, place: u64) -> Result<Text, NoMemory>
    ensures text { IfOk result (λ text. text ≡ message_of (Problem.BadStore place)) }
    ensures utf8 { IfOk result IsUtf8 }
{
    let text = format!(in alloc; "the store is damaged at {place}")?;
    Text::of_str(alloc, text.as_str())
}

impl Problem {
    /// The status of its reply.
    pub fn status(self) -> u16
        ensures { result ≡ status_of self }
    {
        match self {
            Problem::Head(refusal) => head_status(refusal),
            Problem::NoRoute | Problem::NoRecords => 404,
            Problem::MethodNotAllowed(_) => 405,
            Problem::NotAnObject
            | Problem::BadMember(_)
            | Problem::BadParameter(_)
            | Problem::TooManyDependencies
            | Problem::UnknownDependency(_)
            | Problem::LoadBusy(_)
            | Problem::QueueFull
            | Problem::UnknownLoad
            | Problem::LoadEnded(_) => 400,
            Problem::NumbersUsedUp
            | Problem::JournalFull
            | Problem::StoreFault
            | Problem::BadStore(_) => 500,
        }
    }

    /// Its code in the body of its reply.
    pub fn code(self) -> &'static str
        ensures { result.now ≡ code_of self }
    {
        match self {
            Problem::Head(refusal) => head_code(refusal),
            Problem::NoRoute => "NoRoute",
            Problem::MethodNotAllowed(_) => "MethodNotAllowed",
            Problem::NotAnObject | Problem::BadMember(_) => "BadBody",
            Problem::BadParameter(_) => "InvalidParameterException",
            Problem::TooManyDependencies => "TooManyDependencies",
            Problem::UnknownDependency(_) => "UnknownDependency",
            Problem::LoadBusy(_) => "LoadBusy",
            Problem::QueueFull => "QueueFull",
            Problem::NumbersUsedUp => "NumbersUsedUp",
            Problem::UnknownLoad => "UnknownLoad",
            Problem::LoadEnded(_) => "LoadEnded",
            Problem::NoRecords => "StreamRecordsNotFoundException",
            Problem::JournalFull => "JournalFull",
            Problem::StoreFault => "StoreFault",
            Problem::BadStore(_) => "BadStore",
        }
    }

    /// What its reply says of it.
    pub fn message(self, alloc: Global) -> Result<Text, NoMemory>
        ensures text { IfOk result (λ text. text ≡ message_of self) }
        ensures utf8 { IfOk result IsUtf8 }
    {
        match self {
            Problem::Head(refusal) => Text::of_str(alloc, head_message(refusal)),
            Problem::NoRoute => Text::of_str(alloc, "no such path"),
            Problem::MethodNotAllowed(_) => Text::of_str(alloc, "no such method on this path"),
            Problem::NotAnObject => Text::of_str(alloc, "not a JSON object"),
            Problem::BadMember(number) => joined(alloc, "member ", member_name(number), ""),
            Problem::BadParameter(parameter) => joined(alloc, "parameter ", parameter.name(), ""),
            Problem::TooManyDependencies => Text::of_str(alloc, "more than 64 dependencies"),
            Problem::UnknownDependency(place) => dependency_message(alloc, place),
            Problem::LoadBusy(id) => busy_message(alloc, id),
            Problem::QueueFull => Text::of_str(alloc, "64 loads are queued"),
            Problem::NumbersUsedUp => Text::of_str(alloc, "no load number is left"),
            Problem::UnknownLoad => Text::of_str(alloc, "no kept load has this id"),
            Problem::LoadEnded(status) => {
                joined(alloc, "the load has ended as ", job_status_text(status), "")
            }
            Problem::NoRecords => Text::of_str(alloc, "no record at the place asked for"),
            Problem::JournalFull => Text::of_str(alloc, "the journal is full"),
            Problem::StoreFault => Text::of_str(alloc, "the store failed"),
            Problem::BadStore(place) => damage_message(alloc, place),
        }
    }

    /// The methods that the path has, where the request's isn't one of them.
    pub fn allow(self) -> Option<&'static str>
        ensures { option_copied result ≡ allow_of self }
    {
        match self {
            Problem::MethodNotAllowed(route) => Some(route.methods()),
            _ => None,
        }
    }
}
