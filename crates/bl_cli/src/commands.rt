// The words of a command.
ghost use Rattle.std.specs.Prelude.{◌≡◌, map, string_bytes, IfOk, IfSome, MatchOption};
ghost use Rattle.bl_feed.specs.LoadBodies.{id_in};
ghost use Rattle.bl_cli.specs.Commands.{AskForNothing, AsksFor, IsCommand, IsLook};
ghost use Rattle.bl_cli.specs.Reading.{is_help, look_in, page_shown, script_in, status_in, turns_in};

use crate::command::{Command, Look};
use crate::stream_words::page_in;
use crate::words::{is_word, read_load};
use bl_feed::{read_id, read_number};
use bl_outside::NoMemory;
use std::alloc::Global;

fn id_in(text: &[u8]) -> u128
    ensures { result ≡ id_in text.now }
{
    read_id(text).unwrap_or(0)
}

// What `status` shows with these words behind it.
fn status_in(words: &[String]) -> Option<Look>
    ensures value { result ≡ status_in (map string_bytes words.now) }
    ensures valid { IfSome result IsLook }
{
    match words {
        [] => Some(Look::Loads),
        [id] => Some(Look::Load(id_in(id.as_bytes()))),
        [_, _, ..] => None,
    }
}

// What `stream` shows with these words behind it.
fn stream_in(words: &[String]) -> Option<Look>
    ensures value { result ≡ page_shown (map string_bytes words.now) }
    ensures valid { IfSome result IsLook }
{
    match page_in(words) {
        Some(ask) => Some(Look::Page(ask)),
        None => None,
    }
}

// What of a store is to be shown.
fn look_in(words: &[String]) -> Option<Look>
    ensures value { result ≡ look_in (map string_bytes words.now) }
    ensures valid { IfSome result IsLook }
{
    match words {
        [] => None,
        [word, rest @ ..] => {
            if is_word(word.as_str(), "status") {
                status_in(rest)
            } else if is_word(word.as_str(), "stream") {
                stream_in(rest)
            } else {
                None
            }
        }
    }
}

// How many turns `script` makes behind each reply, with these words behind it.
fn turns_in(words: &[String]) -> Option<u64>
    ensures { result ≡ turns_in (map string_bytes words.now) }
{
    match words {
        [] => Some(1),
        [name, turns] => {
            if is_word(name.as_str(), "--turns") {
                read_number(turns.as_bytes(), 0, 1000)
            } else {
                None
            }
        }
        [_] | [_, _, _, ..] => None,
    }
}

// The turns behind each reply of a script.
fn script_in(words: &[String]) -> Option<u64>
    ensures { result ≡ script_in (map string_bytes words.now) }
{
    match words {
        [] => None,
        [word, rest @ ..] => {
            if is_word(word.as_str(), "script") {
                turns_in(rest)
            } else {
                None
            }
        }
    }
}

fn is_help(words: &[String]) -> bool
    ensures { result ≡ is_help (map string_bytes words.now) }
{
    match words {
        [word] => is_word(word.as_str(), "help"),
        _ => false,
    }
}

/// What the words behind ROOT and STORE ask for. None where they are outside the grammar.
pub fn read_words(alloc: Global, words: &[String]) -> Result<Option<Command>, NoMemory>
    ensures asked { IfOk result (λ asked. MatchOption asked
        (AskForNothing (map string_bytes words.now))
        (AsksFor (map string_bytes words.now))) }
    ensures valid { IfOk result (λ asked. IfSome asked IsCommand) }
{
    if is_help(words) {
        return Ok(Some(Command::Help));
    }
    if let Some(look) = look_in(words) {
        return Ok(Some(Command::Show(look)));
    }
    if let Some(turns) = script_in(words) {
        return Ok(Some(Command::Script(turns)));
    }
    match read_load(alloc, words)? {
        Some(load) => Ok(Some(Command::Load(load))),
        None => Ok(None),
    }
}
