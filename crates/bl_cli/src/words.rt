// The words of `load`.
ghost use Rattle.std.specs.Prelude.{
  ◌≡◌,
  [],
  ◌∷◌,
  map,
  option_map,
  string_bytes,
  IfOk,
  IfSome,
  MatchOption,
};
ghost use Rattle.bl_entry.specs.Valid.{IsRequest};
ghost use Rattle.bl_cli.specs.Options.{
  Reads,
  asked_by,
  begun,
  is_word,
  mode_begun,
  mode_named,
  option_named,
};
ghost use Rattle.bl_cli.specs.Words.{AskForNoLoad, AsksForLoad, IsPlain};

use crate::asked::Asked;
use crate::load_option::LoadOption;
use crate::options::Options;
use bl_files::{LoadRequest, Mode, kept_source};
use bl_outside::{List, NoMemory, Text};
use std::alloc::Global;

pub fn is_word(text: &str, word: &str) -> bool
    ensures { result ≡ is_word text.now word.now }
{
    text == word
}

fn mode_named(word: &str) -> Option<Mode>
    ensures { result ≡ mode_named word.now }
{
    if is_word(word, "NEW") {
        Some(Mode::New)
    } else if is_word(word, "RESUME") {
        Some(Mode::Resume)
    } else if is_word(word, "AUTO") {
        Some(Mode::Auto)
    } else {
        None
    }
}

// The option that is one word.
fn option_named(word: &str) -> Option<LoadOption>
    ensures { result ≡ option_named word.now }
{
    if is_word(word, "--keep-going") {
        Some(LoadOption::KeepGoing)
    } else if is_word(word, "--update-single") {
        Some(LoadOption::UpdateSingle)
    } else if is_word(word, "--changes") {
        Some(LoadOption::Changes)
    } else {
        None
    }
}

// The mode with which the words begin, and the words behind it.
fn begun_mode(words: &[String]) -> Option<(LoadOption, &[String])>
    ensures { option_map (λ found. (found.0, map string_bytes found.1.now)) result
        ≡ mode_begun (map string_bytes words.now) }
{
    match words {
        [] => None,
        [word, rest @ ..] => match mode_named(word.as_str()) {
            Some(mode) => Some((LoadOption::Mode(mode), rest)),
            None => None,
        },
    }
}

// The option with which the words begin, and the words behind it.
fn begun(words: &[String]) -> Option<(LoadOption, &[String])>
    ensures { option_map (λ found. (found.0, map string_bytes found.1.now)) result
        ≡ begun (map string_bytes words.now) }
{
    match words {
        [] => None,
        [word, rest @ ..] => match option_named(word.as_str()) {
            Some(option) => Some((option, rest)),
            None => {
                if is_word(word.as_str(), "--mode") {
                    begun_mode(rest)
                } else {
                    None
                }
            }
        },
    }
}

// What the options say, where each is given at most once.
fn read_options(words: &[String], given: Options) -> Option<Options>
    ensures { Reads (map string_bytes words.now) given result }
{
    if words.is_empty() {
        return Some(given);
    }
    let (option, rest) = begun(words)?;
    read_options(rest, given.with(option)?)
}

// What a load of the source asks for.
fn asked_by(alloc: Global, source: Text, options: Options) -> Asked
    ensures { result ≡ asked_by source options }
{
    Asked {
        request: LoadRequest {
            source,
            format: 0,
            mode: options.mode.unwrap_or(Mode::Auto),
            fail_on_error: !options.keep_going,
            update_single: options.update_single,
            parallelism: 2,
            queue: false,
            dependencies: List::new(alloc),
        },
        changes: options.changes,
    }
}

// The first word, and those behind it.
fn split(words: &[String]) -> Option<(&String, &[String])>
    ensures { MatchOption result (words.now ≡ []) (λ parts. words.now ≡ parts.0.now ∷ parts.1.now) }
{
    words.split_first()
}

/// The load that the words ask for, or none.
pub fn read_load(alloc: Global, words: &[String]) -> Result<Option<Asked>, NoMemory>
    ensures asked { IfOk result (λ asked. MatchOption asked
        (AskForNoLoad (map string_bytes words.now))
        (AsksForLoad (map string_bytes words.now))) }
    ensures valid { IfOk result (λ asked. IfSome asked (λ load. IsRequest load.request
        × IsPlain load.request)) }
{
    let Some((command, rest)) = split(words) else {
        return Ok(None);
    };
    let Some((source, options)) = split(rest) else {
        return Ok(None);
    };
    if !is_word(command.as_str(), "load") {
        return Ok(None);
    }
    let Some(options) = read_options(options, Options::none()) else {
        return Ok(None);
    };
    match kept_source(alloc, source.as_bytes())? {
        Some(source) => Ok(Some(asked_by(alloc, source, options))),
        None => Ok(None),
    }
}
