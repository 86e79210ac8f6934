// The options of `stream`.
ghost use Rattle.std.specs.Prelude.{◌≡◌, ◌≤◌, IfSome, map, string_bytes};
ghost use Rattle.std.specs.Option.{option_copied};
ghost use Rattle.bl_cli.specs.Commands.{option_name};
ghost use Rattle.bl_cli.specs.Reading.{
  are_options,
  is_new,
  page_in,
  parameter_named,
  value_in,
};

use crate::words::is_word;
use bl_feed::{StreamParameter, read_page_ask};
use bl_stream::PageAsk;

fn option_name(parameter: StreamParameter) -> &'static str
    ensures { result.now ≡ option_name parameter }
{
    match parameter {
        StreamParameter::Limit => "--limit",
        StreamParameter::IteratorType => "--type",
        StreamParameter::CommitNum => "--commit",
        StreamParameter::OpNum => "--op",
    }
}

fn parameter_named(word: &str) -> Option<StreamParameter>
    ensures { result ≡ parameter_named word.now }
{
    if is_word(word, "--limit") {
        Some(StreamParameter::Limit)
    } else if is_word(word, "--type") {
        Some(StreamParameter::IteratorType)
    } else if is_word(word, "--commit") {
        Some(StreamParameter::CommitNum)
    } else if is_word(word, "--op") {
        Some(StreamParameter::OpNum)
    } else {
        None
    }
}

// The value of an option, where it is given.
fn value_in(parameter: StreamParameter, words: &[String]) -> Option<&[u8]>
    ensures { option_copied result ≡ value_in parameter (map string_bytes words.now) }
{
    match words {
        [] | [_] => None,
        [name, value, rest @ ..] => {
            if is_word(name.as_str(), option_name(parameter)) {
                Some(value.as_bytes())
            } else {
                value_in(parameter, rest)
            }
        }
    }
}

// The word names an option that isn't among others.
fn is_new(word: &str, others: &[String]) -> bool
    ensures { result ≡ is_new word.now (map string_bytes others.now) }
{
    match parameter_named(word) {
        Some(parameter) => value_in(parameter, others).is_none(),
        None => false,
    }
}

// The words are options with a value each, none of which is given twice.
fn are_options(words: &[String]) -> bool
    ensures { result ≡ are_options (map string_bytes words.now) }
{
    match words {
        [] => true,
        [_] => false,
        [name, _, rest @ ..] => is_new(name.as_str(), rest) && are_options(rest),
    }
}

/// The page that the options ask for. None where they are outside the grammar.
pub fn page_in(words: &[String]) -> Option<PageAsk>
    ensures value { result ≡ page_in (map string_bytes words.now) }
    ensures limit { IfSome result (λ ask. (1 ≤ ask.limit) × (ask.limit ≤ 100000)) }
{
    if !are_options(words) {
        return None;
    }
    let asked = read_page_ask(
        value_in(StreamParameter::Limit, words),
        value_in(StreamParameter::IteratorType, words),
        value_in(StreamParameter::CommitNum, words),
        value_in(StreamParameter::OpNum, words),
    );
    match asked {
        Ok(ask) => Some(ask),
        Err(_) => None,
    }
}
