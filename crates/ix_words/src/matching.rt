//! Options and positionals of one command, by `clap`.
ghost use Rattle.std.specs.Prelude.{◌≡◌, ◌<◌, IfOk, false, drop, map, length, string_bytes};
ghost use Rattle.clap.specs.Walk.{rule_of};
ghost use Rattle.ix_words.specs.Clap.{Reads, option_named, raw_option, raw_words};
ghost use Rattle.ix_words.specs.Words.{are_fit, is_fit, knows, words_id};

use clap::error::ErrorKind;
use clap::{Arg, ArgAction, ArgMatches};
use std::alloc::{AllocError, Global};

/// Whether the word isn't empty, and isn't `-` alone or a bundle of short options.
fn is_word_fit(word: &str) -> bool
    ensures { result ≡ is_fit word.now }
{
    let bytes = word.as_bytes();
    bytes.len() > 0 && (bytes[0] != b'-' || (bytes.len() > 2 && bytes[1] == b'-'))
}

/// Whether each word before `--` is.
fn are_words_fit(words: &[String]) -> bool
    ensures { result ≡ are_fit (map string_bytes words.now) }
{
    for word in words {
        if word.as_str() == "--" {
            return true;
        }
        if !is_word_fit(word.as_str()) {
            return false;
        }
    }
    true
}

/// The option of that name, which takes a value or none.
fn option<'a>(alloc: Global, name: &'a str, takes: bool) -> Arg<'a>
    ensures { record {
      rule : rule_of result ≡ raw_option (name.entry.now, takes);
      local : result.global ≡ false;
    } }
{
    let arg = Arg::new(alloc, name).long(name).action(ArgAction::Set);
    if takes { arg } else { arg.num_args(0) }
}

/// What takes the words that belong to no option.
fn positionals<'a>(alloc: Global) -> Arg<'a>
    ensures { record {
      rule : rule_of result ≡ raw_words;
      local : result.global ≡ false;
    } }
{
    Arg::new(alloc, "words").action(ArgAction::Append)
}

/// What `clap` makes of the words after the first, for a command of these options, each with whether it takes a value: none exactly where the
/// words are refused. The one error is want of memory.
pub(crate) fn matches_of<'a>(
    alloc: Global,
    options: &'a [(&'a str, bool)],
    words: &'a [String],
) -> Result<Option<ArgMatches<'a>>, AllocError>
    requires free { knows (map option_named options.now) words_id ≡ false }
    requires some { 0 < length words.now }
    ensures { IfOk result (Reads (map option_named options.entry.now) (drop 1 (map string_bytes words.entry.now))) }
{
    if !are_words_fit(&words[1..]) {
        return Ok(None);
    }
    let mut command = clap::Command::new(alloc, "indexcheck").disable_help_flag(true);
    for name in options {
        command = command.arg(option(alloc, name.0, name.1))?;
    }
    let command = command.arg(positionals(alloc))?;
    match command.try_get_matches_from(words) {
        Ok(matches) => Ok(Some(matches)),
        Err(error) => match error.kind() {
            ErrorKind::OutOfMemory => Err(AllocError),
            _ => Ok(None),
        },
    }
}
