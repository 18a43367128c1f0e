ghost use Rattle.std.specs.Prelude.{◌≡◌, ◌≢◌, IfOk, IsOk, None, map, option_map, string_bytes};
ghost use Rattle.std.specs.List.{position};
ghost use Rattle.clap.specs.Words.{app_of, found_of, kind_of, rows_of};
ghost use Rattle.er_words.specs.Line.{is_option, split_of};
ghost use Rattle.er_words.specs.inside.Words.{program, words_in};

use clap::error::ErrorKind;
use clap::{Arg, ArgMatches, Command, Error};
use std::alloc::{AllocError, Global};
use std::convert::AsStr;

/// Whether a word asks for an option. No subcommand takes one.
fn is_option(word: &str) -> bool
    ensures { result ≡ is_option word.now }
{
    word.starts_with('-')
}

/// The place of the first word that asks for an option.
pub fn option_at<S: AsStr>(words: &[S]) -> Option<usize>
    ensures { result ≡ position is_option (map S.text words.now) }
{
    words.iter().position(|word| is_option(word.as_str()))
}

/// A parser that knows only this subcommand, since one of all seventeen takes most of a line's time. It takes any number of words, which
/// are counted and read elsewhere.
fn command<'a>(alloc: Global, name: &'a str) -> Result<Command<'a>, AllocError>
    ensures { IfOk result (λ made. app_of made ≡ program name.entry.now) }
{
    let words = Arg::new(alloc, "words").num_args(0..);
    let leaf = Command::new(alloc, name).arg(words)?;
    Command::new(alloc, "event_reporter")
        .no_binary_name(true)
        .disable_help_flag(true)
        .disable_help_subcommand(true)
        .subcommand(leaf)
}

/// Passes on that the parser ran out of memory.
fn want_of_memory(error: Error) -> Result<(), AllocError>
    ensures { IsOk result → kind_of error ≢ ErrorKind.OutOfMemory }
{
    match error.kind() {
        ErrorKind::OutOfMemory => Err(AllocError),
        _ => Ok(()),
    }
}

/// The words after the subcommand's name.
fn words_of<'a>(alloc: Global, matches: &ArgMatches<'a>) -> Result<Vec<&'a str>, AllocError>
    ensures { IfOk result (λ words. map (λ word. word.now) words.items
        ≡ words_in (rows_of (found_of matches.now))) }
{
    match matches.get_strs("words") {
        Some(words) => Vec::from_slice(alloc, words),
        None => Ok(Vec::new(alloc)),
    }
}

/// The first word, and the words after it.
pub fn split_words<'a>(
    alloc: Global,
    words: &'a [String],
) -> Result<Option<(&'a str, Vec<&'a str>)>, AllocError>
    requires { position is_option (map string_bytes words.now) ≡ None }
    ensures { IfOk result (λ found. option_map
        (λ split. (split.0.now, map (λ word. word.now) split.1.items)) found
        ≡ split_of (map string_bytes words.entry.now)) }
{
    let Some(first) = words.first() else {
        return Ok(None);
    };
    let name = first.as_str();
    let matches = match command(alloc, name)?.try_get_matches_from(words) {
        Ok(matches) => matches,
        Err(error) => {
            want_of_memory(error)?;
            return Ok(None);
        }
    };
    match matches.subcommand() {
        Some((_name, inner)) => Ok(Some((name, words_of(alloc, inner)?))),
        None => Ok(None),
    }
}
