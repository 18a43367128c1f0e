ghost use Rattle.std.specs.Prelude.{map};
ghost use Rattle.er_words.specs.Values.{count_of, kind_of, number_below, seed_of};
ghost use Rattle.er_words.specs.declared.usage.UsageFault.TheVariants.{BadCount, BadKind, BadNumber, BadSeed};
ghost use Rattle.er_words.specs.Taken.{Ends, ReadsScore, Takes, TakesText};

use crate::values::{
    ExportKind, MAX_CONNECTIONS, count_of, kind_of, number_of, seed_of, small_number_of,
};
use er_event::Games;
use thiserror::Error;

/// Which word keeps words from being a line: the first that does. Places count from 0, the place of the subcommand's name.
#[derive(Clone, Copy, Debug, PartialEq, Eq, Error)]
pub enum UsageFault {
    /// There is no word, or the first one names no subcommand.
    #[error("the first word is no subcommand")]
    UnknownSubcommand,
    /// The word at this place begins with `-`.
    #[error("word {place} begins with `-`, which no word may")]
    LeadingDash { place: usize },
    /// There is no word at this place, and the subcommand takes one there.
    #[error("word {place} is missing")]
    TooFew { place: usize },
    /// The word at this place is more than the subcommand takes.
    #[error("word {place} is a word too many")]
    TooMany { place: usize },
    /// The word at this place isn't a number from 0 to `most`.
    #[error("word {place} is no whole number from 0 to {most}")]
    BadNumber { place: usize, most: u16 },
    /// The word at this place isn't 64 hexadecimal digits.
    #[error("word {place} is not 64 hexadecimal digits")]
    BadSeed { place: usize },
    /// The word at this place isn't a number of connections.
    #[error("word {place} is no whole number from 1 to {MAX_CONNECTIONS}")]
    BadCount { place: usize },
    /// The word at this place isn't a kind of list.
    #[error("word {place} is no kind of list: players or results")]
    BadKind { place: usize },
}

/// Returns the first word, which stands at this place of the line, and the words after it.
pub fn text<'a, 'b>(
    words: &'b [&'a str],
    place: usize,
) -> Result<(&'a str, &'b [&'a str]), UsageFault>
    ensures { TakesText place (map (λ word. word.now) words.now) result }
{
    let [word, rest @ ..] = words else {
        return Err(UsageFault::TooFew { place });
    };
    Ok((*word, rest))
}

/// Parses the first word as a number from 0 to 255.
pub fn small_number<'a, 'b>(
    words: &'b [&'a str],
    place: usize,
) -> Result<(u8, &'b [&'a str]), UsageFault>
    ensures { Takes (number_below 256) (BadNumber place 255) place
        (map (λ word. word.now) words.now) result }
{
    let (word, rest) = text(words, place)?;
    let number = small_number_of(word).ok_or(UsageFault::BadNumber {
        place,
        most: u16::from(u8::MAX),
    })?;
    Ok((number, rest))
}

/// Parses the first word as a number from 0 to 65,535.
pub fn number<'a, 'b>(
    words: &'b [&'a str],
    place: usize,
) -> Result<(u16, &'b [&'a str]), UsageFault>
    ensures { Takes (number_below 65536) (BadNumber place 65535) place
        (map (λ word. word.now) words.now) result }
{
    let (word, rest) = text(words, place)?;
    let number = number_of(word).ok_or(UsageFault::BadNumber {
        place,
        most: u16::MAX,
    })?;
    Ok((number, rest))
}

/// Parses the first word as a seed.
pub fn seed<'a, 'b>(
    words: &'b [&'a str],
    place: usize,
) -> Result<([u8; 32], &'b [&'a str]), UsageFault>
    ensures { Takes seed_of (BadSeed place) place (map (λ word. word.now) words.now) result }
{
    let (word, rest) = text(words, place)?;
    let seed = seed_of(word).ok_or(UsageFault::BadSeed { place })?;
    Ok((seed, rest))
}

/// Parses the first word as a number of connections.
pub fn count<'a, 'b>(words: &'b [&'a str], place: usize) -> Result<(u32, &'b [&'a str]), UsageFault>
    ensures { Takes count_of (BadCount place) place (map (λ word. word.now) words.now) result }
{
    let (word, rest) = text(words, place)?;
    let count = count_of(word).ok_or(UsageFault::BadCount { place })?;
    Ok((count, rest))
}

/// Parses the first word as a kind of list.
pub fn list_kind<'a, 'b>(
    words: &'b [&'a str],
    place: usize,
) -> Result<(ExportKind, &'b [&'a str]), UsageFault>
    ensures { Takes kind_of (BadKind place) place (map (λ word. word.now) words.now) result }
{
    let (word, rest) = text(words, place)?;
    let kind = kind_of(word).ok_or(UsageFault::BadKind { place })?;
    Ok((kind, rest))
}

/// Checks that there is no word at this place.
pub fn end(words: &[&str], place: usize) -> Result<(), UsageFault>
    ensures { Ends place (map (λ word. word.now) words.now) result }
{
    match words {
        [] => Ok(()),
        [_word, ..] => Err(UsageFault::TooMany { place }),
    }
}

/// Parses the last three words of a line as games: won by the player named first, won by the second, drawn.
pub fn score(words: &[&str]) -> Result<Games, UsageFault>
    ensures { ReadsScore (map (λ word. word.now) words.now) result }
{
    let (x, words) = small_number(words, 4)?;
    let (y, words) = small_number(words, 5)?;
    let (d, words) = small_number(words, 6)?;
    end(words, 7)?;
    Ok(Games { x, y, d })
}
