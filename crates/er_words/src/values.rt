ghost use Rattle.std.specs.Prelude.{◌≡◌, IfOk};
ghost use Rattle.std.specs.List.{list_all};
ghost use Rattle.std.specs.Char.{is_ascii_digit};
ghost use Rattle.er_words.specs.Values.{kind_of, number_below, count_of, seed_of};

use er_event::Items;
use hex::FromHex;
use std::alloc::{AllocError, Global};

/// Which list is given as CSV.
#[derive(Clone, Copy, Debug, PartialEq, Eq)]
pub enum ExportKind {
    /// The players by number.
    Players,
    /// The Swiss matches with their scores.
    Results,
}

/// Parses a word as a kind of list.
pub fn kind_of(word: &str) -> Option<ExportKind>
    ensures { result ≡ kind_of word.now }
{
    match word {
        "players" => Some(ExportKind::Players),
        "results" => Some(ExportKind::Results),
        _ => None,
    }
}

/// How many connections are served at most before the file is given back.
pub(crate) const MAX_CONNECTIONS: u32 = 1_000_000;

fn is_number(word: &str) -> bool
    ensures { result ≡ list_all is_ascii_digit word.now }
{
    word.bytes().all(|byte| byte.is_ascii_digit())
}

/// Parses a word of digits as a number from 0 to 255. A sign isn't a digit.
pub fn small_number_of(word: &str) -> Option<u8>
    ensures { result ≡ number_below 256 word.now }
{
    if is_number(word) {
        word.parse::<u8>().ok()
    } else {
        None
    }
}

/// Parses a word of digits as a number from 0 to 65,535: of a player, a table or a port, whether there is one or not.
pub fn number_of(word: &str) -> Option<u16>
    ensures { result ≡ number_below 65536 word.now }
{
    if is_number(word) {
        word.parse::<u16>().ok()
    } else {
        None
    }
}

fn large_number_of(word: &str) -> Option<u32>
    ensures { result ≡ number_below 4294967296 word.now }
{
    if is_number(word) {
        word.parse::<u32>().ok()
    } else {
        None
    }
}

/// Parses a word as a number of connections, from 1 to 1,000,000.
pub fn count_of(word: &str) -> Option<u32>
    ensures { result ≡ count_of word.now }
{
    let count = large_number_of(word)?;
    if 0 < count && count <= MAX_CONNECTIONS {
        Some(count)
    } else {
        None
    }
}

/// Parses a word as a seed: 64 hexadecimal digits, small or capital, two for each byte.
pub fn seed_of(word: &str) -> Option<[u8; 32]>
    ensures { result ≡ seed_of word.now }
{
    <[u8; 32]>::from_hex(word).ok()
}

/// Reads a word as a name, whether it is lawful or not.
pub fn name_of(alloc: Global, word: &str) -> Result<Items<u8>, AllocError>
    ensures { IfOk result (λ bytes. bytes ≡ word.now) }
{
    Ok(Items::from(Vec::from_slice(alloc, word.as_bytes())?))
}
