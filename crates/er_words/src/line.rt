ghost use Rattle.std.specs.Prelude.{◌≡◌, ℕ, MatchResult, None, Some, codes, map, string_bytes};
ghost use Rattle.std.specs.List.{position};
ghost use Rattle.er_words.specs.declared.usage.UsageFault.TheVariants.{LeadingDash};
ghost use Rattle.er_words.specs.Line.{file_kinds, is_option, report_kinds, with_games};
ghost use Rattle.er_words.specs.Usage.{ReadsWords};
ghost use Rattle.er_words.specs.inside.Usage.{ReadsAs, ReadsNamed, report};

use crate::paths::FilePath;
use crate::usage::{UsageFault, count, end, list_kind, number, score, seed, small_number, text};
use crate::values::{ExportKind, name_of};
use crate::words::{option_at, split_words};
use er_event::{Games, Items};
use std::alloc::{AllocError, Global};
use std::convert::AsStr;
use thiserror::Error;

/// What a command line asks for. Each has the file of its event; a name may be unlawful, and a number one that the event doesn't have.
#[derive(Debug, Drop)]
pub enum Line {
    Init {
        file: FilePath,
        name: Items<u8>,
        rounds: u8,
        cut: u8,
    },
    Enrol {
        file: FilePath,
        name: Items<u8>,
    },
    Import {
        file: FilePath,
        list: FilePath,
    },
    Start {
        file: FilePath,
    },
    Pair {
        file: FilePath,
        round: u8,
        seed: [u8; 32],
    },
    Result {
        file: FilePath,
        round: u8,
        table: u16,
        score: Games,
    },
    Correct {
        file: FilePath,
        round: u8,
        table: u16,
        score: Games,
    },
    Drop {
        file: FilePath,
        player: u16,
    },
    Cut {
        file: FilePath,
    },
    Playoff {
        file: FilePath,
        stage: u8,
        slot: u8,
        score: Games,
    },
    Standings {
        file: FilePath,
    },
    Players {
        file: FilePath,
    },
    Slips {
        file: FilePath,
        round: u8,
    },
    Bracket {
        file: FilePath,
    },
    Export {
        file: FilePath,
        kind: ExportKind,
    },
    Serve {
        file: FilePath,
        port: u16,
        count: u32,
    },
    Migrate {
        file: FilePath,
    },
}

/// Why a line was not read.
#[derive(Clone, Copy, Debug, PartialEq, Eq, Error)]
pub enum LineFault {
    /// It isn't a command line, and this is why.
    #[error(transparent)]
    Usage(UsageFault),
    /// There was no memory to keep it.
    #[error("out of memory")]
    Memory,
}

impl From<AllocError> for LineFault {
    ghost use Rattle.std.specs.Prelude.{◌≡◌};
    ghost use Rattle.er_words.specs.declared.line.LineFault.TheVariants.{Memory};

    ghost from_gives = { λ _ fault. fault ≡ Memory };

    fn from(_error: AllocError) -> Self {
        LineFault::Memory
    }
}

impl From<UsageFault> for LineFault {
    ghost use Rattle.std.specs.Prelude.{◌≡◌};
    ghost use Rattle.er_words.specs.declared.line.LineFault.TheVariants.{Usage};

    ghost from_gives = { λ usage fault. fault ≡ Usage usage };

    fn from(usage: UsageFault) -> Self {
        LineFault::Usage(usage)
    }
}

/// Reads the words `FILE`.
fn read_file(alloc: Global, words: &[&str]) -> Result<FilePath, LineFault>
    ensures { ReadsAs file_kinds (λ file. file) (map (λ word. word.now) words.now) result }
{
    let (file, words) = text(words, 1)?;
    end(words, 2)?;
    Ok(FilePath::from_str(alloc, file)?)
}

/// Reads the words `FILE ROUND TABLE X Y D`.
fn read_report(alloc: Global, words: &[&str]) -> Result<(FilePath, u8, u16, Games), LineFault>
    ensures { ReadsAs report_kinds (with_games report) (map (λ word. word.now) words.now) result }
{
    let (file, words) = text(words, 1)?;
    let (round, words) = small_number(words, 2)?;
    let (table, words) = number(words, 3)?;
    let score = score(words)?;
    Ok((FilePath::from_str(alloc, file)?, round, table, score))
}

fn read_init(alloc: Global, words: &[&str]) -> Result<Line, LineFault>
    ensures { ReadsNamed (codes "init") (map (λ word. word.now) words.now) result }
{
    let (file, words) = text(words, 1)?;
    let (name, words) = text(words, 2)?;
    let (rounds, words) = small_number(words, 3)?;
    let (cut, words) = small_number(words, 4)?;
    end(words, 5)?;
    Ok(Line::Init {
        file: FilePath::from_str(alloc, file)?,
        name: name_of(alloc, name)?,
        rounds,
        cut,
    })
}

fn read_enrol(alloc: Global, words: &[&str]) -> Result<Line, LineFault>
    ensures { ReadsNamed (codes "enrol") (map (λ word. word.now) words.now) result }
{
    let (file, words) = text(words, 1)?;
    let (name, words) = text(words, 2)?;
    end(words, 3)?;
    Ok(Line::Enrol {
        file: FilePath::from_str(alloc, file)?,
        name: name_of(alloc, name)?,
    })
}

fn read_import(alloc: Global, words: &[&str]) -> Result<Line, LineFault>
    ensures { ReadsNamed (codes "import") (map (λ word. word.now) words.now) result }
{
    let (file, words) = text(words, 1)?;
    let (list, words) = text(words, 2)?;
    end(words, 3)?;
    Ok(Line::Import {
        file: FilePath::from_str(alloc, file)?,
        list: FilePath::from_str(alloc, list)?,
    })
}

fn read_pair(alloc: Global, words: &[&str]) -> Result<Line, LineFault>
    ensures { ReadsNamed (codes "pair") (map (λ word. word.now) words.now) result }
{
    let (file, words) = text(words, 1)?;
    let (round, words) = small_number(words, 2)?;
    let (seed, words) = seed(words, 3)?;
    end(words, 4)?;
    Ok(Line::Pair {
        file: FilePath::from_str(alloc, file)?,
        round,
        seed,
    })
}

fn read_drop(alloc: Global, words: &[&str]) -> Result<Line, LineFault>
    ensures { ReadsNamed (codes "drop") (map (λ word. word.now) words.now) result }
{
    let (file, words) = text(words, 1)?;
    let (player, words) = number(words, 2)?;
    end(words, 3)?;
    Ok(Line::Drop {
        file: FilePath::from_str(alloc, file)?,
        player,
    })
}

fn read_playoff(alloc: Global, words: &[&str]) -> Result<Line, LineFault>
    ensures { ReadsNamed (codes "playoff") (map (λ word. word.now) words.now) result }
{
    let (file, words) = text(words, 1)?;
    let (stage, words) = small_number(words, 2)?;
    let (slot, words) = small_number(words, 3)?;
    let score = score(words)?;
    Ok(Line::Playoff {
        file: FilePath::from_str(alloc, file)?,
        stage,
        slot,
        score,
    })
}

fn read_slips(alloc: Global, words: &[&str]) -> Result<Line, LineFault>
    ensures { ReadsNamed (codes "slips") (map (λ word. word.now) words.now) result }
{
    let (file, words) = text(words, 1)?;
    let (round, words) = small_number(words, 2)?;
    end(words, 3)?;
    Ok(Line::Slips {
        file: FilePath::from_str(alloc, file)?,
        round,
    })
}

fn read_export(alloc: Global, words: &[&str]) -> Result<Line, LineFault>
    ensures { ReadsNamed (codes "export") (map (λ word. word.now) words.now) result }
{
    let (file, words) = text(words, 1)?;
    let (kind, words) = list_kind(words, 2)?;
    end(words, 3)?;
    Ok(Line::Export {
        file: FilePath::from_str(alloc, file)?,
        kind,
    })
}

fn read_serve(alloc: Global, words: &[&str]) -> Result<Line, LineFault>
    ensures { ReadsNamed (codes "serve") (map (λ word. word.now) words.now) result }
{
    let (file, words) = text(words, 1)?;
    let (port, words) = number(words, 2)?;
    let (count, words) = count(words, 3)?;
    end(words, 4)?;
    Ok(Line::Serve {
        file: FilePath::from_str(alloc, file)?,
        port,
        count,
    })
}

/// Reads the line of the subcommand with this name, by the words after it.
fn read_named(alloc: Global, name: &str, words: &[&str]) -> Result<Line, LineFault>
    ensures { ReadsNamed name.now (map (λ word. word.now) words.now) result }
{
    match name {
        "init" => read_init(alloc, words),
        "enrol" => read_enrol(alloc, words),
        "import" => read_import(alloc, words),
        "start" => Ok(Line::Start {
            file: read_file(alloc, words)?,
        }),
        "pair" => read_pair(alloc, words),
        "result" => {
            let (file, round, table, score) = read_report(alloc, words)?;
            Ok(Line::Result {
                file,
                round,
                table,
                score,
            })
        }
        "correct" => {
            let (file, round, table, score) = read_report(alloc, words)?;
            Ok(Line::Correct {
                file,
                round,
                table,
                score,
            })
        }
        "drop" => read_drop(alloc, words),
        "cut" => Ok(Line::Cut {
            file: read_file(alloc, words)?,
        }),
        "playoff" => read_playoff(alloc, words),
        "standings" => Ok(Line::Standings {
            file: read_file(alloc, words)?,
        }),
        "players" => Ok(Line::Players {
            file: read_file(alloc, words)?,
        }),
        "slips" => read_slips(alloc, words),
        "bracket" => Ok(Line::Bracket {
            file: read_file(alloc, words)?,
        }),
        "export" => read_export(alloc, words),
        "serve" => read_serve(alloc, words),
        "migrate" => Ok(Line::Migrate {
            file: read_file(alloc, words)?,
        }),
        _ => Err(LineFault::Usage(UsageFault::UnknownSubcommand)),
    }
}

/// Refuses words if one of them begins with `-`, in any place.
fn refuse_option<S: AsStr>(words: &[S]) -> Result<(), UsageFault>
    ensures { MatchResult result (λ _. position is_option (map S.text words.now) ≡ None)
        (λ why. (place : ℕ) × (position is_option (map S.text words.now) ≡ Some place)
        × (why ≡ LeadingDash place)) }
{
    match option_at(words) {
        Some(place) => Err(UsageFault::LeadingDash { place }),
        None => Ok(()),
    }
}

/// Reads words that are split already, as those of a script's line, which need no parser.
pub fn read_fields(alloc: Global, words: &[&str]) -> Result<Line, LineFault>
    ensures { ReadsWords (map (λ word. word.now) words.now) result }
{
    refuse_option(words)?;
    let [name, values @ ..] = words else {
        return Err(LineFault::Usage(UsageFault::UnknownSubcommand));
    };
    read_named(alloc, name, values)
}

/// Reads the words of a command line, without the program's name, or says what is wrong with them first: that one begins with `-`, in any
/// place, and else what is from the first word on.
pub fn read_words(alloc: Global, words: &[String]) -> Result<Line, LineFault>
    ensures { ReadsWords (map string_bytes words.now) result }
{
    refuse_option(words)?;
    let (name, values) = split_words(alloc, words)?.ok_or(UsageFault::UnknownSubcommand)?;
    read_named(alloc, name, &values)
}
