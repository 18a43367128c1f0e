use er_event::{Cause, Games, NameFault, PartsFault, Place, Refusal, Score};
use er_pair::PairFault;
use er_paper::{CsvFault, SlipFault};
use er_words::{LineFault, UsageFault};
use std::alloc::Global;
use std::error::Error;
use std::test::Fail;

/// Whether the error is shown so.
fn shows<E: Error>(alloc: Global, error: E, due: &str) -> bool {
    error
        .to_string(alloc)
        .is_ok_and(|text| text.as_str() == due)
}

/// A refusal is shown by its number and its name, and by what it names.
#[test]
fn refusals_show_what_they_name(rt: HostRuntime) -> Result<(), Fail> {
    let score = Score::swiss(Games { x: 2, y: 1, d: 0 }).ok_or("no score")?;
    for (why, due) in [
        (Refusal::BadName, "1 BadName"),
        (Refusal::WrongRound { next: 2 }, "7 WrongRound (next 2)"),
        (Refusal::RoundOpen { round: 1 }, "8 RoundOpen (round 1)"),
        (
            Refusal::Budget { steps: 1_000_000 },
            "11 Budget (steps 1000000)",
        ),
        (
            Refusal::AlreadyReported { score },
            "14 AlreadyReported (score 2-1-0)",
        ),
        (
            Refusal::Store {
                cause: Cause::Refused,
            },
            "25 Store (the database declined a call)",
        ),
        (
            Refusal::Store {
                cause: Cause::BadRow,
            },
            "25 Store (a row was read that the format does not allow)",
        ),
        (
            Refusal::Damaged {
                table: Place::PairingTable,
            },
            "29 Damaged (table PairingTable)",
        ),
        (Refusal::BadSetup, "30 BadSetup"),
    ] {
        assert!(rt; shows(rt.alloc(), why, due), "{due}");
    }
    Ok(())
}

#[test]
fn faults_of_words_show_their_place(rt: HostRuntime) -> Result<(), Fail> {
    let alloc = rt.alloc();
    for (fault, due) in [
        (
            UsageFault::UnknownSubcommand,
            "the first word is no subcommand",
        ),
        (
            UsageFault::LeadingDash { place: 1 },
            "word 1 begins with `-`, which no word may",
        ),
        (UsageFault::TooFew { place: 2 }, "word 2 is missing"),
        (
            UsageFault::TooMany { place: 3 },
            "word 3 is a word too many",
        ),
        (
            UsageFault::BadNumber {
                place: 4,
                most: 255,
            },
            "word 4 is no whole number from 0 to 255",
        ),
        (
            UsageFault::BadSeed { place: 3 },
            "word 3 is not 64 hexadecimal digits",
        ),
        (
            UsageFault::BadCount { place: 3 },
            "word 3 is no whole number from 1 to 1000000",
        ),
        (
            UsageFault::BadKind { place: 2 },
            "word 2 is no kind of list: players or results",
        ),
    ] {
        assert!(rt; shows(alloc, fault, due), "{due}");
        assert!(rt; shows(alloc, LineFault::Usage(fault), due), "{due}");
    }
    assert!(rt; shows(alloc, LineFault::Memory, "out of memory"));
    Ok(())
}

#[test]
fn faults_of_names_and_rows_are_shown(rt: HostRuntime) -> Result<(), Fail> {
    let alloc = rt.alloc();
    let damaged = PartsFault::Damaged(Place::PlayerTable);
    assert!(rt; shows(alloc, damaged, "no sound event has the rows of PlayerTable"));
    assert!(rt; shows(alloc, PartsFault::Memory, "out of memory"));
    assert!(rt; shows(alloc, NameFault::Bad, "the bytes are no lawful name"));
    assert!(rt; shows(alloc, NameFault::Memory, "out of memory"));
    Ok(())
}

#[test]
fn faults_of_lists_show_their_row(rt: HostRuntime) -> Result<(), Fail> {
    for (fault, due) in [
        (
            CsvFault::BadHeading,
            "the heading is missing, or another one",
        ),
        (
            CsvFault::BadRow { row: 3 },
            "row 3 after the heading is not as it must be",
        ),
        (CsvFault::Memory, "out of memory"),
    ] {
        assert!(rt; shows(rt.alloc(), fault, due), "{due}");
    }
    Ok(())
}

#[test]
fn faults_of_pairings_and_slips_are_shown(rt: HostRuntime) -> Result<(), Fail> {
    let alloc = rt.alloc();
    let over = PairFault::Budget { steps: 1_000_000 };
    assert!(rt; shows(alloc, over, "no pairing was found in 1000000 steps"));
    assert!(rt; shows(alloc, PairFault::NoPairing, "there is no legal pairing"));
    assert!(rt; shows(alloc, PairFault::Memory, "out of memory"));
    assert!(rt; shows(alloc, SlipFault::Bad, "the bytes are no slip"));
    assert!(rt; shows(alloc, SlipFault::Memory, "out of memory"));
    Ok(())
}
