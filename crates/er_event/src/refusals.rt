ghost use Rattle.std.specs.Prelude.{◌≡◌, Some};
ghost use Rattle.er_event.specs.Refusal.{cause_text, place_text, refusal_text};

use crate::scores::Score;
use std::alloc::AllocError;
use std::error::Error;
use std::fmt;

/// A table of an event's file.
#[derive(Clone, Copy, Debug, PartialEq, Eq)]
pub enum Place {
    EventTable,
    PlayerTable,
    PairingTable,
    BracketTable,
    TallyTable,
}

/// Why the store could not serve a call.
#[derive(Clone, Copy, Debug, PartialEq, Eq)]
pub enum Cause {
    /// A call of the database was refused for another cause than memory.
    Refused,
    /// A row was read that the format does not allow.
    BadRow,
}

/// Why a call was refused. Each refusal has a number and a name, which no other has.
#[derive(Clone, Copy, Debug, PartialEq, Eq)]
pub enum Refusal {
    BadName,
    NameTaken,
    PlayersFull,
    NotEnrolling,
    TooFewPlayers,
    NotSwiss,
    WrongRound { next: u8 },
    RoundOpen { round: u8 },
    AllRoundsPaired,
    NoPairing,
    Budget { steps: u32 },
    NoSuchMatch,
    BadScore,
    AlreadyReported { score: Score },
    NotReported,
    IsBye,
    NoSuchPlayer,
    AlreadyDropped,
    RoundsNotDone,
    NoCut,
    TooFewForCut,
    NotPlayoff,
    SerialFull,
    Memory,
    Store { cause: Cause },
    NeedsReopen,
    NoEvent,
    EventExists,
    Damaged { table: Place },
    BadSetup,
}

impl fmt::Display for Place {
    ghost output = { λ place. Some (place_text place) };

    fn fmt<W: fmt::Write>(&self, f: &mut fmt::Formatter<W>) -> fmt::Result {
        f.write_str(match self {
            Place::EventTable => "EventTable",
            Place::PlayerTable => "PlayerTable",
            Place::PairingTable => "PairingTable",
            Place::BracketTable => "BracketTable",
            Place::TallyTable => "TallyTable",
        })
    }
}

impl fmt::Display for Cause {
    ghost output = { λ cause. Some (cause_text cause) };

    fn fmt<W: fmt::Write>(&self, f: &mut fmt::Formatter<W>) -> fmt::Result {
        f.write_str(match self {
            Cause::Refused => "the database declined a call",
            Cause::BadRow => "a row was read that the format does not allow",
        })
    }
}

impl Error for Cause {}

impl From<AllocError> for Refusal {
    ghost use Rattle.std.specs.Prelude.{◌≡◌};
    ghost use Rattle.er_event.specs.declared.refusals.Refusal.TheVariants.{Memory};

    ghost from_gives = { λ _ why. why ≡ Memory };

    fn from(_error: AllocError) -> Self {
        Refusal::Memory
    }
}

impl Refusal {
    ghost use Rattle.er_event.specs.Refusal.{entry_of};
    ghost use Rattle.std.specs.Prelude.{◌≡◌};

    /// The number and the name, as texts and answers show them.
    fn entry(self) -> (u8, &'static str)
        ensures number { result.0 ≡ (entry_of self).0 }
        ensures name { result.1.now ≡ (entry_of self).1 }
    {
        match self {
            Refusal::BadName => (1, "BadName"),
            Refusal::NameTaken => (2, "NameTaken"),
            Refusal::PlayersFull => (3, "PlayersFull"),
            Refusal::NotEnrolling => (4, "NotEnrolling"),
            Refusal::TooFewPlayers => (5, "TooFewPlayers"),
            Refusal::NotSwiss => (6, "NotSwiss"),
            Refusal::WrongRound { .. } => (7, "WrongRound"),
            Refusal::RoundOpen { .. } => (8, "RoundOpen"),
            Refusal::AllRoundsPaired => (9, "AllRoundsPaired"),
            Refusal::NoPairing => (10, "NoPairing"),
            Refusal::Budget { .. } => (11, "Budget"),
            Refusal::NoSuchMatch => (12, "NoSuchMatch"),
            Refusal::BadScore => (13, "BadScore"),
            Refusal::AlreadyReported { .. } => (14, "AlreadyReported"),
            Refusal::NotReported => (15, "NotReported"),
            Refusal::IsBye => (16, "IsBye"),
            Refusal::NoSuchPlayer => (17, "NoSuchPlayer"),
            Refusal::AlreadyDropped => (18, "AlreadyDropped"),
            Refusal::RoundsNotDone => (19, "RoundsNotDone"),
            Refusal::NoCut => (20, "NoCut"),
            Refusal::TooFewForCut => (21, "TooFewForCut"),
            Refusal::NotPlayoff => (22, "NotPlayoff"),
            Refusal::SerialFull => (23, "SerialFull"),
            Refusal::Memory => (24, "Memory"),
            Refusal::Store { .. } => (25, "Store"),
            Refusal::NeedsReopen => (26, "NeedsReopen"),
            Refusal::NoEvent => (27, "NoEvent"),
            Refusal::EventExists => (28, "EventExists"),
            Refusal::Damaged { .. } => (29, "Damaged"),
            Refusal::BadSetup => (30, "BadSetup"),
        }
    }

    pub fn number(self) -> u8
        ensures { result ≡ (entry_of self).0 }
    {
        self.entry().0
    }

    pub fn name(self) -> &'static str
        ensures { result.now ≡ (entry_of self).1 }
    {
        self.entry().1
    }
}

impl fmt::Display for Refusal {
    ghost output = { λ why. Some (refusal_text why) };

    /// The number and the name, and after them what is named, if anything.
    fn fmt<W: fmt::Write>(&self, f: &mut fmt::Formatter<W>) -> fmt::Result {
        let (number, name) = self.entry();
        match *self {
            Refusal::WrongRound { next } => write!(f, "{number} {name} (next {next})"),
            Refusal::RoundOpen { round } => write!(f, "{number} {name} (round {round})"),
            Refusal::Budget { steps } => write!(f, "{number} {name} (steps {steps})"),
            Refusal::AlreadyReported { score } => write!(f, "{number} {name} (score {score})"),
            Refusal::Store { cause } => write!(f, "{number} {name} ({cause})"),
            Refusal::Damaged { table } => write!(f, "{number} {name} (table {table})"),
            _ => write!(f, "{number} {name}"),
        }
    }
}

impl Error for Refusal {}
