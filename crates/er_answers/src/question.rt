use er_event::{Command, Items, Receipt, Refusal};

/// A question to the desk of an event.
#[derive(Debug, Drop)]
pub enum Question {
    /// To take a command.
    Submit { command: Command },
    /// To show the standings.
    Standings,
    /// To show the event.
    Show { view: View },
    /// To give the slip of a match, as JSON.
    Slip { round: u8, table: u16 },
    /// To move its tables to version 2.
    Migrate,
}

/// A text that depends only on the event.
#[derive(Clone, Copy, Debug, PartialEq, Eq)]
pub enum View {
    Players,
    /// The pairings of a round.
    Pairings { round: u8 },
    Bracket,
    /// The players as CSV.
    PlayersCsv,
    /// The results as CSV.
    ResultsCsv,
}

/// An answer of the desk.
#[derive(Drop)]
pub enum Answer {
    Accepted(Receipt),
    Text(Items<u8>),
    /// A slip as JSON.
    Slip(Items<u8>),
    Refused(Refusal),
}
