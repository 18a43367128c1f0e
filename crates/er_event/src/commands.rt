use crate::items::Items;
use crate::scores::Games;

/// What the scorekeeper asks for.
#[derive(Debug, Drop)]
pub enum Command {
    Enrol { name: Items<u8> },
    Start,
    Pair { round: u8, seed: [u8; 32] },
    Result { round: u8, table: u16, score: Games },
    Correct { round: u8, table: u16, score: Games },
    Drop { player: u16 },
    Cut,
    Playoff { stage: u8, slot: u8, score: Games },
}

/// How many commands an event may take.
pub const MAX_SERIAL: u32 = 999_999;

/// The answer to an accepted command: how many commands the event has taken, this one counted.
#[derive(Clone, Copy, Debug, PartialEq, Eq)]
pub struct Receipt {
    pub serial: u32,
}
