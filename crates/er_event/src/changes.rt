use crate::events::Phase;
use crate::items::Items;
use crate::matches::Match;
use crate::names::Name;
use crate::players::PlayerNo;
use crate::scores::Score;

/// What one accepted command does to an event.
#[derive(Drop)]
pub enum Change {
    /// A new player with the next number.
    AddPlayer {
        name: Name,
    },
    /// The player leaves the tournament, and stays listed.
    SetDropped {
        player: PlayerNo,
    },
    /// The event goes on to another phase.
    SetPhase {
        phase: Phase,
    },
    /// One more Swiss round is paired: tables 1, 2, .. and then the bye, if there is one.
    AddRound {
        matches: Items<Match>,
    },
    /// The match of this table of this Swiss round has this score, whether it had one or not.
    SetScore {
        round: u8,
        table: u16,
        score: Score,
    },
    /// The playoff begins with these matches, by slot.
    AddBracket {
        matches: Items<Match>,
    },
    /// The match of this slot of this stage has this score. A stage that follows, and the end of the playoff, come with it.
    SetBracketScore {
        stage: u8,
        slot: u8,
        score: Score,
        next: Option<Items<Match>>,
        finished: bool,
    },
}
