use crate::names::Name;
use crate::players::PlayerNo;
use crate::scores::Score;

/// A stored match as its slip shows it.
#[derive(Drop)]
pub struct SlipRow {
    pub round: u8,
    /// From 1, and 0 for a bye.
    pub table: u16,
    /// Number and name of the first-named player.
    pub first: (PlayerNo, Name),
    /// Number and name of the second, and none for a bye.
    pub second: Option<(PlayerNo, Name)>,
    /// None while no result is reported.
    pub score: Option<Score>,
}
