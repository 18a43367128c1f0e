ghost use Rattle.std.specs.Prelude.{◌≡◌, IfOk};
ghost use Rattle.er_rank.specs.Standings.{first_active};

use er_event::PlayerNo;
use er_share::Share;
use std::alloc::{AllocError, Global};

/// A row of the standings.
#[derive(Clone, Copy, Debug, PartialEq, Eq)]
pub struct Row {
    /// One more than the number of players above. Players who are equal on match points and the three percentages share it.
    pub rank: u16,
    pub player: PlayerNo,
    /// Match points.
    pub points: u8,
    /// Opponents' match-win percentage.
    pub omw: Share,
    /// The player's own game-win percentage.
    pub gwp: Share,
    /// Opponents' game-win percentage.
    pub ogw: Share,
    /// Whether the player has left the tournament.
    pub dropped: bool,
}

/// The players of the first `k` rows that are not of a dropped player.
pub fn first_active(alloc: Global, rows: &[Row], k: usize) -> Result<Vec<PlayerNo>, AllocError>
    ensures { IfOk result (λ players. players.items ≡ first_active rows.now k) }
{
    rows.iter()
        .filter(|row| !row.dropped)
        .map(|row| row.player)
        .take(k)
        .collect(alloc)
}
