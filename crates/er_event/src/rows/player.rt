ghost use Rattle.std.specs.Prelude.{◌≡◌, ◌≢◌, ◌≤◌, ℕ, pos, List, Err, map, All, IsTrue, IsNone, IfSome, IfOk};
ghost use Rattle.er_share.specs.declared.TheConstants.{MAX_ROUNDS};
ghost use Rattle.er_event.specs.declared.players.TheConstants.{MAX_PLAYERS};
ghost use Rattle.er_event.specs.declared.players.Player.{Player};
ghost use Rattle.er_event.specs.declared.refusals.Place.{Place};
ghost use Rattle.er_event.specs.Name.{is_lawful_name};
ghost use Rattle.er_event.specs.Rows.{player_row};
ghost use Rattle.er_event.specs.Sound.{ArePlayers};
ghost use Rattle.er_event.specs.Version.{KeepsPlayers};
ghost use Rattle.er_event.specs.inside.Reading.{IsLawfulPlayer};

use super::event::{Setup, small_of};
use super::read_flag;
use crate::events::PartsFault;
use crate::items::Items;
use crate::names::Name;
use crate::players::{Player, PlayerNo, is_nobody_late, may_play};
use crate::refusals::Place;
use std::alloc::{AllocError, Global};

/// A row of the table of players. `joined` is 0 if the table has no such column.
#[derive(Drop)]
pub struct PlayerRow {
    pub no: i64,
    pub name: Items<u8>,
    pub dropped: i64,
    /// How many rounds were stored when the player was enrolled.
    pub joined: i64,
}

const DAMAGED: PartsFault = PartsFault::Damaged(Place::PlayerTable);

fn number_of(value: i64) -> Option<PlayerNo>
    ensures value { IfSome result (λ n. value ≡ pos n) }
    ensures none { IsNone result → (n : ℕ) → 1 ≤ n → n ≤ MAX_PLAYERS → value ≢ pos n }
{
    u16::try_from(value).ok().and_then(PlayerNo::try_new)
}

fn read_player(row: &PlayerRow) -> Option<Player>
    ensures value { IfSome result (λ p. (row.now ≡ player_row p) × IsTrue (is_lawful_name p.name)) }
    ensures none { IsNone result → (p : Player) → IsLawfulPlayer p → row.now ≢ player_row p }
{
    let no = number_of(row.no)?;
    let name = Name::try_from_bytes(row.name.as_slice()).ok()?;
    let dropped = read_flag(row.dropped)?;
    let joined = small_of(row.joined)?;
    Some(Player {
        no,
        name,
        dropped,
        joined,
    })
}

/// Reads the players of these rows, which may be numbered and named anyhow.
fn read_rows(alloc: Global, rows: &[PlayerRow]) -> Result<Vec<Player>, PartsFault>
    ensures value { IfOk result (λ players. (rows.now ≡ map player_row players.items)
        × All (λ p. IsTrue (is_lawful_name p.name)) players.items) }
    ensures damaged { (table : Place) → result ≡ Err (PartsFault.Damaged table)
        → (table ≡ Place.PlayerTable)
        × ((players : List Player) → All IsLawfulPlayer players
        → rows.now ≢ map player_row players) }
{
    let mut players = Vec::new(alloc);
    for row in rows {
        let player = read_player(row).ok_or(DAMAGED)?;
        players.push(player).map_err(AllocError::from)?;
    }
    Ok(players)
}

/// Reads the players of these rows, if they may be those of an event with this row, in tables of its version.
pub fn read_players(
    alloc: Global,
    setup: &Setup,
    rows: &[PlayerRow],
) -> Result<Vec<Player>, PartsFault>
    requires { setup.now.rounds ≤ MAX_ROUNDS }
    ensures value { IfOk result (λ players. (rows.now ≡ map player_row players.items)
        × ArePlayers setup.now.phase setup.now.rounds players.items) }
    ensures kept { IfOk result (λ players. KeepsPlayers setup.now.version players.items) }
    ensures damaged { (table : Place) → result ≡ Err (PartsFault.Damaged table)
        → (table ≡ Place.PlayerTable)
        × ((players : List Player) → ArePlayers setup.now.phase setup.now.rounds players
        → KeepsPlayers setup.now.version players → rows.now ≢ map player_row players) }
{
    let players = read_rows(alloc, rows)?;
    if !may_play(setup.phase, setup.rounds, players.as_slice()) {
        return Err(DAMAGED);
    }
    if setup.version == 1 && !is_nobody_late(players.as_slice()) {
        return Err(DAMAGED);
    }
    Ok(players)
}
