ghost use Rattle.std.specs.Prelude.{◌≡◌, ◌≢◌, ◌≤◌, ◌<◌, ◌==◌, nat_le, ◌↔◌, not, length, find, option_map, All, AllPairs, IsTrue, IsSome};
ghost use Rattle.std.specs.Prelude.{IfSome};
ghost use Rattle.std.specs.List.{list_all, range_with_len};
ghost use Rattle.er_event.specs.Change.{has_name};
ghost use Rattle.er_event.specs.Name.{is_lawful_name};
ghost use Rattle.er_event.specs.Results.{rounds_missed_of};
ghost use Rattle.er_event.specs.Sound.{numbers, names, ArePlayers};
ghost use Rattle.er_event.specs.inside.Reading.{Suits};

use crate::events::Phase;
use crate::names::Name;
use std::marker::Model;

/// How many players an event may have.
pub const MAX_PLAYERS: u16 = 512;

/// A player's number, from 1 to 512 in the order of enrolment.
#[derive(Clone, Copy, Debug, PartialEq, Eq, PartialOrd, Ord)]
pub struct PlayerNo {
    number: u16,
}

impl Model for PlayerNo {
    ghost use Rattle.std.specs.Prelude.{ℕ, ◌≤◌};
    ghost use Rattle.er_event.specs.declared.players.TheConstants.{MAX_PLAYERS};

    ghost Value = { ℕ };

    ghost view = { λ n. n.number };

    ghost invariant = { λ n. (1 ≤ n.number) × (n.number ≤ MAX_PLAYERS) };

    ghost inverse = { λ n. record { number = n } };
}

impl PlayerNo {
    pub fn try_new(number: u16) -> Option<PlayerNo>
        ensures within { IsSome result ↔ ((1 ≤ number) × (number ≤ MAX_PLAYERS)) }
        ensures value { IfSome result (λ n. n ≡ number) }
    {
        if 1 <= number && number <= MAX_PLAYERS {
            Some(PlayerNo { number })
        } else {
            None
        }
    }

    pub fn get(self) -> u16
        ensures value { result ≡ self }
        ensures within { (1 ≤ result) × (result ≤ MAX_PLAYERS) }
    {
        self.number
    }
}

/// A player of an event.
#[derive(Clone, Copy)]
pub struct Player {
    pub no: PlayerNo,
    pub name: Name,
    /// Whether the player has left the tournament. A dropped player stays listed.
    pub dropped: bool,
    /// How many rounds were stored when the player was enrolled. Each of them counts as lost, once it is complete.
    pub joined: u8,
}

pub(crate) fn has_name(players: &[Player], name: &Name) -> bool
    ensures value { result ≡ has_name players.now name.now }
    ensures lawful { IsTrue (is_lawful_name name.now) }
{
    let name = name.as_bytes();
    players.iter().any(|player| player.name.as_bytes() == name)
}

/// The player of this number, among players who are numbered from 1.
pub(crate) fn player_of(players: &[Player], number: u16) -> Option<&Player>
    requires numbered { numbers players.now ≡ range_with_len 1 (length players.now) }
    ensures { option_map (λ p. p.now) result ≡ find (λ p. p.no == number) players.now }
{
    if number == 0 {
        return None;
    }
    players.get(usize::from(number) - 1)
}

/// How many rounds the player of this number missed, or 0 if there is no such player.
pub(crate) fn joined_of(players: &[Player], number: u16) -> u8
    requires numbered { numbers players.now ≡ range_with_len 1 (length players.now) }
    ensures { result ≡ rounds_missed_of players.now number }
{
    match player_of(players, number) {
        Some(player) => player.joined,
        None => 0,
    }
}

pub(crate) fn is_nobody_dropped(players: &[Player]) -> bool
    ensures { result ≡ list_all (λ p. not p.dropped) players.now }
{
    players.iter().all(|player| !player.dropped)
}

/// Whether the players are numbered 1, 2, .. in their order.
fn are_numbered(players: &[Player]) -> bool
    ensures { IsTrue result ↔ (numbers players.now ≡ range_with_len 1 (length players.now)) }
{
    for (place, player) in players.iter().enumerate() {
        if usize::from(player.no.get()) != place + 1 {
            return false;
        }
    }
    true
}

/// Whether no two players have one name.
fn are_distinct(players: &[Player]) -> bool
    ensures { IsTrue result ↔ AllPairs (λ a b. a ≢ b) (names players.now) }
{
    for (place, player) in players.iter().enumerate() {
        if has_name(&players[..place], &player.name) {
            return false;
        }
    }
    true
}

/// Whether nobody has missed a round.
pub(crate) fn is_nobody_late(players: &[Player]) -> bool
    ensures { result ≡ list_all (λ p. p.joined == 0) players.now }
{
    players.iter().all(|player| player.joined == 0)
}

/// Whether nobody has missed more rounds than these.
fn is_nobody_later(players: &[Player], rounds: u8) -> bool
    ensures { result ≡ list_all (λ p. nat_le p.joined rounds) players.now }
{
    players.iter().all(|player| player.joined <= rounds)
}

fn suits(phase: Phase, rounds: u8, players: &[Player]) -> bool
    ensures { IsTrue result ↔ Suits phase rounds players.now }
{
    if !is_nobody_later(players, rounds) {
        return false;
    }
    match phase {
        Phase::Enrolling => is_nobody_dropped(players) && is_nobody_late(players),
        _ => players.len() >= 2,
    }
}

/// Whether players with lawful names may be those of an event in this phase, with `rounds` rounds.
pub(crate) fn may_play(phase: Phase, rounds: u8, players: &[Player]) -> bool
    requires { All (λ p. IsTrue (is_lawful_name p.name)) players.now }
    ensures { IsTrue result ↔ ArePlayers phase rounds players.now }
{
    if players.len() > usize::from(MAX_PLAYERS) || !are_numbered(players) {
        return false;
    }
    if !are_distinct(players) {
        return false;
    }
    suits(phase, rounds, players)
}
