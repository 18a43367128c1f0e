ghost use Rattle.std.specs.Prelude.{◌≡◌, ◌≢◌, ℕ, List, [], ◌∷◌, ◌++◌, Some, ◌+◌, ◌<◌, ◌≤◌, ◌==◌, nat_lt, if◌then◌else◌, length, take};
ghost use Rattle.std.specs.Prelude.{filter, flat_map, slice_index_or, All, IfSome};
ghost use Rattle.er_share.specs.declared.TheConstants.{MAX_ROUNDS};
ghost use Rattle.er_event.specs.declared.rounds.Round.{Round};
ghost use Rattle.er_event.specs.Totals.{totals_of, plus, missed_totals, totals};
ghost use Rattle.std.specs.List.{range_with_len};
ghost use Rattle.er_event.specs.Results.{rounds_missed_of};
ghost use Rattle.er_event.specs.inside.Played.{results_from};
ghost use Rattle.er_event.specs.Sound.{numbers};
ghost use Rattle.er_event.specs.Round.{is_complete};
ghost use Rattle.er_event.specs.Change.{scored_slot, after, Fits};
ghost use Rattle.er_event.specs.inside.Seen.{AreSeen, AreFew, AreOver, IsSeatedOnce, RoundHasTable, rounds_with_score, totals_of_games};

mod all;

use crate::changes::Change;
use crate::events::Event;
use crate::matches::{Match, is_complete};
use crate::players::{Player, PlayerNo, joined_of};
use crate::rounds::Round;
use crate::scores::{Games, Score};
pub use all::AllTotals;
use all::played_in;
use er_share::MAX_ROUNDS;
use std::cmp::Ordering;

/// What a player's rounds that are complete come to.
#[derive(Clone, Copy, Debug, PartialEq, Eq)]
pub struct Totals {
    /// Match points: 3 for a match won, 1 for one drawn.
    pub points: u8,
    /// The rounds that the player took part in, or missed.
    pub rounds: u8,
    /// Game points: 3 for a game won, 1 for one drawn.
    pub game_points: u16,
    /// The games that were played.
    pub games: u16,
}

/// The match points of a player who won `won` games and lost `lost`.
fn points(won: u8, lost: u8) -> u8
    ensures value { result ≡ (if nat_lt lost won then 3 else if won == lost then 1 else 0) }
    ensures few { result ≤ 3 }
{
    match won.cmp(&lost) {
        Ordering::Greater => 3,
        Ordering::Equal => 1,
        Ordering::Less => 0,
    }
}

impl Totals {
    /// The totals of no match.
    const fn none() -> Totals
        ensures { result ≡ totals_of [] }
    {
        Totals {
            points: 0,
            rounds: 0,
            game_points: 0,
            games: 0,
        }
    }

    /// With one more match, of which the player's own games come first.
    fn with(self, games: Games) -> Totals
        requires room { (rounds : ℕ) × (rounds < MAX_ROUNDS) × AreOver rounds self }
        requires few { AreFew games }
        ensures value { result ≡ plus self (totals_of_games (Some games)) }
        ensures more { (rounds : ℕ) → AreOver rounds self → AreOver (rounds + 1) result }
    {
        Totals {
            points: self.points + points(games.x, games.y),
            rounds: self.rounds + 1,
            game_points: self.game_points + u16::from(3 * games.x + games.d),
            games: self.games + u16::from(games.x + games.y + games.d),
        }
    }

    /// With `rounds` more rounds, which the player missed.
    fn with_missed(self, rounds: usize) -> Totals
        requires { self.rounds + rounds < 256 }
        ensures { result ≡ plus self (missed_totals rounds) }
    {
        Totals {
            rounds: self.rounds + rounds as u8,
            ..self
        }
    }
}

/// The games of a match as the player saw them.
fn games_seen(played: &Match, player: u16) -> Option<Games>
    requires apart { played.now.a ≢ played.now.b }
    requires player { 0 < player }
    ensures { AreSeen played.now player result }
{
    let games = played.score?.games();
    if played.a == player {
        Some(games)
    } else if played.b == player {
        Some(Games {
            x: games.y,
            y: games.x,
            d: games.d,
        })
    } else {
        None
    }
}

/// The match at a place of a round in which the match of a table has this score.
fn match_with(matches: &[Match], at: usize, table: usize, score: Score) -> Match
    requires within { at < length matches.now }
    requires table { 1 ≤ table }
    ensures { result ≡ slice_index_or (scored_slot matches.now table score) at result }
{
    let played = matches[at];
    if at == table - 1 {
        let score = Some(score);
        Match { score, ..played }
    } else {
        played
    }
}

/// Whether the round is complete once the match of a table has this score.
pub(crate) fn is_complete_with(matches: &[Match], table: usize, score: Score) -> bool
    requires table { (1 ≤ table) × (table ≤ length matches.now) }
    ensures { result ≡ is_complete (scored_slot matches.now table score) }
{
    for at in 0..matches.len() {
        if match_with(matches, at, table, score).score.is_none() {
            return false;
        }
    }
    true
}

/// A score that the match of a table gets, of the round at this place.
#[derive(Clone, Copy)]
struct NewScore {
    place: usize,
    table: usize,
    score: Score,
}

/// How many of the first rounds are complete.
fn complete_of(rounds: &[Round], first: u8) -> usize
    requires { first ≤ length rounds.now }
    ensures { result ≡ length (filter (λ r. is_complete r.matches) (take first rounds.now)) }
{
    rounds[..usize::from(first)]
        .iter()
        .filter(|round| round.is_complete())
        .count()
}

/// Whether one of the rounds is complete with the new score.
fn is_complete_at(rounds: &[Round], at: usize, new: &NewScore) -> bool
    requires within { at < length rounds.now }
    requires table { RoundHasTable rounds.now new.now.place new.now.table }
    ensures { (round : Round)
        → round ≡ slice_index_or
        (rounds_with_score rounds.now new.now.place new.now.table new.now.score) at
        round → result ≡ is_complete round.matches }
{
    let matches = rounds[at].matches.as_slice();
    if at == new.place {
        is_complete_with(matches, new.table, new.score)
    } else {
        is_complete(matches)
    }
}

/// How many of the first rounds are complete with the new score.
fn complete_with(rounds: &[Round], first: u8, new: &NewScore) -> usize
    requires few { first ≤ length rounds.now }
    requires table { RoundHasTable rounds.now new.now.place new.now.table }
    ensures { result ≡ length (filter (λ r. is_complete r.matches)
        (take first (rounds_with_score rounds.now new.now.place new.now.table new.now.score))) }
{
    let mut count = 0;
    for at in 0..usize::from(first) {
        count += usize::from(is_complete_at(rounds, at, new));
    }
    count
}

/// How many rounds the player of this number has missed, once one more is enrolled, who has missed `newest`.
fn joined_with(players: &[Player], newest: u8, player: u16) -> u8
    requires { numbers players.now ≡ range_with_len 1 (length players.now) }
    ensures { (new : Player) → new.no ≡ 1 + length players.now → new.joined ≡ newest
        → result ≡ rounds_missed_of (players.now ++ new ∷ []) player }
{
    if usize::from(player) == players.len() + 1 {
        newest
    } else {
        joined_of(players, player)
    }
}

impl Event {
    /// What the player's rounds that are complete come to: the matches, and the rounds that the player missed. It takes no memory.
    pub fn totals(&self, player: PlayerNo) -> Totals
        ensures { result ≡ totals self.now player }
    {
        let joined = joined_of(self.players(), player.get());
        let missed = complete_of(self.stored(), joined);
        played_in(self.stored())[usize::from(player.get())].with_missed(missed)
    }

    /// How many rounds the player of this number has missed after a change.
    fn joined_after(&self, change: &Change, player: u16) -> u8
        requires { Fits self.now change.now }
        ensures value { result ≡ rounds_missed_of (after self.now change.now).players player }
        ensures few { result ≤ length self.now.stored }
    {
        match change {
            Change::AddPlayer { .. } => {
                joined_with(self.players(), self.stored().len() as u8, player)
            }
            _ => joined_of(self.players(), player),
        }
    }

    /// How many of the first rounds are complete after a change.
    fn complete_after(&self, change: &Change, first: u8) -> usize
        requires fits { Fits self.now change.now }
        requires few { first ≤ length self.now.stored }
        ensures { result ≡ length (filter (λ r. is_complete r.matches)
            (take first (after self.now change.now).stored)) }
    {
        let stored = self.stored();
        match change {
            Change::SetScore {
                round,
                table,
                score,
            } => {
                let new = NewScore {
                    place: usize::from(*round) - 1,
                    table: usize::from(*table),
                    score: *score,
                };
                complete_with(stored, first, &new)
            }
            _ => complete_of(stored, first),
        }
    }

    /// What the player's matches of the complete rounds come to after a change.
    fn played_after(&self, change: &Change, player: PlayerNo) -> Totals
        requires { Fits self.now change.now }
        ensures { result
            ≡ totals_of (results_from player 1 (after self.now change.now).stored) }
    {
        self.all_played_after(change)[usize::from(player.get())]
    }

    /// The same as `totals` after a change. It takes no memory either.
    pub fn totals_after(&self, change: &Change, player: PlayerNo) -> Totals
        requires { Fits self.now change.now }
        ensures { result ≡ totals (after self.now change.now) player }
    {
        let joined = self.joined_after(change, player.get());
        let missed = self.complete_after(change, joined);
        self.played_after(change, player).with_missed(missed)
    }
}
