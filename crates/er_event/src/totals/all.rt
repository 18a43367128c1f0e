ghost use Rattle.std.specs.Prelude.{◌≡◌, ◌≢◌, ℕ, List, [], ◌++◌, ◌∷◌, ◌+◌, ◌<◌, ◌≤◌, length, flat_map, option_map, slice_index_or, All};
ghost use Rattle.std.specs.Prelude.{IfSome};
ghost use Rattle.er_share.specs.declared.TheConstants.{MAX_ROUNDS};
ghost use Rattle.er_event.specs.declared.matches.Match.{Match};
ghost use Rattle.er_event.specs.declared.rounds.Round.{Round};
ghost use Rattle.er_event.specs.declared.seats.TheConstants.{NUMBERS};
ghost use Rattle.er_event.specs.Change.{scored_slot, after, Fits};
ghost use Rattle.er_event.specs.Totals.{totals_of, plus, gathered_of, AreTotals};
ghost use Rattle.er_event.specs.inside.Played.{with_new, results_of_match, complete_results, IsRescored, ArePlayed, AddsResults};
ghost use Rattle.er_event.specs.inside.Seen.{AreFew, AreOver, IsSeatedOnce, RoundHasTable, rounds_with_score, totals_of_games};

use super::{NewScore, Totals, complete_of, games_seen, is_complete_with, match_with};
use crate::changes::Change;
use crate::events::Event;
use crate::matches::{Match, is_complete};
use crate::players::Player;
use crate::rounds::Round;
use crate::scores::{Games, Score};
use crate::seats::{NUMBERS, Seats};
use std::marker::Model;

/// The match, with its new score if it is the one that has it.
fn with_new(seat: Match, new: Option<&Match>) -> Match
    ensures { result ≡ with_new seat (option_map (λ m. m.now) new.entry) }
{
    match new {
        Some(scored) if scored.a == seat.a => *scored,
        _ => seat,
    }
}

/// The games of a round as the player saw them, if one of its matches may have a new score.
fn games_in(seats: &Seats<'_>, new: Option<&Match>, player: u16) -> Option<Games>
    requires player { 0 < player }
    requires apart { IfSome (option_map (λ m. m.now) new) (λ m. m.a ≢ m.b) }
    ensures value { (matches : List Match)
        → IsRescored seats.now (option_map (λ m. m.now) new.entry) matches → (round : ℕ)
        → totals_of (flat_map (results_of_match player round) matches)
        ≡ totals_of_games result }
    ensures few { IfSome result AreFew }
{
    let Some(seat) = seats.at(player) else {
        return None;
    };
    games_seen(&with_new(seat, new), player)
}

/// With the games of one round more, if there are any.
fn with_games(totals: Totals, games: Option<Games>) -> Totals
    requires room { (rounds : ℕ) × (rounds < MAX_ROUNDS) × AreOver rounds totals }
    requires few { IfSome games AreFew }
    ensures value { result ≡ plus totals (totals_of_games games) }
    ensures more { (rounds : ℕ) → AreOver rounds totals → AreOver (rounds + 1) result }
{
    match games {
        Some(games) => totals.with(games),
        None => totals,
    }
}

/// Adds the games of a round, of which one match may have a new score, to the totals of all players.
fn add_round(played: &mut [Totals; NUMBERS], seats: &Seats<'_>, new: Option<&Match>)
    requires room { (rounds : ℕ) × (rounds < MAX_ROUNDS) × All (AreOver rounds) played.old }
    requires apart { IfSome (option_map (λ m. m.now) new) (λ m. m.a ≢ m.b) }
    ensures value { (matches : List Match)
        → IsRescored seats.now (option_map (λ m. m.now) new.entry) matches → (round : ℕ)
        → AddsResults (λ player. flat_map (results_of_match player round) matches) played.old
        played.new }
    ensures over { (rounds : ℕ) → All (AreOver rounds) played.old
        → All (AreOver (rounds + 1)) played.new }
{
    for number in 1..NUMBERS {
        played[number] = with_games(played[number], games_in(seats, new, number as u16));
    }
}

/// Adds the games of a round to the totals of all players, if it is complete.
fn count_round(played: &mut [Totals; NUMBERS], matches: &[Match])
    requires seated { IsSeatedOnce matches.now }
    requires room { (rounds : ℕ) × (rounds < MAX_ROUNDS) × All (AreOver rounds) played.old }
    ensures value { (number : ℕ)
        → AddsResults (λ player. complete_results player (number, record { matches = matches.now }))
        played.old played.new }
    ensures over { (rounds : ℕ) → All (AreOver rounds) played.old
        → All (AreOver (rounds + 1)) played.new }
{
    if !is_complete(matches) {
        return;
    }
    let Some(seats) = Seats::of(matches) else {
        unreachable!()
    };
    add_round(played, &seats, None);
}

/// The totals of nobody.
fn none_played() -> [Totals; NUMBERS]
    ensures played { ArePlayed [] result }
    ensures over { All (AreOver 0) result }
{
    [Totals::none(); NUMBERS]
}

/// What the matches of the complete rounds come to, by number.
pub(crate) fn played_in(rounds: &[Round]) -> [Totals; NUMBERS]
    requires few { length rounds.now ≤ MAX_ROUNDS }
    requires seated { All (λ round. IsSeatedOnce round.matches) rounds.now }
    ensures played { ArePlayed rounds.now result }
    ensures over { All (AreOver (length rounds.now)) result }
    ensures long { length result ≡ NUMBERS }
{
    let mut played = none_played();
    for round in rounds {
        count_round(&mut played, round.matches.as_slice());
    }
    played
}

/// Adds the games of a round to the totals of all players, if it is complete once the match of a table has this score.
fn count_scored(played: &mut [Totals; NUMBERS], matches: &[Match], table: usize, score: Score)
    requires table { (1 ≤ table) × (table ≤ length matches.now) }
    requires seated { IsSeatedOnce matches.now }
    requires room { (rounds : ℕ) × (rounds < MAX_ROUNDS) × All (AreOver rounds) played.old }
    ensures value { (number : ℕ)
        → AddsResults (λ player. complete_results player
        (number, record { matches = scored_slot matches.now table score })) played.old played.new }
    ensures over { (rounds : ℕ) → All (AreOver rounds) played.old
        → All (AreOver (rounds + 1)) played.new }
{
    if !is_complete_with(matches, table, score) {
        return;
    }
    let Some(seats) = Seats::of(matches) else {
        unreachable!()
    };
    let scored = match_with(matches, table - 1, table, score);
    add_round(played, &seats, Some(&scored));
}

/// Adds the games of one of the rounds to the totals of all players, if it is complete with the new score.
fn count_at(played: &mut [Totals; NUMBERS], rounds: &[Round], at: usize, new: &NewScore)
    requires within { at < length rounds.now }
    requires table { RoundHasTable rounds.now new.now.place new.now.table }
    requires seated { All (λ round. IsSeatedOnce round.matches) rounds.now }
    requires room { (count : ℕ) × (count < MAX_ROUNDS) × All (AreOver count) played.old }
    ensures value { (round : Round)
        → round ≡ slice_index_or
        (rounds_with_score rounds.now new.now.place new.now.table new.now.score) at
        round → (number : ℕ) → AddsResults (λ player. complete_results player (number, round))
        played.old played.new }
    ensures over { (count : ℕ) → All (AreOver count) played.old
        → All (AreOver (count + 1)) played.new }
{
    let matches = rounds[at].matches.as_slice();
    if at == new.place {
        count_scored(played, matches, new.table, new.score)
    } else {
        count_round(played, matches)
    }
}

/// What the matches of the complete rounds come to with the new score, by number.
fn played_with(rounds: &[Round], new: &NewScore) -> [Totals; NUMBERS]
    requires few { length rounds.now ≤ MAX_ROUNDS }
    requires table { RoundHasTable rounds.now new.now.place new.now.table }
    requires seated { All (λ round. IsSeatedOnce round.matches) rounds.now }
    ensures played { ArePlayed
        (rounds_with_score rounds.now new.now.place new.now.table new.now.score) result }
    ensures over { All (AreOver (length rounds.now)) result }
    ensures long { length result ≡ NUMBERS }
{
    let mut played = none_played();
    for at in 0..rounds.len() {
        count_at(&mut played, rounds, at, new);
    }
    played
}

/// What the matches of the complete rounds come to with one round more, by number.
fn played_with_round(rounds: &[Round], matches: &[Match]) -> [Totals; NUMBERS]
    requires few { length rounds.now < MAX_ROUNDS }
    requires seated { All (λ round. IsSeatedOnce round.matches) rounds.now }
    requires seated_now { IsSeatedOnce matches.now }
    ensures played { ArePlayed (rounds.now ++ record { matches = matches.now } ∷ []) result }
    ensures over { All (AreOver (length rounds.now + 1)) result }
    ensures long { length result ≡ NUMBERS }
{
    let mut played = played_in(rounds);
    count_round(&mut played, matches);
    played
}

/// What the rounds of each player of an event come to, gathered in one pass over the matches.
#[derive(Drop)]
pub struct AllTotals {
    /// What the matches come to, by number.
    played: [Totals; NUMBERS],
    /// How many rounds are complete: no round but the newest can be open.
    complete: usize,
}

impl Model for AllTotals {
    ghost use Rattle.std.specs.Prelude.{◌≤◌, All};
    ghost use Rattle.er_share.specs.declared.TheConstants.{MAX_ROUNDS};
    ghost use Rattle.er_event.specs.Totals.{Gathered};
    ghost use Rattle.er_event.specs.inside.Seen.{AreOver};

    ghost Value = { Gathered };

    ghost view = { λ t. record { played = t.played; complete = t.complete } };

    ghost invariant = { λ t. All (AreOver MAX_ROUNDS) t.played × (t.complete ≤ MAX_ROUNDS) };
}

impl AllTotals {
    /// Those of one player of the event.
    pub fn of(&self, player: &Player) -> Totals
        ensures { result ≡ gathered_of self.now player.now }
    {
        let missed = self.complete.min(usize::from(player.joined));
        self.played[usize::from(player.no.get())].with_missed(missed)
    }
}

impl Event {
    /// The totals of all players, by one pass over the matches. It takes no memory.
    pub fn all_totals(&self) -> AllTotals
        ensures { AreTotals self.now self.now.players result }
    {
        let stored = self.stored();
        AllTotals {
            played: played_in(stored),
            complete: complete_of(stored, stored.len() as u8),
        }
    }

    /// What the matches of the complete rounds come to after a change, by number.
    pub(crate) fn all_played_after(&self, change: &Change) -> [Totals; NUMBERS]
        requires { Fits self.now change.now }
        ensures played { ArePlayed (after self.now change.now).stored result }
        ensures over { All (AreOver MAX_ROUNDS) result }
        ensures long { length result ≡ NUMBERS }
    {
        let stored = self.stored();
        match change {
            Change::AddRound { matches } => played_with_round(stored, matches.as_slice()),
            Change::SetScore {
                round,
                table,
                score,
            } => {
                let new = NewScore {
                    place: usize::from(*round) - 1,
                    table: usize::from(*table),
                    score: *score,
                };
                played_with(stored, &new)
            }
            Change::AddPlayer { .. }
            | Change::SetDropped { .. }
            | Change::SetPhase { .. }
            | Change::AddBracket { .. }
            | Change::SetBracketScore { .. } => played_in(stored),
        }
    }

    /// The same as `all_totals` after a change, of the players before it. It takes no memory either.
    pub fn all_totals_after(&self, change: &Change) -> AllTotals
        requires { Fits self.now change.now }
        ensures { AreTotals (after self.now change.now) self.now.players result }
    {
        AllTotals {
            played: self.all_played_after(change),
            complete: self.complete_after(change, self.stored().len() as u8),
        }
    }
}
