ghost use Rattle.std.specs.Prelude.{◌≡◌, ◌↔◌, ◌-◌, ◌==◌, ◌||◌, ◌&&◌, nat_le, not, is_some, length, take, IsTrue, IfOk};
ghost use Rattle.std.specs.List.{list_all, list_any, range_with_len};
ghost use Rattle.er_event.specs.declared.events.Phase.TheVariants.{Swiss};
ghost use Rattle.er_event.specs.Round.{is_bye, is_complete, is_same_pairing};
ghost use Rattle.er_event.specs.Sound.{IsRound, AreRounds};
ghost use Rattle.er_event.specs.inside.Reading.{MayFollow, is_absent, is_absent_from_missed};

use crate::items::Items;
use crate::matches::{Match, are_lawful, are_seated_once, is_complete};
use crate::players::Player;
use crate::seats::Seats;
use std::alloc::{AllocError, Global};

/// A Swiss round: the matches of tables 1, 2, .., and then the bye, if there is one.
#[derive(Drop)]
pub struct Round {
    pub matches: Items<Match>,
}

impl Round {
    /// Whether each match has its score.
    pub fn is_complete(&self) -> bool
        ensures { result ≡ is_complete self.now.matches }
    {
        is_complete(self.matches.as_slice())
    }

    pub fn copy(&self, alloc: Global) -> Result<Round, AllocError>
        ensures { IfOk result (λ copy. copy ≡ self.now) }
    {
        Ok(Round {
            matches: self.matches.copy(alloc)?,
        })
    }
}

/// Whether no match but the last is a bye.
fn is_bye_last(matches: &[Match]) -> bool
    ensures { result ≡ list_all (λ m. not (is_bye m)) (take (length matches.now - 1) matches.now) }
{
    let earlier = matches.len().saturating_sub(1);
    matches[..earlier].iter().all(|played| !played.is_bye())
}

/// Whether the matches may be a Swiss round of `count` players.
fn is_round(count: u16, matches: &[Match]) -> bool
    ensures { IsTrue result ↔ IsRound (range_with_len 1 count) matches.now }
{
    if matches.is_empty() || !are_lawful(count, matches) {
        return false;
    }
    if !are_seated_once(matches) {
        return false;
    }
    is_bye_last(matches)
}

/// Whether one of the matches is of two who are paired in the new round, or of the player who has the bye there.
fn has_repeat(matches: &[Match], new: &Seats<'_>) -> bool
    ensures { result ≡ list_any (λ m. list_any (λ n. is_same_pairing m n) new.now) matches.now }
{
    matches.iter().any(|played| new.has_pairing(played))
}

/// Whether one of the stored rounds has such a match.
fn have_repeat(stored: &[Round], new: &Seats<'_>) -> bool
    ensures { result ≡ list_any (λ r. list_any (λ m. list_any (λ n. is_same_pairing m n) new.now)
        r.matches) stored.now }
{
    stored
        .iter()
        .any(|round| has_repeat(round.matches.as_slice(), new))
}

/// Whether nobody meets an opponent, or has a bye, again.
fn are_new(stored: &[Round], new: &Seats<'_>) -> bool
    ensures { result ≡ list_all (λ m.
        not (list_any (λ r. list_any (λ n. is_same_pairing n m) r.matches) stored.now)) new.now }
{
    !have_repeat(stored, new)
}

/// Whether each match of the rounds has a score.
pub(crate) fn are_counted(stored: &[Round]) -> bool
    ensures { result ≡ list_all (λ r. is_complete r.matches) stored.now }
{
    stored.iter().all(|round| round.is_complete())
}

/// Whether a round of these matches may come after the earlier rounds, with `count` players.
pub(crate) fn may_follow(count: u16, earlier: &[Round], matches: &[Match]) -> bool
    ensures { IsTrue result ↔ MayFollow (range_with_len 1 count) earlier.now matches.now }
{
    if !are_counted(earlier) {
        return false;
    }
    if !is_round(count, matches) {
        return false;
    }
    match Seats::of(matches) {
        Some(new) => are_new(earlier, &new),
        None => false,
    }
}

/// Whether each round may come after those before it, with `count` players.
pub(crate) fn are_rounds(count: u16, rounds: &[Round]) -> bool
    ensures { IsTrue result
        ↔ AreRounds Swiss (length rounds.now) (range_with_len 1 count) rounds.now }
{
    for (place, round) in rounds.iter().enumerate() {
        if !may_follow(count, &rounds[..place], round.matches.as_slice()) {
            return false;
        }
    }
    true
}

/// Whether nobody of this number sits at the matches.
fn is_absent(matches: &[Match], player: u16) -> bool
    ensures { result ≡ is_absent player matches.now }
{
    matches
        .iter()
        .all(|played| played.a != player && played.b != player)
}

/// Whether nobody of this number sits in the rounds.
fn is_away(rounds: &[Round], player: u16) -> bool
    ensures { result ≡ list_all (λ r. is_absent player r.matches) rounds.now }
{
    rounds
        .iter()
        .all(|round| is_absent(round.matches.as_slice(), player))
}

/// Whether the rounds that the player missed are stored, and the player sits in none of them.
fn has_missed(rounds: &[Round], player: &Player) -> bool
    ensures { result ≡ is_absent_from_missed rounds.now player.now }
{
    let joined = usize::from(player.joined);
    if joined > rounds.len() {
        return false;
    }
    is_away(&rounds[..joined], player.no.get())
}

/// Whether the rounds that each player missed are stored, and nobody sits in a round that they missed.
pub(crate) fn have_missed(rounds: &[Round], players: &[Player]) -> bool
    ensures { result ≡ list_all (is_absent_from_missed rounds.now) players.now }
{
    players.iter().all(|player| has_missed(rounds, player))
}
