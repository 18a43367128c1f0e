ghost use Rattle.std.specs.Prelude.{◌≡◌, ◌↔◌, ◌≤◌, ◌<◌, None, option_map, length, take, slice_set, Contains, IsTrue, if◌then◌else◌};
ghost use Rattle.er_event.specs.Change.{with_player, with_dropped, with_phase, with_round, with_bracket, IsEnd, Fits};
ghost use Rattle.er_event.specs.Sound.{numbers, IsSoundButForSeeds};
ghost use Rattle.er_event.specs.declared.changes.Change.{Change};
ghost use Rattle.er_event.specs.declared.events.Phase.{Phase};

use super::{Event, Phase};
use crate::brackets::{are_lawful, follows, is_bracket, is_decided, is_over, may_be_last};
use crate::changes::Change;
use crate::items::Items;
use crate::matches::Match;
use crate::names::Name;
use crate::players::{MAX_PLAYERS, PlayerNo, has_name, is_nobody_dropped};
use crate::rounds::may_follow;
use crate::scores::{Score, is_playoff, is_swiss};
use std::slice::from_ref;

/// How many slots a stage may have.
const MAX_SLOTS: usize = 4;

const OPEN: Match = Match {
    a: 0,
    b: 0,
    score: None,
};

/// The stage with this match in its place, and open matches after it.
fn with_match(stage: &[Match], at: usize, played: Match) -> [Match; MAX_SLOTS]
    requires few { length stage.now ≤ MAX_SLOTS }
    requires within { at < length stage.now }
    ensures { take (length stage.now) result ≡ slice_set stage.now at played }
{
    let mut slots = [OPEN; MAX_SLOTS];
    slots[..stage.len()].copy_from_slice(stage);
    slots[at] = played;
    slots
}

/// Whether the stage may be the last, of a playoff that is over or not.
fn may_end(stage: &[Match], over: bool) -> bool
    ensures { IsTrue result ↔ IsEnd stage.now None over }
{
    may_be_last(stage) && over == is_over(stage)
}

/// Whether the stage, and the next one if there is one, may be the last of a playoff that is over or not.
fn is_end(stage: &[Match], next: Option<&Items<Match>>, over: bool) -> bool
    ensures { IsTrue result ↔ IsEnd stage.now (option_map (λ m. m.now) next.entry) over }
{
    let Some(next) = next else {
        return may_end(stage, over);
    };
    if !follows(stage, next.as_slice()) || !are_lawful(next.as_slice()) {
        return false;
    }
    may_end(next.as_slice(), over)
}

/// The phase after a change of the playoff that ends it or not.
pub(super) fn phase_after(finished: bool, phase: Phase) -> Phase
    ensures { result ≡ (if finished then Phase.Finished else phase) }
{
    if finished { Phase::Finished } else { phase }
}

impl Event {
    fn fits_player(&self, name: &Name) -> bool
        ensures { IsTrue result ↔ IsSoundButForSeeds (with_player self.now name.now) }
    {
        let players = self.players();
        players.len() < usize::from(MAX_PLAYERS) && !has_name(players, name)
    }

    fn fits_dropped(&self, player: PlayerNo) -> bool
        ensures { IsTrue result
            ↔ (Contains (numbers self.now.players) player
            × IsSoundButForSeeds (with_dropped self.now player)) }
    {
        match self.phase() {
            Phase::Enrolling => false,
            _ => usize::from(player.get()) <= self.players().len(),
        }
    }

    fn fits_phase(&self, phase: Phase) -> bool
        ensures { IsTrue result ↔ IsSoundButForSeeds (with_phase self.now phase) }
    {
        let now = self.phase();
        if now == phase {
            return true;
        }
        match (now, phase) {
            (Phase::Enrolling, Phase::Swiss) => self.players().len() >= 2,
            (Phase::Swiss, Phase::Enrolling) => self.stored().is_empty()
                && is_nobody_dropped(self.players()),
            _ => false,
        }
    }

    fn fits_round(&self, matches: &[Match]) -> bool
        ensures { IsTrue result ↔ IsSoundButForSeeds (with_round self.now matches.now) }
    {
        if self.phase() != Phase::Swiss || self.stored().len() >= usize::from(self.rounds) {
            return false;
        }
        may_follow(self.players().len() as u16, self.stored(), matches)
    }

    fn fits_score(&self, round: u8, table: u16, score: Score) -> bool
        ensures { IsTrue result ↔ Fits self.now (Change.SetScore round table score) }
    {
        match self.match_at(round, table) {
            Some(played) => !played.is_bye() && is_swiss(score),
            None => false,
        }
    }

    /// Whether the event is sound after the change, and has the player, or the match of two players, that the change names. It takes no
    /// memory.
    pub fn fits(&self, change: &Change) -> bool
        ensures { IsTrue result ↔ Fits self.now change.now }
    {
        match change {
            Change::AddPlayer { name } => self.fits_player(name),
            Change::SetDropped { player } => self.fits_dropped(*player),
            Change::SetPhase { phase } => self.fits_phase(*phase),
            Change::AddRound { matches } => self.fits_round(matches.as_slice()),
            Change::SetScore {
                round,
                table,
                score,
            } => self.fits_score(*round, *table, *score),
            Change::AddBracket { matches } => self.fits_bracket(matches),
            Change::SetBracketScore {
                stage,
                slot,
                score,
                next,
                finished,
            } => self.fits_bracket_score(*stage, *slot, *score, next.as_ref(), *finished),
        }
    }

    /// Whether the playoff is over after a change that ends it or not.
    fn is_over_after(&self, finished: bool) -> bool
        ensures { IsTrue result
            ↔ ((if finished then Phase.Finished else self.now.phase) ≡ Phase.Finished) }
    {
        phase_after(finished, self.phase()) == Phase::Finished
    }

    fn fits_bracket(&self, matches: &Items<Match>) -> bool
        ensures { IsTrue result ↔ IsSoundButForSeeds (with_bracket self.now matches.now) }
    {
        if !self.bracket.stages.as_slice().is_empty() || !self.has_all_rounds() {
            return false;
        }
        let stages = from_ref(matches);
        if !is_bracket(self.players().len() as u16, self.cut, stages) {
            return false;
        }
        !is_decided(stages)
    }

    fn fits_bracket_score(
        &self,
        stage: u8,
        slot: u8,
        score: Score,
        next: Option<&Items<Match>>,
        finished: bool,
    ) -> bool
        ensures { IsTrue result
            ↔ Fits self.now (Change.SetBracketScore stage slot score
            (option_map (λ m. m.now) next.entry) finished) }
    {
        let stages = self.bracket.stages.as_slice();
        let Some(played) = self.slot_at(stage, slot) else {
            return false;
        };
        if !is_playoff(score) {
            return false;
        }
        let over = self.is_over_after(finished);
        let matches = stages[usize::from(stage) - 1].as_slice();
        let slots = with_match(
            matches,
            usize::from(slot) - 1,
            Match {
                score: Some(score),
                ..*played
            },
        );
        let scored = &slots[..matches.len()];
        let Some(later) = stages.get(usize::from(stage)) else {
            return is_end(scored, next, over);
        };
        if next.is_some() || !follows(scored, later.as_slice()) {
            return false;
        }
        over == is_decided(stages)
    }
}
