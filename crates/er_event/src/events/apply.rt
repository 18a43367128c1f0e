ghost use Rattle.std.specs.Prelude.{◌≡◌, ◌≤◌, ◌<◌, ◌-◌, ◌++◌, Some, option_map, length, map, slice_get, slice_set, Contains, IsErr, IfOk};
ghost use Rattle.std.specs.Prelude.{IfErr, OnOk};
ghost use Rattle.std.specs.List.{range_with_len};
ghost use Rattle.er_event.specs.Bracket.{slot_in};
ghost use Rattle.er_event.specs.Change.{after, with_player, with_dropped, with_phase, with_round, with_score, with_bracket};
ghost use Rattle.er_event.specs.Change.{with_bracket_score, dropped_at, match_with_score, stage_of, scored_slot, one_more, Fits};
ghost use Rattle.er_event.specs.Change.{GrowsEvent};
ghost use Rattle.er_event.specs.Sound.{numbers, IsSoundButForSeeds};
ghost use Rattle.er_event.specs.declared.changes.Change.{Change};
ghost use Rattle.er_event.specs.declared.matches.Match.{Match};

use super::fits::phase_after;
use super::{Event, Phase};
use crate::changes::Change;
use crate::items::Items;
use crate::matches::Match;
use crate::names::Name;
use crate::players::{Player, PlayerNo};
use crate::rounds::Round;
use crate::scores::Score;
use std::alloc::{AllocError, Global};

/// Drops the player of this number, among players who are numbered from 1.
fn drop_listed(players: &mut Vec<Player>, player: PlayerNo)
    requires numbered { numbers players.old.items ≡ range_with_len 1 (length players.old.items) }
    requires listed { player ≤ length players.old.items }
    ensures { players.new.items ≡ map (dropped_at player) players.old.items }
{
    let listed = &mut players[usize::from(player.get()) - 1];
    listed.dropped = true;
}

/// Sets the score of the match at this place.
fn score_match(matches: &mut Items<Match>, at: usize, score: Score)
    requires { at < length matches.old }
    ensures { (m : Match) → slice_get matches.old at ≡ Some m
        → matches.new ≡ slice_set matches.old at (match_with_score score m) }
{
    let played = matches.as_slice()[at];
    let score = Some(score);
    matches.set(at, Match { score, ..played });
}

/// A copy of the stage that follows, if there is one.
fn copy_next(alloc: Global, next: Option<&Items<Match>>) -> Result<Option<Items<Match>>, AllocError>
    ensures { IfOk result (λ copy. copy ≡ option_map (λ m. m.now) next.entry) }
{
    match next {
        Some(next) => Ok(Some(next.copy(alloc)?)),
        None => Ok(None),
    }
}

/// Puts the stage that follows, if there is one, after the others.
fn add_next(stages: &mut Items<Items<Match>>, next: Option<Items<Match>>) -> Result<(), AllocError>
    ensures ok { OnOk result (stages.new ≡ stages.old ++ one_more next) }
    ensures err { IfErr result (λ _. stages.new ≡ stages.old) }
{
    match next {
        Some(next) => stages.append(next),
        None => Ok(()),
    }
}

/// Sets the score of the match in this slot of this stage.
fn score_slot(stages: &mut Items<Items<Match>>, stage: u8, slot: u8, score: Score)
    requires { (m : Match) × (slot_in stages.old stage slot ≡ Some m) }
    ensures { stages.new ≡ slice_set stages.old (stage - 1)
        (scored_slot (stage_of stages.old stage) slot score) }
{
    let row = usize::from(stage) - 1;
    let at = usize::from(slot) - 1;
    let played = stages.as_slice()[row].as_slice()[at];
    let score = Some(score);
    stages.set_in(row, at, Match { score, ..played });
}

impl Event {
    fn add_player(mut self, name: Name) -> Result<Event, (Event, AllocError)>
        requires { IsSoundButForSeeds (with_player self name) }
        ensures ok { IfOk result (λ e. e ≡ with_player self name) }
        ensures err { IfErr result (λ e. e.0 ≡ self) }
    {
        let Some(no) = PlayerNo::try_new(self.players.len() as u16 + 1) else {
            unreachable!()
        };
        let player = Player {
            no,
            name,
            dropped: false,
            joined: self.stored.len() as u8,
        };
        match self.players.push(player) {
            Ok(()) => Ok(self),
            Err(failed) => Err((self, AllocError::from(failed))),
        }
    }

    fn drop_player(mut self, player: PlayerNo) -> Event
        requires { Contains (numbers self.players) player
            × IsSoundButForSeeds (with_dropped self player) }
        ensures { result ≡ with_dropped self player }
    {
        drop_listed(&mut self.players, player);
        self
    }

    fn enter(mut self, phase: Phase) -> Event
        requires { IsSoundButForSeeds (with_phase self phase) }
        ensures { result ≡ with_phase self phase }
    {
        self.phase = phase;
        self
    }

    fn add_round(mut self, round: Round) -> Result<Event, (Event, AllocError)>
        requires { IsSoundButForSeeds (with_round self round.matches) }
        ensures ok { IfOk result (λ e. e ≡ with_round self round.matches) }
        ensures err { IfErr result (λ e. e.0 ≡ self) }
    {
        match self.stored.push(round) {
            Ok(()) => Ok(self),
            Err(failed) => Err((self, AllocError::from(failed))),
        }
    }

    fn set_score(mut self, round: u8, table: u16, score: Score) -> Event
        requires { Fits self (Change.SetScore round table score) }
        ensures { result ≡ with_score self round table score }
    {
        let listed = &mut self.stored[usize::from(round) - 1];
        score_match(&mut listed.matches, usize::from(table) - 1, score);
        self
    }

    /// Returns the event after the change, or the event as it was if memory runs out, which is only if the change takes some.
    pub fn apply(self, alloc: Global, change: &Change) -> Result<Event, (Event, AllocError)>
        requires { Fits self change.now }
        ensures ok { IfOk result (λ e. e ≡ after self change.now) }
        ensures err { IfErr result (λ e. e.0 ≡ self) }
        ensures memory { IsErr result → GrowsEvent change.now }
    {
        match change {
            Change::AddPlayer { name } => self.add_player(*name),
            Change::SetDropped { player } => Ok(self.drop_player(*player)),
            Change::SetPhase { phase } => Ok(self.enter(*phase)),
            Change::AddRound { matches } => match matches.copy(alloc) {
                Ok(matches) => self.add_round(Round { matches }),
                Err(error) => Err((self, error)),
            },
            Change::SetScore {
                round,
                table,
                score,
            } => Ok(self.set_score(*round, *table, *score)),
            Change::AddBracket { matches } => match matches.copy(alloc) {
                Ok(matches) => self.add_bracket(matches),
                Err(error) => Err((self, error)),
            },
            Change::SetBracketScore {
                stage,
                slot,
                score,
                next,
                finished,
            } => match copy_next(alloc, next.as_ref()) {
                Ok(next) => self.set_bracket_score(*stage, *slot, *score, next, *finished),
                Err(error) => Err((self, error)),
            },
        }
    }

    fn add_bracket(mut self, matches: Items<Match>) -> Result<Event, (Event, AllocError)>
        requires { IsSoundButForSeeds (with_bracket self matches) }
        ensures ok { IfOk result (λ e. e ≡ with_bracket self matches) }
        ensures err { IfErr result (λ e. e.0 ≡ self) }
    {
        match self.bracket.stages.append(matches) {
            Ok(()) => {
                self.phase = Phase::Playoff;
                Ok(self)
            }
            Err(error) => Err((self, error)),
        }
    }

    fn set_bracket_score(
        mut self,
        stage: u8,
        slot: u8,
        score: Score,
        next: Option<Items<Match>>,
        finished: bool,
    ) -> Result<Event, (Event, AllocError)>
        requires { Fits self (Change.SetBracketScore stage slot score next finished) }
        ensures ok { IfOk result (λ e. e ≡ with_bracket_score self stage slot score next finished) }
        ensures err { IfErr result (λ e. e.0 ≡ self) }
    {
        if let Err(error) = add_next(&mut self.bracket.stages, next) {
            return Err((self, error));
        }
        score_slot(&mut self.bracket.stages, stage, slot, score);
        self.phase = phase_after(finished, self.phase);
        Ok(self)
    }
}
