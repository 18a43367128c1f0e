ghost use Rattle.std.specs.Prelude.{◌≡◌, ◌≢◌, ◌↔◌, ◌≤◌, ◌<◌, ◌==◌, ◌||◌, None, Ok, Err, IsTrue, IsFalse, IsOk, IfOk, IfErr, IfSome};
ghost use Rattle.std.specs.Prelude.{option_map, length, find, List};
ghost use Rattle.er_event.specs.declared.scores.Games.{Games};
ghost use Rattle.er_event.specs.Round.{is_bye, match_at};
ghost use Rattle.er_event.specs.Bracket.{slot_at, stage_after, is_over};
ghost use Rattle.er_event.specs.Score.{is_swiss_score, is_playoff_score};
ghost use Rattle.er_event.specs.Sound.{AreLimits, AllRoundsDone, IsSoundButForSeeds};
ghost use Rattle.er_event.specs.Change.{initial_event, has_name, stage_of, scored_slot, Fits, IsNextRound, IsOpening};
ghost use Rattle.er_event.specs.declared.matches.Match.{Match};

mod apply;
mod copy;
mod fits;
mod parts;

use crate::brackets::{Bracket, slot_in};
use crate::changes::Change;
use crate::items::Items;
use crate::matches::{Match, match_in};
use crate::names::Name;
use crate::players::{MAX_PLAYERS, Player, has_name, player_of};
use crate::refusals::Refusal;
use crate::rounds::{Round, are_counted};
use er_share::MAX_ROUNDS;
pub use parts::{Parts, PartsFault};
use std::alloc::{AllocError, Global};
use std::marker::Model;

/// Where an event is.
#[derive(Clone, Copy, Debug, PartialEq, Eq)]
pub enum Phase {
    Enrolling,
    Swiss,
    Playoff,
    Finished,
}

impl Phase {
    ghost use Rattle.std.specs.Prelude.{◌≡◌};
    ghost use Rattle.er_event.specs.Rows.{phase_code};

    /// The number that stands for the phase in the event's row.
    pub fn code(self) -> u8
        ensures { result ≡ phase_code self }
    {
        match self {
            Phase::Enrolling => 0,
            Phase::Swiss => 1,
            Phase::Playoff => 2,
            Phase::Finished => 3,
        }
    }
}

/// Whether an event may be set up with `rounds` Swiss rounds and this cut.
pub(crate) fn is_setup(rounds: u8, cut: u8) -> bool
    ensures { IsTrue result ↔ AreLimits rounds cut }
{
    (1..=MAX_ROUNDS).contains(&rounds) && matches!(cut, 0 | 2 | 4 | 8)
}

/// One tournament. Each value is sound, save that the playoff may seed any of its players.
#[derive(Drop)]
pub struct Event {
    name: Name,
    rounds: u8,
    cut: u8,
    phase: Phase,
    players: Vec<Player>,
    stored: Vec<Round>,
    bracket: Bracket,
}

impl Model for Event {
    ghost use Rattle.er_event.specs.Event.{EventValue};

    ghost Value = { EventValue };

    ghost use Rattle.er_event.specs.inside.EventFields.{event_value, IsSoundInside};

    ghost view = { event_value };

    ghost invariant = { IsSoundInside };
}

impl Event {
    /// An event with no player, whose Swiss rounds are 1 to 12, and whose playoff is of 2, 4 or 8 players, or 0 for none. It takes no
    /// memory.
    pub fn create(alloc: Global, name: Name, rounds: u8, cut: u8) -> Result<Event, Refusal>
        ensures value { IfOk result (λ e. e ≡ initial_event name rounds cut) }
        ensures within { IsOk result ↔ AreLimits rounds cut }
        ensures refused { IfErr result (λ why. why ≡ Refusal.BadSetup) }
        ensures sound { IfOk result IsSoundButForSeeds }
    {
        if !is_setup(rounds, cut) {
            return Err(Refusal::BadSetup);
        }
        Ok(Event {
            name,
            rounds,
            cut,
            phase: Phase::Enrolling,
            players: Vec::new(alloc),
            stored: Vec::new(alloc),
            bracket: Bracket {
                stages: Items::new(alloc),
            },
        })
    }

    pub fn name(&self) -> &Name
        ensures value { result.now ≡ self.now.name }
    {
        &self.name
    }

    pub fn rounds(&self) -> u8
        ensures value { result ≡ self.now.rounds }
        ensures within { (1 ≤ result) × (result ≤ MAX_ROUNDS) }
    {
        self.rounds
    }

    /// How many players go to the playoff, or 0 if there is none. Once all Swiss rounds are complete, the playoff may begin with a stage of
    /// that many players.
    pub fn cut(&self) -> u8
        ensures value { result ≡ self.now.cut }
        ensures fits { (matches : List Match) → IsOpening self.now matches
            → Fits self.now (Change.AddBracket matches) }
    {
        self.cut
    }

    pub fn phase(&self) -> Phase
        ensures value { result ≡ self.now.phase }
        ensures sound { IsSoundButForSeeds self.now }
    {
        self.phase
    }

    /// The players by number.
    pub fn players(&self) -> &[Player]
        ensures value { result.now ≡ self.now.players }
        ensures sound { IsSoundButForSeeds self.now }
    {
        self.players.as_slice()
    }

    /// Whether a player has this name. If none has and there is room, a player of the name fits the event.
    pub fn has_name(&self, name: &Name) -> bool
        ensures value { result ≡ has_name self.now.players name.now }
        ensures fits { IsFalse result → length self.now.players < MAX_PLAYERS
            → Fits self.now (Change.AddPlayer name.now) }
    {
        has_name(self.players(), name)
    }

    /// The player of this number, who can drop once the event has started.
    pub fn player(&self, number: u16) -> Option<&Player>
        ensures value { option_map (λ p. p.now) result
            ≡ find (λ p. p.no == number) self.now.players }
        ensures found { IfSome result (λ p. p.now.no ≡ number) }
        ensures fits { IfSome result (λ p. self.now.phase ≢ Phase.Enrolling
            → Fits self.now (Change.SetDropped p.now.no)) }
    {
        player_of(self.players(), number)
    }

    /// The Swiss rounds that were paired. They tell which round may come next.
    pub fn stored(&self) -> &[Round]
        ensures value { result.now ≡ self.now.stored }
        ensures sound { IsSoundButForSeeds self.now }
        ensures fits { (matches : List Match) → IsNextRound self.now matches
            → Fits self.now (Change.AddRound matches) }
    {
        self.stored.as_slice()
    }

    /// The match of a table of a Swiss round. Tables are numbered from 1, and a bye has table 0. A match of two players takes each
    /// score that is lawful in a Swiss round.
    pub fn match_at(&self, round: u8, table: u16) -> Option<&Match>
        ensures value { option_map (λ m. m.now) result ≡ match_at self.now round table }
        ensures fits { IfSome result (λ m. IsFalse (is_bye m.now) → (score : Games)
            → IsTrue (is_swiss_score score)
            → Fits self.now (Change.SetScore round table score)) }
    {
        if round == 0 {
            return None;
        }
        let round = self.stored().get(usize::from(round) - 1)?;
        match_in(round.matches.as_slice(), table)
    }

    /// Whether all Swiss rounds are paired and complete.
    fn has_all_rounds(&self) -> bool
        ensures { IsTrue result ↔ AllRoundsDone self.now }
    {
        if self.stored().len() != usize::from(self.rounds) {
            return false;
        }
        are_counted(self.stored())
    }

    /// The playoff, which has no stage before the cut.
    pub fn bracket(&self) -> &Bracket
        ensures value { result.now ≡ self.now.bracket }
        ensures sound { IsSoundButForSeeds self.now }
    {
        &self.bracket
    }

    /// The match of a slot of a stage of the playoff, both numbered from 1. An open match takes each score that is lawful in the playoff,
    /// with the stage that follows, and ends the playoff if it was the final.
    pub fn slot_at(&self, stage: u8, slot: u8) -> Option<&Match>
        ensures value { option_map (λ m. m.now) result ≡ slot_at self.now stage slot }
        ensures fits { IfSome result (λ m. m.now.score ≡ None → (score : Games)
            → IsTrue (is_playoff_score score)
            → Fits self.now (Change.SetBracketScore stage slot score
            (stage_after (scored_slot (stage_of self.now.bracket.stages stage) slot score))
            (is_over (scored_slot (stage_of self.now.bracket.stages stage) slot score)))) }
    {
        slot_in(self.bracket.stages.as_slice(), stage, slot)
    }
}
