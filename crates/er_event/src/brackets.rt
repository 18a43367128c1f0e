ghost use Rattle.std.specs.Prelude.{◌≡◌, ◌≢◌, ◌↔◌, ◌<◌, ◌/◌, ◌&&◌, IsTrue, All, AllPairs, Contains, IfOk, flat_map, length, option_map};
ghost use Rattle.std.specs.List.{list_all, range_with_len};
ghost use Rattle.er_event.specs.Match.{is_known, is_lawful_slot_score};
ghost use Rattle.er_event.specs.Round.{is_complete, seats};
ghost use Rattle.er_event.specs.Sound.{IsBracket};
ghost use Rattle.er_event.specs.Bracket.{slot_in, next_stage, SameSlots, FollowOn, IsDecided, is_over};

use crate::items::Items;
use crate::matches::{Match, are_seated_once, is_complete, is_known};
use crate::scores::is_playoff;
use std::alloc::{AllocError, Global};

/// The playoff: the matches of each stage by slot.
#[derive(Drop)]
pub struct Bracket {
    pub stages: Items<Items<Match>>,
}

/// Whether the stage was the final, and is played.
pub fn is_over(stage: &[Match]) -> bool
    ensures { result ≡ is_over stage.now }
{
    is_complete(stage) && stage.len() == 1
}

/// Whether the stage may be the last: if it is complete, it was the final.
pub(crate) fn may_be_last(stage: &[Match]) -> bool
    ensures { IsTrue result ↔ (IsTrue (is_complete stage.now) → length stage.now ≡ 1) }
{
    !is_complete(stage) || stage.len() == 1
}

/// Whether each score is lawful in the playoff.
pub(crate) fn are_lawful(stage: &[Match]) -> bool
    ensures { result ≡ list_all (λ m. is_lawful_slot_score m.score) stage.now }
{
    stage.iter().all(|played| played.score.is_none_or(|score| is_playoff(score)))
}

fn are_all_lawful(stages: &[Items<Match>]) -> bool
    ensures { result ≡ list_all (λ stage. list_all (λ m. is_lawful_slot_score m.score) stage)
        stages.now }
{
    stages.iter().all(|stage| are_lawful(stage.as_slice()))
}

/// Whether each slot of the next stage has the winners of two slots of this one.
fn has_winners(stage: &[Match], next: &[Match]) -> bool
    ensures { IsTrue result ↔ SameSlots next.now (next_stage stage.now) }
{
    if next.len() != stage.len() / 2 {
        return false;
    }
    for (place, played) in next.iter().enumerate() {
        let first = stage[2 * place].winner();
        let second = stage[2 * place + 1].winner();
        if played.a != first || played.b != second {
            return false;
        }
    }
    true
}

/// Whether the next stage may come after this one.
pub(crate) fn follows(stage: &[Match], next: &[Match]) -> bool
    ensures { IsTrue result
        ↔ (IsTrue (is_complete stage.now) × (1 < length stage.now)
        × SameSlots next.now (next_stage stage.now)) }
{
    is_complete(stage) && stage.len() > 1 && has_winners(stage, next)
}

fn follow_on(stages: &[Items<Match>]) -> bool
    ensures { IsTrue result ↔ FollowOn stages.now }
{
    for (place, stage) in stages.iter().enumerate() {
        let stands = match stages.get(place + 1) {
            Some(next) => follows(stage.as_slice(), next.as_slice()),
            None => may_be_last(stage.as_slice()),
        };
        if !stands {
            return false;
        }
    }
    true
}

fn are_known(count: u16, first: &[Match]) -> bool
    ensures { result ≡ list_all (λ m. is_known count m.a && is_known count m.b) first.now }
{
    first.iter().all(|played| is_known(count, played.a) && is_known(count, played.b))
}

/// Whether the stage has the slots for `cut` players, who are among the event's `count`, and sit in one slot each.
fn is_first(count: u16, cut: u8, first: &[Match]) -> bool
    ensures { IsTrue result
        ↔ ((length first.now ≡ cut / 2)
        × All (λ no. Contains (range_with_len 1 count) no) (flat_map seats first.now)
        × AllPairs (λ p q. p ≢ q) (flat_map seats first.now)) }
{
    if first.len() != usize::from(cut / 2) || !are_known(count, first) {
        return false;
    }
    are_seated_once(first)
}

/// Whether the stages may be the bracket of an event of `count` players, of whom `cut` play it.
pub(crate) fn is_bracket(count: u16, cut: u8, stages: &[Items<Match>]) -> bool
    ensures { IsTrue result ↔ IsBracket (range_with_len 1 count) cut stages.now }
{
    let Some(first) = stages.first() else {
        return false;
    };
    if cut == 0 || !is_first(count, cut, first.as_slice()) {
        return false;
    }
    if !are_all_lawful(stages) {
        return false;
    }
    follow_on(stages)
}

/// Whether the final is played.
pub(crate) fn is_decided(stages: &[Items<Match>]) -> bool
    ensures { IsTrue result ↔ IsDecided stages.now }
{
    match stages.last() {
        Some(last) => is_over(last.as_slice()),
        None => false,
    }
}

fn copy_stages(alloc: Global, stages: &[Items<Match>]) -> Result<Vec<Items<Match>>, AllocError>
    ensures { IfOk result (λ copies. copies.items ≡ stages.now) }
{
    let mut copies = Vec::with_capacity(alloc, stages.len())?;
    for stage in stages {
        copies.push(stage.copy(alloc)?)?;
    }
    Ok(copies)
}

impl Bracket {
    pub fn copy(&self, alloc: Global) -> Result<Bracket, AllocError>
        ensures { IfOk result (λ copy. copy ≡ self.now) }
    {
        let stages = copy_stages(alloc, self.stages.as_slice())?;
        Ok(Bracket {
            stages: Items::from(stages),
        })
    }
}

/// The match of a slot of a stage, both numbered from 1.
pub(crate) fn slot_in(stages: &[Items<Match>], stage: u8, slot: u8) -> Option<&Match>
    ensures { option_map (λ m. m.now) result ≡ slot_in stages.now stage slot }
{
    if stage == 0 || slot == 0 {
        return None;
    }
    let matches = stages.get(usize::from(stage) - 1)?;
    matches.as_slice().get(usize::from(slot) - 1)
}
