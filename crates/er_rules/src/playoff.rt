ghost use Rattle.std.specs.Prelude.{◌≡◌, ◌⊎◌, ◌<◌, ◌≤◌, ◌≢◌, length, List, All, IfOk, IfErr, OnOk, IfSome, None, Some, Ok, IsTrue, IsFalse};
ghost use Rattle.std.specs.List.{list_all};
ghost use Rattle.er_event.specs.Round.{is_complete};
ghost use Rattle.er_event.specs.Bracket.{slot_at, stage_after, is_over};
ghost use Rattle.er_event.specs.Change.{after, scored_slot, Fits, IsOpening};
ghost use Rattle.er_event.specs.Score.{is_playoff_score};
ghost use Rattle.er_event.specs.Sound.{AllRoundsDone, IsSoundButForSeeds};
ghost use Rattle.er_event.specs.declared.events.Phase.TheVariants.{Swiss, Playoff};
ghost use Rattle.er_event.specs.declared.commands.Command.TheVariants.{Cut};
ghost use Rattle.er_rules.specs.Commands.{active, all_rounds_done, first_refusal, cut_checks, playoff_checks};
ghost use Rattle.er_rules.specs.Refusing.{IsOfRules};
ghost use Rattle.er_rules.specs.Step.{Steps, scored_at};

use crate::pairing::active_count;
use er_bracket::{first_stage, next_stage};
use er_event::{
    Change, Event, Games, Items, Match, Phase, Refusal, Round, Score, is_complete, is_over,
};
use er_rank::top;
use std::alloc::{AllocError, Global};

fn are_complete(rounds: &[Round]) -> bool
    ensures { result ≡ list_all (λ r. is_complete r.matches) rounds.now }
{
    rounds.iter().all(|round| round.is_complete())
}

/// Whether all Swiss rounds are paired and complete.
fn are_rounds_done(event: &Event) -> bool
    ensures { result ≡ all_rounds_done event.now }
{
    if event.stored().len() != usize::from(event.rounds()) {
        return false;
    }
    are_complete(event.stored())
}

/// The checks of a cut, in their order.
fn check_cut(event: &Event) -> Result<(), Refusal>
    ensures accepted { OnOk result (first_refusal (cut_checks event.now) ≡ None) }
    ensures swiss { OnOk result (event.now.phase ≡ Swiss) }
    ensures done { OnOk result (IsTrue (all_rounds_done event.now)) }
    ensures cut { OnOk result (0 < event.now.cut) }
    ensures enough { OnOk result (event.now.cut ≤ length (active event.now)) }
    ensures sound { IsSoundButForSeeds event.now }
    ensures fits { OnOk result ((matches : List Match) → IsOpening event.now matches
        → Fits event.now (Change.AddBracket matches)) }
    ensures refused { IfErr result (λ why. first_refusal (cut_checks event.now) ≡ Some why) }
    ensures named { IfErr result IsOfRules }
{
    if event.phase() != Phase::Swiss {
        return Err(Refusal::NotSwiss);
    }
    if event.cut() == 0 {
        return Err(Refusal::NoCut);
    }
    if !are_rounds_done(event) {
        return Err(Refusal::RoundsNotDone);
    }
    if active_count(event) < usize::from(event.cut()) {
        return Err(Refusal::TooFewForCut);
    }
    Ok(())
}

/// The stage with the score in this slot, which is numbered from 1.
fn scored_stage(
    alloc: Global,
    matches: &Items<Match>,
    slot: u8,
    score: Score,
) -> Result<Items<Match>, AllocError>
    requires { (1 ≤ slot) × (slot ≤ length matches.now) }
    ensures { IfOk result (λ stage. stage ≡ scored_slot matches.now slot score) }
{
    let mut stage = matches.copy(alloc)?;
    let at = usize::from(slot) - 1;
    let played = stage.as_slice()[at];
    let score = Some(score);
    stage.set(at, Match { score, ..played });
    Ok(stage)
}

/// The stage of the winners, if this one is complete and has more than one slot.
fn stage_after(alloc: Global, matches: &[Match]) -> Result<Option<Items<Match>>, AllocError>
    requires slots { (length matches.now ≡ 1) ⊎ (length matches.now ≡ 2)
        ⊎ (length matches.now ≡ 4) }
    requires scores { All (λ m. IfSome m.score (λ s. IsTrue (is_playoff_score s))) matches.now }
    ensures { IfOk result (λ next. next ≡ stage_after matches.now) }
{
    if matches.len() == 1 || !is_complete(matches) {
        return Ok(None);
    }
    let next = next_stage(alloc, matches)?;
    Ok(Some(next))
}

fn playoff_score(games: Games) -> Result<Score, Refusal>
    ensures ok { IfOk result (λ score. (score ≡ games) × IsTrue (is_playoff_score games)) }
    ensures refused { IfErr result (λ why. (why ≡ Refusal.BadScore)
        × IsFalse (is_playoff_score games)) }
    ensures named { IfErr result IsOfRules }
{
    match Score::playoff(games) {
        Some(score) => Ok(score),
        None => Err(Refusal::BadScore),
    }
}

/// The checks of a score in the playoff, in their order.
fn check_playoff(event: &Event, stage: u8, slot: u8, games: Games) -> Result<Score, Refusal>
    ensures accepted { OnOk result (first_refusal (playoff_checks event.now stage slot games)
        ≡ None) }
    ensures score { IfOk result (λ score. (score ≡ games) × IsTrue (is_playoff_score games)) }
    ensures playing { OnOk result (event.now.phase ≡ Playoff) }
    ensures found { OnOk result ((m : Match) × (slot_at event.now stage slot ≡ Some m)) }
    ensures fits { OnOk result (Fits event.now
        (Change.SetBracketScore stage slot games
        (stage_after (scored_at event.now stage slot games))
        (is_over (scored_at event.now stage slot games)))) }
    ensures refused { IfErr result (λ why. first_refusal (playoff_checks event.now stage slot games)
        ≡ Some why) }
    ensures named { IfErr result IsOfRules }
{
    if event.phase() != Phase::Playoff {
        return Err(Refusal::NotPlayoff);
    }
    let Some(played) = event.slot_at(stage, slot) else {
        return Err(Refusal::NoSuchMatch);
    };
    if let Some(score) = played.score {
        return Err(Refusal::AlreadyReported { score });
    }
    playoff_score(games)
}

/// Ends the Swiss rounds: the first active players of the standings are seeded into the first stage of the playoff.
pub fn decide_cut(alloc: Global, event: &Event) -> Result<Change, Refusal>
    ensures taken { IfOk result (λ change. Fits event.now change
        × Steps event.now Cut (Ok (after event.now change))) }
    ensures refused { IfErr result (λ why. (why ≡ Refusal.Memory)
        ⊎ (first_refusal (cut_checks event.now) ≡ Some why)) }
    ensures named { IfErr result (λ why. (why ≡ Refusal.Memory) ⊎ IsOfRules why) }
{
    check_cut(event)?;
    let seeds = top(alloc, event, usize::from(event.cut()))?;
    let matches = first_stage(alloc, seeds.as_slice())?;
    Ok(Change::AddBracket { matches })
}

/// Enters the score of an open match of the playoff, and with it the stage that follows, or the end.
pub fn decide_playoff(
    alloc: Global,
    event: &Event,
    stage: u8,
    slot: u8,
    games: Games,
) -> Result<Change, Refusal>
    ensures change { IfOk result (λ change. change
        ≡ Change.SetBracketScore stage slot games
        (stage_after (scored_at event.now stage slot games))
        (is_over (scored_at event.now stage slot games))) }
    ensures fits { IfOk result (Fits event.now) }
    ensures accepted { OnOk result (first_refusal (playoff_checks event.now stage slot games)
        ≡ None) }
    ensures refused { IfErr result (λ why. (why ≡ Refusal.Memory)
        ⊎ (first_refusal (playoff_checks event.now stage slot games) ≡ Some why)) }
    ensures named { IfErr result (λ why. (why ≡ Refusal.Memory) ⊎ IsOfRules why) }
{
    let score = check_playoff(event, stage, slot, games)?;
    let matches = &event.bracket().stages.as_slice()[usize::from(stage) - 1];
    let scored = scored_stage(alloc, matches, slot, score)?;
    let next = stage_after(alloc, scored.as_slice())?;
    let finished = is_over(scored.as_slice());
    Ok(Change::SetBracketScore {
        stage,
        slot,
        score,
        next,
        finished,
    })
}
