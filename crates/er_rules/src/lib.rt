//! What each command does to an event: the change that it makes, or the refusal of the first check that fails.
#![tactic(auto)]

ghost use Rattle.std.specs.Prelude.{◌≡◌, ◌==◌, ◌&&◌, ◌||◌, not, length, ◌⊎◌, Ok, Err, IfOk, IfErr, OnOk, Some, None, IsTrue, IsFalse};
ghost use Rattle.er_event.specs.Name.{is_lawful_name};
ghost use Rattle.er_event.specs.Change.{after, Fits};
ghost use Rattle.er_rules.specs.Commands.{is_enrolling, is_swiss, first_refusal, enrol_checks, start_checks, drop_checks};
ghost use Rattle.er_rules.specs.Refusing.{IsOfRules, TakesMemory};
ghost use Rattle.er_rules.specs.Sound.{IsSound};
ghost use Rattle.er_rules.specs.Step.{Answers};

pub mod laws;
mod pairing;
mod playoff;
mod results;
mod seeds;

use er_event::{Change, Command, Event, MAX_PLAYERS, Name, Phase, Refusal};
use pairing::decide_pair;
use playoff::{decide_cut, decide_playoff};
use results::{decide_correct, decide_result};
pub use seeds::seeds_agree;
use std::alloc::Global;

/// Whether nobody enrols any more, since the playoff has begun.
fn is_closed(phase: Phase) -> bool
    ensures { result ≡ not (is_enrolling phase || is_swiss phase) }
{
    !matches!(phase, Phase::Enrolling | Phase::Swiss)
}

/// Whether nobody enrols any more, since the last round is paired.
fn is_last_paired(event: &Event) -> bool
    ensures { result
        ≡ (is_swiss event.now.phase && length event.now.stored == event.now.rounds) }
{
    match event.phase() {
        Phase::Swiss => event.stored().len() == usize::from(event.rounds()),
        _ => false,
    }
}

fn decide_enrol(event: &Event, name: &[u8]) -> Result<Change, Refusal>
    ensures change { IfOk result (λ change. change ≡ Change.AddPlayer name.now) }
    ensures fits { IfOk result (Fits event.now) }
    ensures accepted { OnOk result (first_refusal (enrol_checks event.now name.now) ≡ None) }
    ensures refused { IfErr result (λ why. first_refusal (enrol_checks event.now name.now)
        ≡ Some why) }
    ensures named { IfErr result IsOfRules }
{
    if is_closed(event.phase()) {
        return Err(Refusal::NotEnrolling);
    }
    if is_last_paired(event) {
        return Err(Refusal::AllRoundsPaired);
    }
    let Ok(name) = Name::try_from_bytes(name) else {
        return Err(Refusal::BadName);
    };
    if event.has_name(&name) {
        return Err(Refusal::NameTaken);
    }
    if event.players().len() >= usize::from(MAX_PLAYERS) {
        return Err(Refusal::PlayersFull);
    }
    Ok(Change::AddPlayer { name })
}

fn decide_start(event: &Event) -> Result<Change, Refusal>
    ensures change { IfOk result (λ change. change ≡ Change.SetPhase Phase.Swiss) }
    ensures fits { IfOk result (Fits event.now) }
    ensures accepted { OnOk result (first_refusal (start_checks event.now) ≡ None) }
    ensures refused { IfErr result (λ why. first_refusal (start_checks event.now) ≡ Some why) }
    ensures named { IfErr result IsOfRules }
{
    if event.phase() != Phase::Enrolling {
        return Err(Refusal::NotEnrolling);
    }
    if event.players().len() < 2 {
        return Err(Refusal::TooFewPlayers);
    }
    Ok(Change::SetPhase {
        phase: Phase::Swiss,
    })
}

fn decide_drop(event: &Event, number: u16) -> Result<Change, Refusal>
    ensures change { IfOk result (λ change. change ≡ Change.SetDropped number) }
    ensures fits { IfOk result (Fits event.now) }
    ensures accepted { OnOk result (first_refusal (drop_checks event.now number) ≡ None) }
    ensures refused { IfErr result (λ why. first_refusal (drop_checks event.now number)
        ≡ Some why) }
    ensures named { IfErr result IsOfRules }
{
    if event.phase() != Phase::Swiss {
        return Err(Refusal::NotSwiss);
    }
    let Some(player) = event.player(number) else {
        return Err(Refusal::NoSuchPlayer);
    };
    if player.dropped {
        return Err(Refusal::AlreadyDropped);
    }
    Ok(Change::SetDropped { player: player.no })
}

/// What a command makes of an event: a change that fits it, or the refusal of the first check that fails. A sound event stays sound, its
/// seeds too. In place of either, memory may run out, if the command takes any, and `Budget` may come, if the search for a pairing would
/// take more than a million steps. No other refusal speaks of memory, of the event's file or of how many commands it takes.
pub fn decide(alloc: Global, event: &Event, command: &Command) -> Result<Change, Refusal>
    ensures taken { IfOk result (λ change. Fits event.now change
        × Answers event.now command.now (Ok (after event.now change))) }
    ensures keeps { IfOk result (λ change. IsSound event.now → IsSound (after event.now change)) }
    ensures refused { IfErr result (λ why. (why ≡ Refusal.Memory)
        ⊎ Answers event.now command.now (Err why)) }
    ensures memory { result ≡ Err Refusal.Memory → TakesMemory command.now }
    ensures named { IfErr result (λ why. (why ≡ Refusal.Memory) ⊎ IsOfRules why) }
{
    match command {
        Command::Enrol { name } => decide_enrol(event, name.as_slice()),
        Command::Start => decide_start(event),
        Command::Pair { round, seed } => decide_pair(alloc, event, *round, seed),
        Command::Result {
            round,
            table,
            score,
        } => decide_result(event, *round, *table, *score),
        Command::Correct {
            round,
            table,
            score,
        } => decide_correct(event, *round, *table, *score),
        Command::Drop { player } => decide_drop(event, *player),
        Command::Cut => decide_cut(alloc, event),
        Command::Playoff { stage, slot, score } => decide_playoff(
            alloc, event, *stage, *slot, *score,
        ),
    }
}
