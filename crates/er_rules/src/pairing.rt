ghost use Rattle.std.specs.Prelude.{◌≡◌, ◌≢◌, ◌⊎◌, ◌↔◌, ℕ, List, ◌<◌, ◌≤◌, ◌%◌, ◌++◌, not, length, map, filter, AllPairs, IfOk, IfErr};
ghost use Rattle.std.specs.Prelude.{OnOk, Ok, Err, None, Some, IsFalse};
ghost use Rattle.er_event.specs.declared.events.Phase.TheVariants.{Swiss};
ghost use Rattle.er_event.specs.declared.commands.Command.TheVariants.{Pair};
ghost use Rattle.er_event.specs.Change.{after, Fits, IsNextRound};
ghost use Rattle.er_event.specs.Sound.{IsSoundButForSeeds};
ghost use Rattle.er_event.specs.Round.{is_bye};
ghost use Rattle.er_pair.specs.Order.{seed_words, IsOrder};
ghost use Rattle.er_rules.specs.Commands.{active, newest_is_open, first_refusal, pair_checks};
ghost use Rattle.er_rules.specs.Refusing.{IsOfRules};
ghost use Rattle.er_rules.specs.Step.{Answers};
ghost use Rattle.er_event.specs.Round.{match_of, tables_of};

use er_event::{BYE, Change, Event, Items, MAX_PLAYERS, Match, Phase, Refusal, Score};
use er_pair::laws::{legal_seats, one_order};
use er_pair::{Met, first_pairing, keys, order};
use std::alloc::{AllocError, Global};

/// Whether a match of the newest round lacks its score.
#[tactic(auto, using(crate::proofs::Rounds::newest))]
fn newest_is_open(event: &Event) -> bool
    ensures { result ≡ newest_is_open event.now }
{
    match event.stored() {
        [.., newest] => !newest.is_complete(),
        [] => false,
    }
}

pub fn active_count(event: &Event) -> usize
    ensures { result ≡ length (active event.now) }
{
    event
        .players()
        .iter()
        .filter(|player| !player.dropped)
        .count()
}

/// The checks of a pairing, in their order.
fn check_pair(event: &Event, round: u8) -> Result<(), Refusal>
    ensures accepted { OnOk result (first_refusal (pair_checks event.now round) ≡ None) }
    ensures next { OnOk result ((event.now.phase ≡ Swiss)
        × (length event.now.stored < event.now.rounds) × IsFalse (newest_is_open event.now)
        × (2 ≤ length (active event.now))) }
    ensures fits { OnOk result ((matches : List Match) → IsNextRound event.now matches
        → Fits event.now (Change.AddRound matches)) }
    ensures sound { IsSoundButForSeeds event.now }
    ensures refused { IfErr result (λ why. first_refusal (pair_checks event.now round) ≡ Some why) }
    ensures named { IfErr result IsOfRules }
{
    if event.phase() != Phase::Swiss {
        return Err(Refusal::NotSwiss);
    }
    let paired = event.stored().len() as u8;
    let next = paired + 1;
    if round != next {
        return Err(Refusal::WrongRound { next });
    }
    if next > event.rounds() {
        return Err(Refusal::AllRoundsPaired);
    }
    if newest_is_open(event) {
        return Err(Refusal::RoundOpen { round: paired });
    }
    if active_count(event) < 2 {
        return Err(Refusal::TooFewPlayers);
    }
    Ok(())
}

/// The order in which a round is paired under this seed.
fn seeded_order(alloc: Global, event: &Event, seed: &[u8; 32]) -> Result<Vec<u16>, AllocError>
    ensures ordered { IfOk result (λ order. IsOrder event.now (seed_words seed.now) order.items) }
    ensures distinct { IfOk result (λ order. AllPairs (λ p q. p ≢ q) order.items) }
    ensures few { IfOk result (λ order. length order.items ≤ MAX_PLAYERS) }
    ensures even { IfOk result (λ order. length order.items % 2 ≡ 0) }
{
    let keys = keys(alloc, seed, active_count(event))?;
    order(alloc, event, keys.as_slice())
}

/// Puts a table for each two who are paired at the end.
fn push_tables(matches: &mut Items<Match>, pairs: &[(u16, u16)]) -> Result<(), AllocError>
    ensures { OnOk result (matches.new ≡ matches.old
        ++ filter (λ m. not (is_bye m)) (map match_of pairs.now)) }
{
    for (a, b) in pairs {
        if *b != 0 {
            matches.push(Match {
                a: *a,
                b: *b,
                score: None,
            })?;
        }
    }
    Ok(())
}

/// Puts the bye at the end, if one has it.
fn push_byes(matches: &mut Items<Match>, pairs: &[(u16, u16)]) -> Result<(), AllocError>
    ensures { OnOk result (matches.new ≡ matches.old ++ filter is_bye (map match_of pairs.now)) }
{
    for (player, opponent) in pairs {
        if *opponent == 0 {
            matches.push(Match {
                a: *player,
                b: 0,
                score: Score::swiss(BYE),
            })?;
        }
    }
    Ok(())
}

/// The round of those who are paired: tables in turn, and then the bye.
fn tables_of(alloc: Global, pairs: &[(u16, u16)]) -> Result<Items<Match>, AllocError>
    ensures { IfOk result (λ matches. matches ≡ tables_of pairs.now) }
{
    let mut matches = Items::new(alloc);
    push_tables(&mut matches, pairs)?;
    push_byes(&mut matches, pairs)?;
    Ok(matches)
}

/// The next round: the earliest legal pairing of the order under the seed.
pub fn decide_pair(
    alloc: Global,
    event: &Event,
    round: u8,
    seed: &[u8; 32],
) -> Result<Change, Refusal>
    ensures taken { IfOk result (λ change. Fits event.now change
        × Answers event.now (Pair round seed.now) (Ok (after event.now change))) }
    ensures refused { IfErr result (λ why. (why ≡ Refusal.Memory)
        ⊎ Answers event.now (Pair round seed.now) (Err why)) }
    ensures named { IfErr result (λ why. (why ≡ Refusal.Memory) ⊎ IsOfRules why) }
{
    check_pair(event, round)?;
    one_order();
    let order = seeded_order(alloc, event, seed)?;
    let met = Met::of(alloc, event)?;
    let pairs = first_pairing(alloc, order.as_slice(), &met)?;
    legal_seats();
    let matches = tables_of(alloc, pairs.as_slice())?;
    Ok(Change::AddRound { matches })
}
