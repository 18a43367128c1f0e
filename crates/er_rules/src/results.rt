ghost use Rattle.std.specs.Prelude.{◌≡◌, List, IfOk, IfErr, OnOk, None, Some, IsTrue, IsFalse};
ghost use Rattle.er_event.specs.Change.{Fits};
ghost use Rattle.er_event.specs.Score.{is_swiss_score};
ghost use Rattle.er_rules.specs.Commands.{Check, first_refusal, score_checks, result_checks, correct_checks};
ghost use Rattle.er_rules.specs.Refusing.{IsOfRules};

use er_event::{Change, Event, Games, Match, Phase, Refusal, Score};

/// The match of two players at this table of this round, while the Swiss rounds are played.
fn match_of_two(event: &Event, round: u8, table: u16) -> Result<&Match, Refusal>
    ensures checked { IfOk result (λ m. (more : Match → List Check)
        → first_refusal (score_checks event.now round table more)
        ≡ first_refusal (more m.now)) }
    ensures fits { OnOk result ((games : Games) → IsTrue (is_swiss_score games)
        → Fits event.now (Change.SetScore round table games)) }
    ensures refused { IfErr result (λ why. (more : Match → List Check)
        → first_refusal (score_checks event.now round table more) ≡ Some why) }
    ensures named { IfErr result IsOfRules }
{
    if event.phase() != Phase::Swiss {
        return Err(Refusal::NotSwiss);
    }
    let Some(played) = event.match_at(round, table) else {
        return Err(Refusal::NoSuchMatch);
    };
    if played.is_bye() {
        return Err(Refusal::IsBye);
    }
    Ok(played)
}

fn lawful_score(games: Games) -> Result<Score, Refusal>
    ensures ok { IfOk result (λ score. (score ≡ games) × IsTrue (is_swiss_score games)) }
    ensures refused { IfErr result (λ why. (why ≡ Refusal.BadScore)
        × IsFalse (is_swiss_score games)) }
    ensures named { IfErr result IsOfRules }
{
    match Score::swiss(games) {
        Some(score) => Ok(score),
        None => Err(Refusal::BadScore),
    }
}

/// Enters the score of a match that has none.
pub fn decide_result(event: &Event, round: u8, table: u16, games: Games) -> Result<Change, Refusal>
    ensures change { IfOk result (λ change. change ≡ Change.SetScore round table games) }
    ensures fits { IfOk result (Fits event.now) }
    ensures accepted { OnOk result (first_refusal (result_checks event.now round table games)
        ≡ None) }
    ensures refused { IfErr result (λ why. first_refusal (result_checks event.now round table games)
        ≡ Some why) }
    ensures named { IfErr result IsOfRules }
{
    let played = match_of_two(event, round, table)?;
    if let Some(score) = played.score {
        return Err(Refusal::AlreadyReported { score });
    }
    let score = lawful_score(games)?;
    Ok(Change::SetScore {
        round,
        table,
        score,
    })
}

/// Replaces the score of a match that has one.
pub fn decide_correct(event: &Event, round: u8, table: u16, games: Games) -> Result<Change, Refusal>
    ensures change { IfOk result (λ change. change ≡ Change.SetScore round table games) }
    ensures fits { IfOk result (Fits event.now) }
    ensures accepted { OnOk result (first_refusal (correct_checks event.now round table games)
        ≡ None) }
    ensures refused { IfErr result (λ why.
        first_refusal (correct_checks event.now round table games) ≡ Some why) }
    ensures named { IfErr result IsOfRules }
{
    let played = match_of_two(event, round, table)?;
    if played.score.is_none() {
        return Err(Refusal::NotReported);
    }
    let score = lawful_score(games)?;
    Ok(Change::SetScore {
        round,
        table,
        score,
    })
}
