ghost use Rattle.std.specs.Prelude.{◌↔◌, List, IsTrue, IfOk, length};
ghost use Rattle.er_event.specs.Event.{EventValue};
ghost use Rattle.er_rank.specs.inside.Counting.{with_match, AreCountsOf};
ghost use Rattle.er_rank.specs.Meeting.{Encounter, encounters, IsRecord, AreTallies, AreEncounters, AreLists, AreListsOf};

use er_event::{MAX_PLAYERS, MAX_ROUNDS, Meeting, PlayerNo, Tally, Totals};
use std::alloc::{AllocError, Global};

/// The most games that one match has: three that one of the two wins, and three drawn.
pub const MAX_GAMES_OF_MATCH: u8 = 6;

/// Whether the totals keep the limits of one player's.
fn is_record(totals: Totals) -> bool
    ensures { IsTrue result ↔ IsRecord totals }
{
    totals.rounds <= MAX_ROUNDS
        && totals.points <= 3 * totals.rounds
        && totals.games <= u16::from(MAX_GAMES_OF_MATCH * totals.rounds)
        && totals.game_points <= 3 * totals.games
}

/// Whether the tallies are numbered 1, 2, .., are no more than an event may have players, and keep the limits.
fn are_tallies(list: &[Tally]) -> bool
    ensures { IsTrue result ↔ AreTallies list.now }
{
    if list.len() > usize::from(MAX_PLAYERS) {
        return false;
    }
    for (at, tally) in list.iter().enumerate() {
        if usize::from(tally.no.get()) != at + 1 || !is_record(tally.totals) {
            return false;
        }
    }
    true
}

/// Counts one match more of a player, whose opponent's matches come to this, unless that breaks a limit: the
/// player isn't one of those counted, or has as many matches as there may be rounds, or the totals are too great.
fn try_count(counts: &mut [u8], player: PlayerNo, opponent: Totals) -> bool
    ensures may { (before : List Encounter) → AreCountsOf before counts.old
        → AreEncounters (length counts.old) before
        → (IsTrue result ↔ AreEncounters (length counts.old) (with_match before player opponent)) }
    ensures counted { (before : List Encounter) → AreCountsOf before counts.old → IsTrue result
        → AreCountsOf (with_match before player opponent) counts.new }
{
    let at = usize::from(player.get()) - 1;
    if at >= counts.len() || counts[at] >= MAX_ROUNDS || !is_record(opponent) {
        return false;
    }
    counts[at] += 1;
    true
}

/// Whether the meetings are of `players` players, and keep the limits of an event's.
fn are_meetings(alloc: Global, players: usize, meetings: &[Meeting]) -> Result<bool, AllocError>
    ensures { IfOk result (λ are. IsTrue are ↔ AreEncounters players (encounters meetings.now)) }
{
    let mut counts = vec![in alloc; 0; players]?;
    let counts = counts.as_mut_slice();
    for meeting in meetings {
        if !try_count(counts, meeting.lo, meeting.hi_totals)
            || !try_count(counts, meeting.hi, meeting.lo_totals)
        {
            return Ok(false);
        }
    }
    Ok(true)
}

/// Whether standings can be worked out by these tallies and meetings, as by those of each event. The two lists are
/// enough to tell: the tallies are numbered 1, 2, .. and no more than an event may have players, both of each meeting are
/// among them, nobody has more meetings than an event may have rounds, and all totals keep the limits of a player's.
pub fn are_lists(alloc: Global, tallies: &[Tally], meetings: &[Meeting]) -> Result<bool, AllocError>
    ensures value { IfOk result (λ are. IsTrue are ↔ AreLists tallies.now meetings.now) }
    ensures event { (event : EventValue) → AreListsOf event tallies.now meetings.now
        → IfOk result (λ are. IsTrue are) }
{
    if !are_tallies(tallies) {
        return Ok(false);
    }
    are_meetings(alloc, tallies.len(), meetings)
}
