ghost use Rattle.std.specs.Prelude.{◌≡◌, not, ◌++◌, All, IfOk, OnOk, IsFalse, length, map, filter};
ghost use Rattle.std.specs.List.{range_with_len};
ghost use Rattle.er_event.specs.Round.{is_bye};
ghost use Rattle.er_event.specs.Tallies.{complete_matches, meeting_by};
ghost use Rattle.er_rank.specs.Meeting.{tally_totals, AreKnownTo};
ghost use Rattle.er_rank.specs.Tally.{IsKnown};

use er_event::{Match, Meeting, Round, Tally};
use std::alloc::{AllocError, Global};

/// The meeting of a match.
fn meeting_of(tallies: &[Tally], played: &Match) -> Meeting
    requires numbered { map (λ t. t.no) tallies.now ≡ range_with_len 1 (length tallies.now) }
    requires known { IsKnown (length tallies.now) played.now.a
        × IsKnown (length tallies.now) played.now.b }
    ensures { result ≡ meeting_by (tally_totals tallies.now) played.now }
{
    let lo = &tallies[usize::from(played.a.min(played.b)) - 1];
    let hi = &tallies[usize::from(played.a.max(played.b)) - 1];
    Meeting {
        lo: lo.no,
        hi: hi.no,
        lo_totals: lo.totals,
        hi_totals: hi.totals,
    }
}

fn push_meetings(
    meetings: &mut Vec<Meeting>,
    tallies: &[Tally],
    matches: &[Match],
) -> Result<(), AllocError>
    requires numbered { map (λ t. t.no) tallies.now ≡ range_with_len 1 (length tallies.now) }
    requires known { AreKnownTo (length tallies.now) matches.now }
    ensures { OnOk result (meetings.new.items ≡ meetings.old.items
        ++ map (meeting_by (tally_totals tallies.now)) (filter (λ m. not (is_bye m)) matches.now)) }
{
    for played in matches {
        if !played.is_bye() {
            meetings.push(meeting_of(tallies, played))?;
        }
    }
    Ok(())
}

/// The meetings of the rounds that are complete.
pub fn meetings_of(
    alloc: Global,
    rounds: &[Round],
    tallies: &[Tally],
) -> Result<Vec<Meeting>, AllocError>
    requires numbered { map (λ t. t.no) tallies.now ≡ range_with_len 1 (length tallies.now) }
    requires known { All (λ round. AreKnownTo (length tallies.now) round.matches) rounds.now }
    ensures { IfOk result (λ list. list.items
        ≡ map (meeting_by (tally_totals tallies.now))
        (filter (λ m. not (is_bye m)) (complete_matches rounds.now))) }
{
    let mut meetings = Vec::new(alloc);
    for round in rounds {
        if round.is_complete() {
            push_meetings(&mut meetings, tallies, round.matches.as_slice())?;
        }
    }
    Ok(meetings)
}
