use er_event::{Change, Event, Games, Refusal, Score};
use er_rules::decide;
use er_testing::desks::command;
use er_testing::events::{changed, new_event};
use std::alloc::Global;
use std::test::Fail;

/// What the command of a line makes of an event, if it is taken.
fn decided(alloc: Global, event: &Event, line: &str) -> Option<Change> {
    let command = command(alloc, line)?;
    decide(alloc, event, &command).ok()
}

/// The event after the command of a line, if it is taken.
fn after(alloc: Global, event: Event, line: &str) -> Option<Event> {
    match decided(alloc, &event, line) {
        Some(change) => changed(alloc, event, &change),
        None => None,
    }
}

/// A new event of two rounds that took these commands, a line each.
fn event_after(alloc: Global, lines: &str) -> Option<Event> {
    let mut event = new_event(alloc, 2, 0)?;
    for line in lines.lines() {
        event = after(alloc, event, line)?;
    }
    Some(event)
}

fn refusal_of(alloc: Global, event: &Event, line: &str) -> Option<Refusal> {
    let command = command(alloc, line)?;
    decide(alloc, event, &command).err()
}

/// Whether each of these commands, a line each, is refused for this reason.
fn are_refused(alloc: Global, event: &Event, lines: &str, why: Refusal) -> bool {
    lines
        .lines()
        .all(|line| refusal_of(alloc, event, line) == Some(why))
}

/// Whether each of these commands is refused for this reason after those that are taken.
fn are_refused_after(alloc: Global, taken: &str, lines: &str, why: Refusal) -> Option<bool> {
    let event = event_after(alloc, taken)?;
    Some(are_refused(alloc, &event, lines, why))
}

/// Two players in the open first round of two.
const PAIRED: &str = "enrol Ana\nenrol Bo\nstart\npair 1";

/// A refusal of a round names the round that is next, or that is open.
#[test]
fn refusals_name_the_round(rt: HostRuntime) -> Result<(), Fail> {
    let none = "pair 0\npair 1\npair 3\npair 255";
    let wrong = Refusal::WrongRound { next: 2 };
    let open = Refusal::RoundOpen { round: 1 };
    assert_eq!(rt;
        are_refused_after(rt.alloc(), PAIRED, none, wrong),
        Some(true)
    );
    assert_eq!(rt;
        are_refused_after(rt.alloc(), PAIRED, "pair 2", open),
        Some(true)
    );
    Ok(())
}

const REPORTED: &str = "enrol Ana\nenrol Bo\nstart\npair 1\nresult 1 1 2 1 0";

/// A result that is handed in twice is refused with the score that stands, even if it is another.
fn names_the_stored_score(alloc: Global) -> Option<bool> {
    let score = Score::swiss(Games { x: 2, y: 1, d: 0 })?;
    let again = "result 1 1 2 1 0\nresult 1 1 0 2 0\nresult 1 1 2 2 0";
    are_refused_after(alloc, REPORTED, again, Refusal::AlreadyReported { score })
}

#[test]
fn refusals_name_the_stored_score(rt: HostRuntime) -> Result<(), Fail> {
    assert_eq!(rt; names_the_stored_score(rt.alloc()), Some(true));
    Ok(())
}
