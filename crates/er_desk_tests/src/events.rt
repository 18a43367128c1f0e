use er_event::{Event, Games, Items, Name, NameFault, PlayerNo, Refusal, Score};
use er_testing::events::{name, new_event, with_player};
use std::alloc::Global;
use std::test::Fail;

/// Whether these bytes are taken as a name, just as they are.
fn is_taken(bytes: &[u8]) -> Option<bool> {
    match Name::try_from_bytes(bytes) {
        Ok(name) => (name.as_bytes() == bytes && name.as_str().as_bytes() == bytes).then_some(true),
        Err(NameFault::Bad) => Some(false),
        Err(NameFault::Memory) => None,
    }
}

/// Whether each line is taken as a name, or each is not.
fn are_taken(lines: &str, due: bool) -> bool {
    lines
        .lines()
        .all(|line| is_taken(line.as_bytes()) == Some(due))
}

/// Worked example 3, and the bytes next to what it takes.
#[test]
fn names_are_taken_where_the_rule_says(rt: HostRuntime) -> Result<(), Fail> {
    assert_eq!(rt; is_taken(&[b'a'; 60]), Some(true));
    assert_eq!(rt; is_taken(&[b'a'; 61]), Some(false));
    assert!(rt; are_taken("A na\n-Ana\nJosé\n~", true));
    assert!(rt; are_taken("Ana \n\n Ana\n \nA\tB\nA\x7fB", false));
    assert!(rt; is_taken(b"\xff") == Some(false) && is_taken(b"Jos\xc3") == Some(false));
    Ok(())
}

fn swiss(x: u8, y: u8, d: u8) -> Option<Games> {
    Score::swiss(Games { x, y, d }).map(Score::games)
}

fn is_playoff(x: u8, y: u8, d: u8) -> bool {
    Score::playoff(Games { x, y, d }).is_some()
}

/// Worked example 13.
#[test]
fn scores_are_taken_where_the_rule_says(rt: HostRuntime) -> Result<(), Fail> {
    for (x, y, d) in [(0, 0, 0), (0, 0, 3), (2, 1, 3), (2, 1, 0)] {
        assert_eq!(rt; swiss(x, y, d), Some(Games { x, y, d }));
    }
    for (x, y, d) in [(2, 2, 0), (3, 0, 0), (0, 0, 4)] {
        assert_eq!(rt; swiss(x, y, d), None, "{x} {y} {d}");
    }
    assert!(rt; is_playoff(3, 2, 0));
    assert!(rt; !is_playoff(1, 1, 0) && !is_playoff(4, 0, 0));
    Ok(())
}

/// The refusal to set up an event so, and none if its setup is this one.
fn refusal_of(alloc: Global, rounds: u8, cut: u8) -> Option<Refusal> {
    match Event::create(alloc, name("Friday")?, rounds, cut) {
        Ok(event) if (event.rounds(), event.cut()) == (rounds, cut) => None,
        Ok(_) => Some(Refusal::NoEvent),
        Err(why) => Some(why),
    }
}

fn is_set_up(alloc: Global, rounds: u8, cut: u8) -> bool {
    refusal_of(alloc, rounds, cut).is_none()
}

fn is_refused(alloc: Global, rounds: u8, cut: u8) -> bool {
    refusal_of(alloc, rounds, cut) == Some(Refusal::BadSetup)
}

/// The limits of worked example 29.
#[test]
fn events_are_set_up_within_the_limits(rt: HostRuntime) -> Result<(), Fail> {
    let alloc = rt.alloc();
    assert!(rt; is_set_up(alloc, 1, 0) && is_set_up(alloc, 12, 8));
    assert!(rt; is_set_up(alloc, 3, 2) && is_set_up(alloc, 3, 4));
    assert!(rt; is_refused(alloc, 0, 0) && is_refused(alloc, 13, 0));
    assert!(rt; is_refused(alloc, 3, 1) && is_refused(alloc, 3, 3) && is_refused(alloc, 3, 16));
    Ok(())
}

/// Ana and Bo, before the start.
fn two_players(alloc: Global) -> Option<Event> {
    let event = with_player(alloc, new_event(alloc, 3, 0)?, "Ana")?;
    with_player(alloc, event, "Bo")
}

/// Whether Ana and Bo are the players of Friday, nobody has dropped, and nothing is paired.
fn is_of_two(event: &Event) -> bool {
    let [ana, bo] = event.players() else {
        return false;
    };
    event.name().as_str() == "Friday"
        && event.stored().is_empty()
        && event.bracket().stages.as_slice().is_empty()
        && (ana.no.get(), ana.name.as_str(), ana.dropped, ana.joined) == (1, "Ana", false, 0)
        && (bo.no.get(), bo.name.as_str(), bo.dropped, bo.joined) == (2, "Bo", false, 0)
}

fn numbers_are_next(alloc: Global) -> Option<bool> {
    let event = two_players(alloc)?;
    let copy = event.copy(alloc).ok()?;
    Some(is_of_two(&event) && is_of_two(&copy))
}

#[test]
fn players_get_the_next_numbers(rt: HostRuntime) -> Result<(), Fail> {
    assert_eq!(rt; numbers_are_next(rt.alloc()), Some(true));
    Ok(())
}

fn read_back(alloc: Global, list: Items<u8>) -> Option<Vec<u8>> {
    Some(list.copy(alloc).ok()?.into_vec())
}

fn reads_back(alloc: Global, bytes: &[u8]) -> Option<bool> {
    let list = Items::from(Vec::from_slice(alloc, bytes).ok()?);
    Some(read_back(alloc, list)?.as_slice() == bytes)
}

#[test]
fn numbers_lists_and_refusals_read_back(rt: HostRuntime) -> Result<(), Fail> {
    assert_eq!(rt; PlayerNo::try_new(512).map(PlayerNo::get), Some(512));
    assert!(rt; PlayerNo::try_new(0).is_none() && PlayerNo::try_new(513).is_none());
    assert_eq!(rt; reads_back(rt.alloc(), b"Ana"), Some(true));
    assert_eq!(rt;
        (Refusal::BadName.number(), Refusal::BadName.name()),
        (1, "BadName")
    );
    let wrong_round = Refusal::WrongRound { next: 2 };
    assert_eq!(rt;
        (wrong_round.number(), wrong_round.name()),
        (7, "WrongRound")
    );
    assert_eq!(rt;
        (Refusal::BadSetup.number(), Refusal::BadSetup.name()),
        (30, "BadSetup")
    );
    Ok(())
}
