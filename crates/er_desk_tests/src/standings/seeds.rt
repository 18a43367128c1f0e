use super::*;
use er_rules::seeds_agree;

fn open(a: u16, b: u16) -> Match {
    let score = None;
    Match { a, b, score }
}

/// A first stage of two slots.
fn bracket(alloc: Global, first: Match, second: Match) -> Option<Change> {
    let mut matches = Items::new(alloc);
    matches.push(first).ok()?;
    matches.push(second).ok()?;
    Some(Change::AddBracket { matches })
}

/// Whether the seeds agree if the six of worked example 17 are cut to these slots.
fn agree(alloc: Global, first: Match, second: Match) -> Option<bool> {
    let change = bracket(alloc, first, second)?;
    let event = changed(alloc, six(alloc)?, &change)?;
    seeds_agree(alloc, &event).ok()
}

/// Whether they don't.
fn differ(alloc: Global, first: Match, second: Match) -> bool {
    agree(alloc, first, second) == Some(false)
}

/// The seeds of worked example 17 are 5, 6, 1 and 3.
#[test]
fn the_first_stage_is_of_the_seeds(rt: HostRuntime) -> Result<(), Fail> {
    let alloc = rt.alloc();
    assert_eq!(rt; agree(alloc, open(5, 3), open(6, 1)), Some(true));
    assert!(rt; differ(alloc, open(3, 5), open(6, 1)) && differ(alloc, open(5, 3), open(1, 6)));
    assert!(rt; differ(alloc, open(6, 1), open(5, 3)) && differ(alloc, open(5, 1), open(6, 3)));
    assert!(rt; differ(alloc, open(5, 4), open(6, 1)) && differ(alloc, open(2, 3), open(6, 1)));
    Ok(())
}

fn agree_before_the_cut(alloc: Global) -> Option<bool> {
    let event = six(alloc)?;
    seeds_agree(alloc, &event).ok()
}

#[test]
fn no_bracket_has_no_wrong_seeds(rt: HostRuntime) -> Result<(), Fail> {
    assert_eq!(rt; agree_before_the_cut(rt.alloc()), Some(true));
    Ok(())
}
