use er_desk::{Desk, Reply};
use er_event::{Receipt, Refusal};
use er_testing::desks::{commands, desk_after, submit};
use sqlite::MemStore;
use std::alloc::Global;
use std::test::Fail;

const fn receipt(serial: u32) -> Reply {
    Ok(Receipt { serial })
}

/// Whether Bo is enrolled, not taken twice, and the start is taken, in one run.
fn is_answered(alloc: Global, desk: &mut Desk<MemStore>) -> Option<bool> {
    let replies = desk
        .run(alloc, commands(alloc, "enrol Bo\nenrol Bo\nstart")?)
        .ok()?;
    let due = [receipt(2), Err(Refusal::NameTaken), receipt(3)];
    Some(replies.as_slice() == due.as_slice())
}

fn standings_len(alloc: Global, desk: &Desk<MemStore>) -> Option<usize> {
    Some(desk.standings(alloc).ok()?.len())
}

fn players_len(desk: &Desk<MemStore>) -> Option<usize> {
    Some(desk.event().ok()?.players().len())
}

/// Whether the desk shows two players after three commands.
fn shows_two_players(alloc: Global, desk: &Desk<MemStore>) -> bool {
    standings_len(alloc, desk) == Some(2)
        && players_len(desk) == Some(2)
        && desk.serial() == Ok(3)
        && !desk.needs_reopen()
}

/// Whether a desk over the same tables shows two players.
fn is_adopted(alloc: Global, desk: Desk<MemStore>) -> bool {
    match Desk::adopt(alloc, desk.close()) {
        Ok(desk) => shows_two_players(alloc, &desk),
        Err(_) => false,
    }
}

/// Whether a new desk answers as is due, Ana's command only, and then stands in its tables.
fn plays(alloc: Global) -> Option<bool> {
    let mut desk = desk_after(alloc, 3, 0, "")?;
    let first = submit(alloc, &mut desk, "enrol Ana");
    let answered = is_answered(alloc, &mut desk);
    let adopted = is_adopted(alloc, desk);
    Some(first == Some(receipt(1)) && answered == Some(true) && adopted)
}

/// Each call of a desk, and a second desk over its tables.
#[test]
fn a_desk_answers_and_is_adopted(rt: HostRuntime) -> Result<(), Fail> {
    assert_eq!(rt; plays(rt.alloc()), Some(true));
    Ok(())
}
