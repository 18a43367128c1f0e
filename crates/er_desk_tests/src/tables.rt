use er_event::{Games, Score};
use er_paper::{ResultLine, players_csv, read_players_csv, read_results_csv, results_csv};
use er_testing::desks::{FOUR, desk_after};
use std::alloc::Global;
use std::test::Fail;

/// The players of four as they are written.
fn written_players(alloc: Global) -> Option<Vec<u8>> {
    let desk = desk_after(alloc, 3, 0, FOUR)?;
    players_csv(alloc, desk.event().ok()?).ok()
}

/// Whether the players of four are written as this text, and read as four of whom the last has this number.
fn players_return(alloc: Global, text: &[u8], number: u16) -> Option<bool> {
    let written = written_players(alloc)?;
    let read = read_players_csv(alloc, &written).ok()?;
    Some(written.as_slice() == text && read.len() == 4 && read.last()?.no.get() == number)
}

#[test]
fn players_are_written_and_read(rt: HostRuntime) -> Result<(), Fail> {
    let text = b"no,name,dropped\n1,Ana,0\n2,Bo,0\n3,Cy,0\n4,Di,0\n";
    assert_eq!(rt; players_return(rt.alloc(), text.as_slice(), 4), Some(true));
    Ok(())
}

/// Table 1 of round 1, which Di has won.
fn first_line() -> Option<ResultLine> {
    let score = Score::swiss(Games { x: 2, y: 0, d: 0 })?;
    Some(ResultLine {
        round: 1,
        table: 1,
        a: 4,
        b: 2,
        score: Some(score),
    })
}

/// The matches of a desk that took these commands, as they are written.
fn written_results(alloc: Global, lines: &str) -> Option<Vec<u8>> {
    let desk = desk_after(alloc, 3, 0, lines)?;
    results_csv(alloc, desk.event().ok()?).ok()
}

/// Whether its matches are written as this text, and read as two, of which this is the first.
fn results_return(alloc: Global, lines: &str, text: &[u8]) -> Option<bool> {
    let written = written_results(alloc, lines)?;
    let first = first_line()?;
    let read = read_results_csv(alloc, &written).ok()?;
    Some(written.as_slice() == text && read.len() == 2 && read.first() == Some(&first))
}

#[test]
fn results_are_written_and_read(rt: HostRuntime) -> Result<(), Fail> {
    let lines = "enrol Ana\nenrol Bo\nenrol Cy\nenrol Di\nstart\npair 1\nresult 1 1 2 0 0";
    let text = b"round,table,a,b,x,y,d\n1,1,4,2,2,0,0\n1,2,1,3,,,\n";
    assert_eq!(rt;
        results_return(rt.alloc(), lines, text.as_slice()),
        Some(true)
    );
    Ok(())
}
