ghost use Rattle.std.specs.Prelude.{◌≡◌, ◌+◌, ◌≤◌, IfOk};
ghost use Rattle.er_share.specs.Share.{IsBase};

use er_share::{GameRecord, MatchRecord, Mean, Share, average, gwp, hundredths, mwp};
use std::alloc::Global;
use std::test::Fail;

/// Whether the share of these match points is of the base and printed so.
fn is_match_percentage(points: u8, rounds: u8, printed: u32) -> bool {
    let Some(record) = MatchRecord::try_new(points, rounds) else {
        return false;
    };
    let share = mwp(record);
    hundredths(share) == printed && share.is_base()
}

/// Worked example 11.
#[test]
fn match_win_percentages(rt: HostRuntime) -> Result<(), Fail> {
    assert!(rt; is_match_percentage(16, 8, 6667) && is_match_percentage(7, 8, 3300));
    assert!(rt; is_match_percentage(10, 7, 4762) && is_match_percentage(9, 5, 6000));
    assert!(rt; is_match_percentage(0, 0, 3300));
    assert!(rt; MatchRecord::try_new(36, 12).is_some());
    assert_eq!(rt; MatchRecord::try_new(37, 12), None);
    assert_eq!(rt; MatchRecord::try_new(28, 9), None);
    assert_eq!(rt; MatchRecord::try_new(0, 13), None);
    Ok(())
}

/// Whether the share of these game points is of the base and printed so.
fn is_game_percentage(points: u16, games: u8, printed: u32) -> bool {
    let Some(record) = GameRecord::try_new(points, games) else {
        return false;
    };
    let share = gwp(record);
    hundredths(share) == printed && share.is_base()
}

/// Worked examples 11 and 34.
#[test]
fn game_win_percentages(rt: HostRuntime) -> Result<(), Fail> {
    assert!(rt; is_game_percentage(21, 10, 7000) && is_game_percentage(9, 11, 3300));
    assert!(rt; is_game_percentage(3, 3, 3333) && is_game_percentage(0, 0, 3300));
    assert!(rt; is_game_percentage(162, 54, 10_000) && is_game_percentage(63, 32, 6563));
    assert!(rt; is_game_percentage(216, 72, 10_000));
    assert_eq!(rt; GameRecord::try_new(0, 73), None);
    Ok(())
}

/// With three shares more, which are alike.
fn with_three(mean: Mean, share: Share) -> Mean
    requires room { mean.count ≤ 9 }
    requires base { IsBase share }
    ensures count { result.count ≡ mean.count + 3 }
{
    mean.with(share).with(share).with(share)
}

/// The average of eleven who won all of twelve rounds and of one who won none, as it is printed.
fn average_of_twelve() -> Result<u32, Fail> {
    let (all, none) = (match_win(36, 12)?, match_win(0, 12)?);
    let three = Mean::none().with(none).with(all).with(all);
    let nine = with_three(with_three(three, all), all);
    Ok(hundredths(with_three(nine, all).average()))
}

/// Worked example 46.
#[test]
fn shares_of_twelve_rounds(rt: HostRuntime) -> Result<(), Fail> {
    assert!(rt; is_match_percentage(36, 12, 10_000) && is_match_percentage(31, 12, 8611));
    assert!(rt; is_game_percentage(143, 71, 6714));
    assert_eq!(rt; average_of_twelve()?, 9442);
    Ok(())
}

fn match_win(points: u8, rounds: u8) -> Result<Share, Fail>
    ensures { IfOk result IsBase }
{
    Ok(mwp(MatchRecord::try_new(points, rounds).ok_or("beyond the limits")?))
}

fn game_win(points: u16, games: u8) -> Result<Share, Fail> {
    Ok(gwp(GameRecord::try_new(points, games).ok_or("beyond the limits")?))
}

/// Whether the share has `parts` parts, in decimal.
fn has_parts(alloc: Global, share: Share, parts: &str) -> Result<bool, Fail> {
    let shown = format!(in alloc; "{share:?}")?;
    let want = format!(in alloc; "Share {{ parts: {parts} }}")?;
    Ok(shown.as_str() == want.as_str())
}

/// Worked example 11.
#[test]
fn a_third_is_above_the_minimum(rt: HostRuntime) -> Result<(), Fail> {
    let (third, minimum) = (game_win(3, 3)?, game_win(0, 0)?);
    assert!(rt; has_parts(rt.alloc(), third, "155898487696009919596008886476864000")?);
    assert!(rt; has_parts(rt.alloc(), minimum, "154339502819049820400048797612095360")?);
    assert!(rt; third > minimum && third == third);
    Ok(())
}

/// 7165 of 13,608 parts of the whole.
fn greater_average() -> Result<Share, Fail> {
    let (a, b, c) = (match_win(16, 7)?, match_win(14, 9)?, match_win(11, 8)?);
    let usual = match_win(3, 2)?;
    Ok(average(&[a, b, c, usual, usual, usual, usual, usual, usual]))
}

/// 7164 of 13,608 parts of the whole.
fn smaller_average() -> Result<Share, Fail> {
    let (a, b, usual) = (match_win(12, 7)?, match_win(18, 9)?, match_win(3, 2)?);
    Ok(average(&[a, b, usual, usual, usual, usual, usual, usual, usual]))
}

/// Worked example 12.
#[test]
fn averages_that_print_alike_differ(rt: HostRuntime) -> Result<(), Fail> {
    let (first, second) = (greater_average()?, smaller_average()?);
    assert_eq!(rt; (hundredths(first), hundredths(second)), (5265, 5265));
    assert!(rt; has_parts(rt.alloc(), first, "246254996548040360208422326191960000")?);
    assert!(rt; has_parts(rt.alloc(), second, "246220627392904555552426733403936000")?);
    // 7165 of 13,608 parts isn't a multiple of 27,720 parts of the whole, and can't be averaged again.
    assert!(rt; first > second && !first.is_base());
    Ok(())
}

/// Worked example 12.
#[test]
fn an_average_of_none_is_the_minimum(rt: HostRuntime) -> Result<(), Fail> {
    assert_eq!(rt; hundredths(average(&[])), 3300);
    Ok(())
}
