ghost use Rattle.std.specs.Prelude.{◌≡◌, ◌↔◌, ◌==◌, ◌||◌, ◌&&◌, [], Some, IsSome, IfSome, option_map, slice_set};
ghost use Rattle.std.specs.List.{list_any};
ghost use Rattle.er_event.specs.Round.{is_same_pairing};
ghost use Rattle.er_event.specs.inside.Seats.{seat_of, may_sit, AreSeats};
ghost use Rattle.er_event.specs.inside.Seen.{IsSeatedOnce};

use crate::matches::Match;
use crate::players::MAX_PLAYERS;
use std::marker::Model;

/// How many numbers a table has: those of all players, and 0 for the bye.
pub(crate) const NUMBERS: usize = MAX_PLAYERS as usize + 1;

/// The match at which the number sits, looked for in all of them.
fn find_seat(matches: &[Match], number: u16) -> Option<&Match>
    ensures { option_map (λ m. m.now) result ≡ seat_of matches.now number }
{
    matches
        .iter()
        .find(|played| played.a == number || played.b == number)
}

/// The match at which the number sits, by the table of these matches.
fn seat_in(table: &[Option<Match>; NUMBERS], matches: &[Match], number: u16) -> Option<Match>
    requires { AreSeats matches.now table.now }
    ensures { result ≡ seat_of matches.now number }
{
    match table.get(usize::from(number)) {
        Some(seat) => *seat,
        // No player has such a number.
        None => find_seat(matches, number).copied(),
    }
}

/// Whether the two of the match differ, and sit at none of the earlier ones, by the table of these.
fn may_sit(table: &[Option<Match>; NUMBERS], earlier: &[Match], played: &Match) -> bool
    requires { AreSeats earlier.now table.now }
    ensures { result ≡ may_sit earlier.now played.now }
{
    played.a != played.b
        && seat_in(table, earlier, played.a).is_none()
        && seat_in(table, earlier, played.b).is_none()
}

/// The table of no matches.
fn no_seats() -> [Option<Match>; NUMBERS]
    ensures { AreSeats [] result }
{
    [None; NUMBERS]
}

/// Notes at which match the number sits, if a player can have that number.
fn seat(table: &mut [Option<Match>; NUMBERS], number: u16, played: Match)
    ensures { table.new ≡ slice_set table.old number (Some played) }
{
    let number = usize::from(number);
    if number < table.len() {
        table[number] = Some(played);
    }
}

/// Whether the two matches have the same two players, or the same player and the bye.
fn are_same(one: &Match, other: &Match) -> bool
    ensures { result ≡ is_same_pairing one.now other.now }
{
    (one.a == other.a && one.b == other.b) || (one.a == other.b && one.b == other.a)
}

/// Matches at which nobody sits twice, with a table that tells where a player sits.
#[derive(Debug, Drop)]
pub(crate) struct Seats<'a> {
    matches: &'a [Match],
    table: [Option<Match>; NUMBERS],
}

impl<'a> Model for Seats<'a> {
    ghost use Rattle.std.specs.Prelude.{List};
    ghost use Rattle.er_event.specs.declared.matches.Match.{Match};
    ghost use Rattle.er_event.specs.inside.Seats.{AreTabled};

    ghost Value = { List Match };

    ghost view = { λ s. s.matches.now };

    ghost invariant = { λ s. AreTabled s.matches.now s.table };
}

impl<'a> Seats<'a> {
    /// The matches with their table, or none if somebody sits at two of them, or opposite to themself.
    pub(crate) fn of(matches: &'a [Match]) -> Option<Seats<'a>>
        ensures once { IsSome result ↔ IsSeatedOnce matches.now }
        ensures value { IfSome result (λ seats. seats ≡ matches.now) }
    {
        let mut table = no_seats();
        for (place, played) in matches.iter().enumerate() {
            if !may_sit(&table, &matches[..place], played) {
                return None;
            }
            seat(&mut table, played.a, *played);
            seat(&mut table, played.b, *played);
        }
        Some(Seats { matches, table })
    }

    /// The match at which the number sits.
    pub(crate) fn at(&self, number: u16) -> Option<Match>
        ensures value { result ≡ seat_of self.now number }
        ensures once { IsSeatedOnce self.now }
    {
        seat_in(&self.table, self.matches, number)
    }

    /// Whether one of the matches has the two of this one.
    pub(crate) fn has_pairing(&self, played: &Match) -> bool
        ensures { result ≡ list_any (λ m. is_same_pairing played.now m) self.now }
    {
        match seat_in(&self.table, self.matches, played.a) {
            Some(seat) => are_same(played, &seat),
            None => false,
        }
    }
}
