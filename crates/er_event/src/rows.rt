//! The rows of the five tables, and the parts of an event that they are read as.
mod bracket;
mod event;
mod pairing;
mod player;
mod tally;

ghost use Rattle.std.specs.Prelude.{◌≡◌, Bool, IfSome, Some};
ghost use Rattle.er_event.specs.Rows.{flag};

pub use bracket::{BracketRow, read_bracket};
pub use event::{EventRow, MOST_OLD_ROUNDS, Setup, read_event};
pub use pairing::{PairingRow, match_at_table, read_stored};
pub use player::{PlayerRow, read_players};
pub use tally::{TallyRow, is_row_of, read_tally};

/// Reads the number of a column that says yes or no: 1 or 0.
pub fn read_flag(number: i64) -> Option<bool>
    ensures value { IfSome result (λ set. number ≡ flag set) }
    ensures exact { (set : Bool) → number ≡ flag set → result ≡ Some set }
{
    match number {
        0 => Some(false),
        1 => Some(true),
        _ => None,
    }
}
