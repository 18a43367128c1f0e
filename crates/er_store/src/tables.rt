ghost use Rattle.std.specs.Prelude.{◌≡◌};
ghost use Rattle.er_store.specs.Shape.{Shape, event_table, player_table, pairing_table, bracket_table, tally_table};

use crate::rows::FromRow;
use er_event::{BracketRow, EventRow, PairingRow, Place, PlayerRow, TallyRow};

/// A row of one of the five tables.
pub trait TableRow: FromRow {
    ghost table: { Shape Self };

    /// How a refusal names the table.
    fn place() -> Place
        ensures { result ≡ table.place };

    /// The statement that reads the table in this version, in the order of its key.
    fn read(version: u8) -> &'static str
        ensures { result.now ≡ table.read version };
}

impl TableRow for EventRow {
    ghost table = { event_table };

    fn place() -> Place {
        Place::EventTable
    }

    fn read(_version: u8) -> &'static str {
        "SELECT id, version, serial, name, rounds, cut, phase FROM event ORDER BY id"
    }
}

impl TableRow for PlayerRow {
    ghost table = { player_table };

    fn place() -> Place {
        Place::PlayerTable
    }

    fn read(version: u8) -> &'static str {
        if version == 2 {
            "SELECT no, name, dropped, joined FROM player2 ORDER BY no"
        } else {
            "SELECT no, name, dropped, 0 AS joined FROM player ORDER BY no"
        }
    }
}

impl TableRow for PairingRow {
    ghost table = { pairing_table };

    fn place() -> Place {
        Place::PairingTable
    }

    fn read(_version: u8) -> &'static str {
        "SELECT round, tab, lo, hi, swapped, done, x, y, d FROM pairing ORDER BY round, tab"
    }
}

impl TableRow for BracketRow {
    ghost table = { bracket_table };

    fn place() -> Place {
        Place::BracketTable
    }

    fn read(_version: u8) -> &'static str {
        "SELECT stage, slot, a, b, done, x, y, d FROM bracket ORDER BY stage, slot"
    }
}

impl TableRow for TallyRow {
    ghost table = { tally_table };

    fn place() -> Place {
        Place::TallyTable
    }

    fn read(_version: u8) -> &'static str {
        "SELECT no, points, rounds, gamepoints, games FROM tally ORDER BY no"
    }
}
