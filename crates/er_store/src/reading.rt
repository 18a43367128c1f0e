ghost use Rattle.std.specs.Prelude.{◌≡◌, ℕ, IfOk, IfErr};
ghost use Rattle.sqlite.specs.State.{HasCleanDisk};
ghost use Rattle.sqlite.specs.Held.{state};
ghost use Rattle.er_event.specs.Event.{EventValue};
ghost use Rattle.er_event.specs.Sound.{IsSoundButForSeeds};
ghost use Rattle.er_event.specs.declared.refusals.Place.{Place};
ghost use Rattle.er_event.specs.declared.refusals.Refusal.{Refusal};
ghost use Rattle.er_store.specs.Layout.{Layout};
ghost use Rattle.er_store.specs.Representing.{Represents, RepresentsAt, RepresentsIn};
ghost use Rattle.er_store.specs.Tables.{read_slip_of};
ghost use Rattle.er_store.specs.Damage.{IsMisreadAs};
ghost use Rattle.er_store.specs.Fault.{reading_refusal, IsLoadFault};
ghost use Rattle.er_store.specs.Slip.{named_pairings};
ghost use Rattle.er_store.specs.inside.Looking.{OnlyLooks, FindsBy, FailsToRead};
ghost use Rattle.er_store.specs.inside.Lookup.{IsOurs, FindsRows};
ghost use Rattle.er_store.specs.inside.Meetings.{meeting_rows};

use crate::rows::{MeetingRow, NamedPairing, push_row, typed_rows};
use crate::tables::TableRow;
use er_event::{Cause, Place, Refusal};
use sqlite::{Alter, Connection, Error, ErrorCode, params};
use std::alloc::Global;

/// Reads the rows of a table of this version, in the order of its key. A crash in it leaves what it could leave before.
pub fn read_table<T: TableRow, S: Alter>(
    alloc: Global,
    conn: &mut Connection<S>,
    version: u8,
) -> Result<Vec<T>, Error>
    requires { IsOurs T.form T.table }
    ensures looks { OnlyLooks S.Store conn.old result conn.new }
    ensures finds { HasCleanDisk (state S.Store conn.new)
        → IfOk result (λ rows. FindsRows T.form T.table (T.table.read version)
        (state S.Store conn.old).now rows.items) }
    ensures misread { HasCleanDisk (state S.Store conn.new)
        → IfErr result (λ why. (at : Place) → reading_refusal T.table.place why ≡ Refusal.Damaged at
        → IsMisreadAs T.form (T.table.read version) (state S.Store conn.old).now) }
    ensures refused { HasCleanDisk (state S.Store conn.new) → (l : Layout)
        → T.table.read l.version ≡ T.table.read version → (e : EventValue) (s : ℕ)
        → RepresentsAt l (state S.Store conn.old).now e s → IsSoundButForSeeds e
        → FailsToRead S.Store conn.old result conn.new }
{
    let rows = conn.query_all(T::read(version), &[])?;
    typed_rows(alloc, &rows)
}

pub const READ_SLIP: &str =
    "SELECT p.round, p.tab, p.lo, p.hi, p.swapped, p.done, p.x, p.y, p.d, l.name, h.name FROM pairing AS p LEFT JOIN player AS l ON l.no = p.lo LEFT JOIN player AS h ON h.no = p.hi WHERE p.round = ?1 AND p.tab = ?2";

pub const READ_SLIP2: &str =
    "SELECT p.round, p.tab, p.lo, p.hi, p.swapped, p.done, p.x, p.y, p.d, l.name, h.name FROM pairing AS p LEFT JOIN player2 AS l ON l.no = p.lo LEFT JOIN player2 AS h ON h.no = p.hi WHERE p.round = ?1 AND p.tab = ?2";

/// The statement that reads a match with the names of its players, in tables of this version.
fn slip_text(version: u8) -> &'static str
    ensures { result.now ≡ read_slip_of version }
{
    if version == 2 { READ_SLIP2 } else { READ_SLIP }
}

/// Reads the match of a round and a table with the names of its players, in tables of this version. A crash in it leaves what it could
/// leave before.
pub fn read_slip<S: Alter>(
    alloc: Global,
    conn: &mut Connection<S>,
    version: u8,
    round: u32,
    table: u32,
) -> Result<Vec<NamedPairing>, Error>
    ensures looks { OnlyLooks S.Store conn.old result conn.new }
    ensures exact { FindsBy S.Store (RepresentsIn version)
        (λ e s read. IfOk read (λ rows. rows.items ≡ named_pairings e round table))
        conn.old result conn.new }
    ensures refused { FindsBy S.Store (RepresentsIn version)
        (λ e s read. FailsToRead S.Store conn.old read conn.new) conn.old result conn.new }
{
    let rows = conn.query_all(slip_text(version), params![round, table])?;
    typed_rows(alloc, &rows)
}

pub const READ_MEETINGS: &str =
    "SELECT p.round, p.tab, p.done, l.no, l.points, l.rounds, l.gamepoints, l.games, h.no, h.points, h.rounds, h.gamepoints, h.games FROM pairing AS p LEFT JOIN tally AS l ON l.no = p.lo LEFT JOIN tally AS h ON h.no = p.hi WHERE +p.lo > 0 ORDER BY p.round, p.tab";

/// Reads the matches of two players by round and table, with the totals of the two, one row at a time. A crash in it leaves what it could
/// leave before.
pub fn read_meetings<S: Alter>(
    alloc: Global,
    conn: &mut Connection<S>,
) -> Result<Vec<MeetingRow>, Error>
    ensures looks { OnlyLooks S.Store conn.old result conn.new }
    ensures exact { FindsBy S.Store Represents
        (λ e s read. IfOk read (λ rows. rows.items ≡ meeting_rows e)) conn.old result conn.new }
    ensures refused { FindsBy S.Store Represents
        (λ e s read. FailsToRead S.Store conn.old read conn.new) conn.old result conn.new }
{
    let mut meetings = Vec::new(alloc);
    let mut rows = conn.query(READ_MEETINGS, &[])?;
    while let Some(row) = rows.next()? {
        push_row(&mut meetings, row)?;
    }
    Ok(meetings)
}

/// What a refusal of a read of this table means to a caller.
pub fn reading_refusal(table: Place, error: Error) -> Refusal
    ensures value { result ≡ reading_refusal table error }
    ensures fault { IsLoadFault result }
{
    match error {
        Error::SqliteFailure(ErrorCode::OutOfMemory) => Refusal::Memory,
        Error::SqliteFailure(
            ErrorCode::CannotOpen
            | ErrorCode::DatabaseBusy
            | ErrorCode::NotADatabase
            | ErrorCode::DatabaseCorrupt
            | ErrorCode::SystemIoFailure
            | ErrorCode::DiskFull
            | ErrorCode::TooBig
            | ErrorCode::SchemaTooBig
            | ErrorCode::Closed
            | ErrorCode::OperationInterrupted
            | ErrorCode::TransactionState
            | ErrorCode::NoSuchSavepoint,
        ) => Refusal::Store {
            cause: Cause::Refused,
        },
        _ => Refusal::Damaged { table },
    }
}
