ghost use Rattle.std.specs.Prelude.{◌≡◌, ◌≤◌, ◌⊎◌, ℕ, Some, [], ◌∷◌, false, IfOk, IfErr, MatchResult};
ghost use Rattle.sqlite.specs.State.{HasCleanDisk};
ghost use Rattle.sqlite.specs.Held.{state};
ghost use Rattle.er_event.specs.declared.commands.TheConstants.{MAX_SERIAL};
ghost use Rattle.er_event.specs.declared.refusals.Place.{Place};
ghost use Rattle.er_event.specs.Event.{EventValue};
ghost use Rattle.er_event.specs.Sound.{IsSoundButForSeeds};
ghost use Rattle.er_event.specs.Rows.{event_row, tally_rows};
ghost use Rattle.er_event.specs.Parts.{IsFirstFault, parts_of};
ghost use Rattle.er_event.specs.Version.{IsVersion};
ghost use Rattle.er_store.specs.Layout.{Layout};
ghost use Rattle.er_store.specs.Representing.{HasTables, RepresentsAt};
ghost use Rattle.er_store.specs.Loading.{HoldsEvent};
ghost use Rattle.er_store.specs.Damage.{says_second, said_version, ReadsParts, ReadsTallies, IsRowFault, IsAtFault, IfDamaged};
ghost use Rattle.er_store.specs.Fault.{IsFault, IsLoadFault};
ghost use Rattle.er_store.specs.inside.Looking.{OnlyLooks};
ghost use Rattle.er_store.specs.inside.Lookup.{IsOurs, IsWhole, LooksUp, FindsRows, MissesRows, FindsParts, FindsTables, MissesTables};

use crate::reading::{read_table, reading_refusal};
use crate::tables::TableRow;
use er_event::{
    BracketRow, Event, EventRow, Items, PairingRow, Parts, PartsFault, Place, PlayerRow, Refusal,
    TallyRow,
};
use sqlite::{Alter, Connection};
use std::alloc::Global;

/// Loads the rows of a table of this version.
fn load_rows<T: TableRow, S: Alter>(
    alloc: Global,
    conn: &mut Connection<S>,
    version: u8,
) -> Result<Items<T>, Refusal>
    requires { IsOurs T.form T.table }
    ensures { LooksUp S.Store (FindsRows T.form T.table (T.table.read version))
        (MissesRows T.form T.table (T.table.read version)) conn.old result conn.new }
{
    match read_table(alloc, conn, version) {
        Ok(rows) => Ok(Items::from(rows)),
        Err(error) => Err(reading_refusal(T::place(), error)),
    }
}

/// Whether a row of the event says version 2.
fn says_second(rows: &[EventRow]) -> bool
    ensures { result ≡ says_second rows.now }
{
    rows.iter().any(|row| row.version == 2)
}

/// The version in whose tables the players are: 2 if a row of the event says so, and else 1.
fn said_version(rows: &[EventRow]) -> u8
    ensures { result ≡ said_version rows.now }
{
    if says_second(rows) { 2 } else { 1 }
}

/// Reads the rows of the four tables that an event is made of. Those of the event are read first, since they say where the players are.
fn read_parts<S: Alter>(alloc: Global, conn: &mut Connection<S>) -> Result<Parts, Refusal>
    ensures { LooksUp S.Store FindsParts MissesTables conn.old result conn.new }
{
    let event = load_rows::<EventRow, S>(alloc, conn, 1)?;
    let version = said_version(event.as_slice());
    let players = load_rows::<PlayerRow, S>(alloc, conn, version)?;
    let pairings = load_rows::<PairingRow, S>(alloc, conn, version)?;
    let bracket = load_rows::<BracketRow, S>(alloc, conn, version)?;
    Ok(Parts {
        event,
        players,
        pairings,
        bracket,
    })
}

/// Reads the rows of the five tables, those of the totals apart.
fn read_tables<S: Alter>(
    alloc: Global,
    conn: &mut Connection<S>,
) -> Result<(Parts, Items<TallyRow>), Refusal>
    ensures { LooksUp S.Store FindsTables MissesTables conn.old result conn.new }
{
    let parts = read_parts(alloc, conn)?;
    let tallies = load_rows::<TallyRow, S>(alloc, conn, 1)?;
    Ok((parts, tallies))
}

/// The serial in the event's row, if it is one.
fn serial_of(rows: &[EventRow]) -> Option<u32>
    ensures { (v : ℕ) (e : EventValue) (s : ℕ) → s ≤ MAX_SERIAL → rows.now ≡ event_row v e s ∷ []
        → result ≡ Some s }
{
    match rows {
        [row] => u32::try_from(row.serial).ok(),
        _ => None,
    }
}

/// Makes the event that the rows are of, with its serial and the version of its tables.
fn event_of(alloc: Global, parts: Parts) -> Result<(Event, u32, u8), Refusal>
    ensures value { IfOk result (λ it. IsWhole parts it.0 it.1 it.2) }
    ensures only { (v : ℕ) (e : EventValue) (s : ℕ) → IsWhole parts e s v
        → IfOk result (λ it. (it.0 ≡ e) × (it.1 ≡ s) × (it.2 ≡ v)) }
    ensures refused { IfErr result (λ why. (why ≡ Refusal.Memory)
        ⊎ ((place : Place) × (why ≡ Refusal.Damaged place) × IsFirstFault parts place)) }
{
    let serial = serial_of(parts.event.as_slice());
    let version = said_version(parts.event.as_slice());
    let event = match Event::from_parts(alloc, parts) {
        Ok(event) => event,
        Err(PartsFault::Memory) => return Err(Refusal::Memory),
        Err(PartsFault::Damaged(table)) => return Err(Refusal::Damaged { table }),
    };
    let Some(serial) = serial else { unreachable!() };
    Ok((event, serial, version))
}

/// Makes the event of the rows, with its serial and its version, if the totals are the event's.
fn counted_event_of(
    alloc: Global,
    parts: Parts,
    tallies: &[TallyRow],
) -> Result<(Event, u32, u8), Refusal>
    ensures value { IfOk result (λ it. IsWhole parts it.0 it.1 it.2
        × (tallies.now ≡ tally_rows it.0)) }
    ensures only { (v : ℕ) (e : EventValue) (s : ℕ) → IsWhole parts e s v
        → tallies.now ≡ tally_rows e
        → IfOk result (λ it. (it.0 ≡ e) × (it.1 ≡ s) × (it.2 ≡ v)) }
    ensures refused { IfErr result (λ why. (why ≡ Refusal.Memory)
        ⊎ ((place : Place) × (why ≡ Refusal.Damaged place)
        × IsRowFault parts tallies.now place)) }
{
    let (event, serial, version) = event_of(alloc, parts)?;
    if event.has_tallies(tallies) {
        Ok((event, serial, version))
    } else {
        let table = Place::TallyTable;
        Err(Refusal::Damaged { table })
    }
}

/// Reads the event, its serial and the version of its tables.
pub fn load_tables<S: Alter>(
    alloc: Global,
    conn: &mut Connection<S>,
) -> Result<(Event, u32, u8), Refusal>
    ensures looks { OnlyLooks S.Store conn.old result conn.new }
    ensures low { IfOk result (λ it. it.1 ≤ MAX_SERIAL) }
    ensures sound { IfOk result (λ it. IsSoundButForSeeds it.0) }
    ensures known { IfOk result (λ it. IsVersion it.2) }
    ensures shows { HasCleanDisk (state S.Store conn.new)
        → IfOk result (λ it. HasTables it.2 (state S.Store conn.old).now.schema
        → HoldsEvent it.2 (state S.Store conn.old).now it.0 it.1) }
    ensures found { HasCleanDisk (state S.Store conn.new)
        → (l : Layout) (e : EventValue) (s : ℕ) → RepresentsAt l (state S.Store conn.old).now e s
        → IsSoundButForSeeds e
        → MatchResult result (λ it. (it.0 ≡ e) × (it.1 ≡ s) × (it.2 ≡ l.version)) IsFault }
    ensures fault { IfErr result IsLoadFault }
    ensures reads { HasCleanDisk (state S.Store conn.new)
        → IfOk result (λ it. ReadsParts (state S.Store conn.old).now (parts_of it.2 it.0 it.1)
        × ReadsTallies (state S.Store conn.old).now (tally_rows it.0)) }
    ensures first { HasCleanDisk (state S.Store conn.new)
        → IfErr result (IfDamaged (IsAtFault (state S.Store conn.old).now)) }
{
    let (parts, tallies) = read_tables(alloc, conn)?;
    counted_event_of(alloc, parts, tallies.as_slice())
}
