ghost use Rattle.std.specs.Prelude.{◌≡◌, ◌≢◌, ◌↔◌, ◌<◌, ◌≤◌, ℕ, pos, [], ◌∷◌, Err, IsTrue, IsNone, IfSome, IfOk};
ghost use Rattle.er_event.specs.declared.commands.TheConstants.{MAX_SERIAL};
ghost use Rattle.er_event.specs.declared.refusals.Place.{Place};
ghost use Rattle.er_event.specs.declared.events.Phase.{Phase};
ghost use Rattle.er_event.specs.Event.{EventValue};
ghost use Rattle.er_event.specs.Parts.{IsEventRow};
ghost use Rattle.er_event.specs.Rows.{phase_code};
ghost use Rattle.er_event.specs.Version.{IsVersion, KeepsRounds};
ghost use Rattle.er_share.specs.declared.TheConstants.{MAX_ROUNDS};
ghost use Rattle.er_event.specs.inside.Reading.{IsSetUpAs};

use crate::commands::MAX_SERIAL;
use crate::events::{PartsFault, Phase, is_setup};
use crate::items::Items;
use crate::names::Name;
use crate::refusals::Place;
use er_share::MAX_ROUNDS;

/// The row of the table `event`.
#[derive(Drop)]
pub struct EventRow {
    pub id: i64,
    pub version: i64,
    pub serial: i64,
    pub name: Items<u8>,
    pub rounds: i64,
    pub cut: i64,
    pub phase: i64,
}

/// What the event's row says of the event, and of which version its tables are.
#[derive(Clone, Copy)]
pub struct Setup {
    pub version: u8,
    pub name: Name,
    pub rounds: u8,
    pub cut: u8,
    pub phase: Phase,
}

/// How many rounds tables of version 1 keep.
pub const MOST_OLD_ROUNDS: u8 = 9;

const DAMAGED: PartsFault = PartsFault::Damaged(Place::EventTable);

fn phase_of(value: i64) -> Option<Phase>
    ensures value { IfSome result (λ phase. value ≡ pos (phase_code phase)) }
    ensures none { IsNone result → (phase : Phase) → value ≢ pos (phase_code phase) }
{
    match value {
        0 => Some(Phase::Enrolling),
        1 => Some(Phase::Swiss),
        2 => Some(Phase::Playoff),
        3 => Some(Phase::Finished),
        _ => None,
    }
}

/// Reads a number below 256.
pub fn small_of(value: i64) -> Option<u8>
    ensures value { IfSome result (λ n. value ≡ pos n) }
    ensures none { IsNone result → (n : ℕ) → n < 256 → value ≢ pos n }
{
    u8::try_from(value).ok()
}

fn is_serial(value: i64) -> bool
    ensures { IsTrue result ↔ ((serial : ℕ) × (serial ≤ MAX_SERIAL) × (value ≡ pos serial)) }
{
    u32::try_from(value).is_ok_and(|serial| serial <= MAX_SERIAL)
}

/// How many rounds tables of this version keep, if it is one.
fn most_rounds(version: u8) -> Option<u8>
    ensures value { IfSome result (λ most. IsVersion version
        × ((rounds : ℕ) → rounds ≤ most → KeepsRounds version rounds)) }
    ensures exact { (rounds : ℕ) → rounds ≤ MAX_ROUNDS → KeepsRounds version rounds
        → IfSome result (λ most. rounds ≤ most) }
    ensures none { IsNone result → IsVersion version → ⊥ }
{
    match version {
        1 => Some(MOST_OLD_ROUNDS),
        2 => Some(MAX_ROUNDS),
        _ => None,
    }
}

/// Reads what the row says, if an event may have it.
fn read_row(row: &EventRow) -> Result<Setup, PartsFault>
    ensures value { IfOk result (λ setup. (e : EventValue) → IsSetUpAs setup e
        → IsEventRow (row.now ∷ []) e) }
    ensures version { IfOk result (λ setup. (e : EventValue) (is : IsEventRow (row.now ∷ []) e)
        → is.version ≡ setup.version) }
    ensures damaged { (table : Place) → result ≡ Err (PartsFault.Damaged table)
        → (table ≡ Place.EventTable) × ((e : EventValue) → IsEventRow (row.now ∷ []) e → ⊥) }
{
    if row.id != 1 || !is_serial(row.serial) {
        return Err(DAMAGED);
    }
    let version = small_of(row.version).ok_or(DAMAGED)?;
    let most = most_rounds(version).ok_or(DAMAGED)?;
    let rounds = small_of(row.rounds).ok_or(DAMAGED)?;
    let cut = small_of(row.cut).ok_or(DAMAGED)?;
    let phase = phase_of(row.phase).ok_or(DAMAGED)?;
    let name = Name::try_from_bytes(row.name.as_slice()).map_err(|_fault| DAMAGED)?;
    if !is_setup(rounds, cut) {
        return Err(DAMAGED);
    }
    if rounds > most {
        return Err(DAMAGED);
    }
    Ok(Setup {
        version,
        name,
        rounds,
        cut,
        phase,
    })
}

/// Reads what the one row of the table says, if an event may have it.
pub fn read_event(rows: &[EventRow]) -> Result<Setup, PartsFault>
    ensures value { IfOk result (λ setup. (e : EventValue) → IsSetUpAs setup e
        → IsEventRow rows.now e) }
    ensures version { IfOk result (λ setup. (e : EventValue) (is : IsEventRow rows.now e)
        → is.version ≡ setup.version) }
    ensures damaged { (table : Place) → result ≡ Err (PartsFault.Damaged table)
        → (table ≡ Place.EventTable) × ((e : EventValue) → IsEventRow rows.now e → ⊥) }
{
    match rows {
        [row] => read_row(row),
        _ => Err(DAMAGED),
    }
}
