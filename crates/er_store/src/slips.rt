ghost use Rattle.std.specs.Prelude.{◌≡◌, ◌⊎◌, Some, None, [], IfSome, IfOk, IfErr};
ghost use Rattle.sqlite.specs.State.{HasCleanDisk, IsUnchanged};
ghost use Rattle.sqlite.specs.Held.{state};
ghost use Rattle.er_event.specs.declared.slips.SlipRow.{SlipRow};
ghost use Rattle.er_event.specs.Slip.{slip_of};
ghost use Rattle.er_store.specs.Fault.{IsReadFault};
ghost use Rattle.er_store.specs.Slip.{Side, number_of_side, name_of_side, named_pairing, IsPlayer, IsLawfulSlip, FindsSlipOrFails};
ghost use Rattle.er_store.specs.inside.Looking.{OnlyLooks, FindsBy};
ghost use Rattle.er_store.specs.Representing.{RepresentsIn};

use crate::faults::{BAD_ROW, refusal_of};
use crate::reading::read_slip;
use crate::rows::NamedPairing;
use er_event::{Items, Name, PlayerNo, Refusal, SlipRow, match_at_table};
use sqlite::{Alter, Connection};
use std::alloc::Global;

/// Who has this number and this name: nobody has 0 and no name.
fn side(number: u16, name: &Option<Items<u8>>) -> Option<Option<(PlayerNo, Name)>>
    ensures value { IfSome result
        (λ who. (number ≡ number_of_side who) × (name.now ≡ name_of_side who)
        × IfSome who IsPlayer) }
    ensures exact { (who : Side) → IfSome who IsPlayer → number ≡ number_of_side who
        → name.now ≡ name_of_side who → result ≡ Some who }
{
    match (PlayerNo::try_new(number), name) {
        (Some(number), Some(name)) => {
            let name = Name::try_from_bytes(name.as_slice()).ok()?;
            Some(Some((number, name)))
        }
        (None, None) if number == 0 => Some(None),
        _ => None,
    }
}

/// Reads the slip that a row shows, if the format allows it.
fn slip_of(round: u8, table: u16, row: &NamedPairing) -> Option<SlipRow>
    ensures value { IfSome result (λ slip. (row.now ≡ named_pairing slip) × (slip.round ≡ round)
        × (slip.table ≡ table) × IsLawfulSlip slip) }
    ensures exact { (slip : SlipRow) → IsLawfulSlip slip → slip.round ≡ round → slip.table ≡ table
        → row.now ≡ named_pairing slip → result ≡ Some slip }
{
    let played = match_at_table(round, table, &row.pairing)?;
    let low = side(played.a.min(played.b), &row.lo_name)?;
    let high = side(played.a.max(played.b), &row.hi_name)?;
    let (first, second) = if played.b < played.a {
        (high, low)
    } else {
        (low, high)
    };
    Some(SlipRow {
        round,
        table,
        first: first?,
        second,
        score: played.score,
    })
}

/// Finds the slip of the match at a table of a round, by one statement, in tables of this version.
pub fn find_slip<S: Alter>(
    alloc: Global,
    conn: &mut Connection<S>,
    version: u8,
    round: u8,
    table: u16,
) -> Result<SlipRow, Refusal>
    ensures looks { OnlyLooks S.Store conn.old result conn.new }
    ensures found { FindsBy S.Store (RepresentsIn version) (λ e s. FindsSlipOrFails e round table)
        conn.old result conn.new }
    ensures allowed { IfOk result (λ slip. (slip.round ≡ round) × (slip.table ≡ table)
        × IsLawfulSlip slip) }
    ensures fault { IfErr result (λ why. (why ≡ Refusal.NoSuchMatch) ⊎ IsReadFault why) }
    ensures missed { HasCleanDisk (state S.Store conn.new) → IfErr result (λ why. why
        ≡ Refusal.NoSuchMatch
        → IsUnchanged (state S.Store conn.old) (state S.Store conn.new)) }
{
    let rows = match read_slip(alloc, conn, version, u32::from(round), u32::from(table)) {
        Ok(rows) => rows,
        Err(error) => return Err(refusal_of(error)),
    };
    match rows.as_slice() {
        [] => Err(Refusal::NoSuchMatch),
        [row] => slip_of(round, table, row).ok_or(BAD_ROW),
        _ => Err(BAD_ROW),
    }
}
