ghost use Rattle.std.specs.Prelude.{◌≡◌, ◌+◌, ◌<◌, length, false, ℕ, List, [], ◌∷◌, ◌++◌, Some, option_map, OnOk, IfOk, IsOk, IfSome, ◌↔◌};
ghost use Rattle.std.specs.Prelude.{IsTrue, IsFalse};
ghost use Rattle.sqlite.specs.State.{HasCleanDisk};
ghost use Rattle.sqlite.specs.Held.{state};
ghost use Rattle.sqlite.specs.Listing.{understood};
ghost use Rattle.er_event.specs.declared.commands.TheConstants.{MAX_SERIAL};
ghost use Rattle.er_event.specs.declared.rows.tally.TallyRow.{TallyRow};
ghost use Rattle.er_event.specs.Event.{EventValue};
ghost use Rattle.er_event.specs.Change.{after, with_player, with_dropped, with_round, with_stage, with_bracket, with_bracket_score, Fits};
ghost use Rattle.er_event.specs.Bracket.{slot_at};
ghost use Rattle.er_event.specs.declared.players.TheConstants.{MAX_PLAYERS};
ghost use Rattle.er_event.specs.declared.totals.Totals.{Totals};
ghost use Rattle.er_event.specs.Rows.{tally_row, tally_rows_by};
ghost use Rattle.er_event.specs.Sound.{numbers};
ghost use Rattle.er_event.specs.Totals.{totals};
ghost use Rattle.er_event.specs.Version.{CanTake, IsVersion, Keeps};
ghost use Rattle.er_store.specs.inside.Totals.{set_for};
ghost use Rattle.er_event.specs.declared.matches.Match.{Match};
ghost use Rattle.er_store.specs.inside.Steps.{IsStage};
ghost use Rattle.er_store.specs.Tables.{no_schema, tally_schema};
ghost use Rattle.er_store.specs.Layout.{Layout};
ghost use Rattle.er_store.specs.Representing.{RepresentsAt, IsNew, RepresentsNow, KeepsOthers, CanRead};
ghost use Rattle.er_store.specs.Representing.{AfterCrash, AreTreesOf, Either, IsStoredAmong};
ghost use Rattle.er_store.specs.Representing.{ReadsEvent};
ghost use Rattle.er_store.specs.Beside.{HoldsBeside, IsStoredBeside};
ghost use Rattle.er_store.specs.inside.Making.{IsReadyBeside};
ghost use Rattle.er_store.specs.inside.Steps.{made_players, LeavesOthers, BringsTo};
ghost use Rattle.er_store.specs.inside.Within.{tx_state, Lends, Achieves, Brings, Counts, Inside, HasPlayer};
ghost use Rattle.er_store.specs.inside.Looking.{OnlyLooks, Transacts};

use crate::creation::create_all;
use crate::statements::{
    insert_event, insert_pairing, insert_player, insert_player2, insert_slot, insert_tally,
    set_dropped, set_dropped2, set_phase, set_score, set_serial, set_slot_score, set_tally,
};
use crate::tables::TableRow;
use er_event::laws::{events_are_sound, others_keep_totals};
use er_event::{
    BracketRow, Change, Event, EventRow, Items, Match, PairingRow, Phase, Player, PlayerNo, Score,
    TallyRow, Totals,
};
use sqlite::{Alter, Connection, Error, Transaction};

/// Inserts the matches of one more round.
fn insert_round<S: Alter>(
    tx: &mut Transaction<'_, S>,
    event: &Event,
    matches: &[Match],
) -> Result<(), Error>
    requires fits { Fits event.now (Change.AddRound matches.now) }
    ensures lends { Lends S.Store tx.old tx.new }
    ensures makes { (l : Layout)
        → Brings S.Store l event.now (with_round event.now matches.now) tx.old result tx.new }
{
    let round = event.stored().len() as u8 + 1;
    for (place, played) in matches.iter().enumerate() {
        let row = PairingRow::of(round, place + 1, played);
        insert_pairing(tx, &row)?;
    }
    Ok(())
}

/// Inserts the matches of one more stage of the playoff.
fn insert_stage<S: Alter>(
    tx: &mut Transaction<'_, S>,
    stage: u8,
    matches: &[Match],
) -> Result<(), Error>
    requires { IsStage matches.now }
    ensures lends { Lends S.Store tx.old tx.new }
    ensures makes { (l : Layout) (e : EventValue) → stage ≡ length e.bracket.stages + 1
        → Brings S.Store l e (with_stage e matches.now) tx.old result tx.new }
{
    for (place, played) in matches.iter().enumerate() {
        let row = BracketRow::of(stage, place + 1, played);
        insert_slot(tx, &row)?;
    }
    Ok(())
}

/// The number of the stage that would be next.
fn next_number(event: &Event) -> u8
    ensures { result ≡ length event.now.bracket.stages + 1 }
{
    event.bracket().stages.as_slice().len() as u8 + 1
}

/// Inserts the first stage of the playoff, which begins.
fn begin_playoff<S: Alter>(
    tx: &mut Transaction<'_, S>,
    event: &Event,
    matches: &[Match],
) -> Result<(), Error>
    requires fits { Fits event.now (Change.AddBracket matches.now) }
    ensures lends { Lends S.Store tx.old tx.new }
    ensures makes { (l : Layout)
        → Brings S.Store l event.now (with_bracket event.now matches.now) tx.old result tx.new }
{
    insert_stage(tx, next_number(event), matches)?;
    set_phase(tx, Phase::Playoff)
}

/// Gives the match of a slot the score, and inserts the stage that follows, if one does.
fn score_stages<S: Alter>(
    tx: &mut Transaction<'_, S>,
    event: &Event,
    stage: u8,
    slot: u8,
    score: Score,
    next: Option<&Items<Match>>,
) -> Result<(), Error>
    requires found { (m : Match) × (slot_at event.now stage slot ≡ Some m) }
    requires few { IfSome next (λ matches. IsStage matches.now) }
    ensures lends { Lends S.Store tx.old tx.new }
    ensures makes { (l : Layout) → Brings S.Store l event.now
        (with_bracket_score event.now stage slot score (option_map (λ m. m.now) next.entry) false)
        tx.old result tx.new }
{
    set_slot_score(tx, u32::from(stage), u32::from(slot), score)?;
    match next {
        Some(matches) => insert_stage(tx, next_number(event), matches.as_slice()),
        None => Ok(()),
    }
}

/// Inserts one player into the table of this version. That of version 1 has no place for rounds that a player missed.
fn add_player<S: Alter>(
    tx: &mut Transaction<'_, S>,
    version: u8,
    number: u32,
    name: &str,
    joined: u32,
) -> Result<(), Error>
    ensures lends { Lends S.Store tx.old tx.new }
    ensures makes { (l : Layout) (e : EventValue) → l.version ≡ version
        → number ≡ length e.players + 1 → joined ≡ length e.stored → (version ≡ 1 → joined ≡ 0)
        → Brings S.Store l e (with_player e name.now) tx.old result tx.new }
{
    if version == 1 {
        insert_player(tx, number, name, false)
    } else {
        insert_player2(tx, number, name, false, joined)
    }
}

/// Drops the player of this number in the table of this version.
fn drop_player<S: Alter>(tx: &mut Transaction<'_, S>, version: u8, number: u32) -> Result<(), Error>
    ensures lends { Lends S.Store tx.old tx.new }
    ensures makes { (l : Layout) (e : EventValue) → l.version ≡ version → HasPlayer e number
        → Brings S.Store l e (with_dropped e number) tx.old result tx.new }
{
    if version == 1 {
        set_dropped(tx, number)
    } else {
        set_dropped2(tx, number)
    }
}

/// Makes the change, and leaves the totals and the serial.
fn change_rows<S: Alter>(
    tx: &mut Transaction<'_, S>,
    version: u8,
    event: &Event,
    change: &Change,
) -> Result<(), Error>
    requires fits { Fits event.now change.now }
    requires takes { CanTake version event.now change.now }
    ensures lends { Lends S.Store tx.old tx.new }
    ensures makes { (l : Layout) → l.version ≡ version
        → Brings S.Store l event.now (after event.now change.now) tx.old result tx.new }
{
    match change {
        Change::AddPlayer { name } => {
            let number = event.players().len() as u32 + 1;
            let joined = event.stored().len() as u32;
            add_player(tx, version, number, name.as_str(), joined)
        }
        Change::SetDropped { player } => drop_player(tx, version, u32::from(player.get())),
        Change::SetPhase { phase } => set_phase(tx, *phase),
        Change::AddRound { matches } => insert_round(tx, event, matches.as_slice()),
        Change::SetScore {
            round,
            table,
            score,
        } => set_score(tx, u32::from(*round), u32::from(*table), *score),
        Change::AddBracket { matches } => begin_playoff(tx, event, matches.as_slice()),
        Change::SetBracketScore {
            stage,
            slot,
            score,
            next,
            finished,
        } => {
            score_stages(tx, event, *stage, *slot, *score, next.as_ref())?;
            if *finished {
                set_phase(tx, Phase::Finished)?;
            }
            Ok(())
        }
    }
}

/// Sets the totals of one player.
fn set_totals<S: Alter>(
    tx: &mut Transaction<'_, S>,
    player: PlayerNo,
    now: Totals,
) -> Result<(), Error>
    ensures lends { Lends S.Store tx.old tx.new }
    ensures makes { (l : Layout) (e : EventValue) (before : ℕ → Totals) → HasPlayer e player
        → Counts S.Store l e (tally_rows_by before e.players)
        (tally_rows_by (set_for player now before) e.players) tx.old result tx.new }
{
    let row = TallyRow::of(player, now);
    set_tally(tx, &row)
}

/// Sets the totals of one player of the event to those after the change, if they differ or a match of the player is corrected.
fn recount_one<S: Alter>(
    tx: &mut Transaction<'_, S>,
    event: &Event,
    change: &Change,
    player: &Player,
    was: Totals,
    now: Totals,
) -> Result<(), Error>
    ensures lends { Lends S.Store tx.old tx.new }
    ensures makes { (l : Layout) (e : EventValue) (before : ℕ → Totals)
        → HasPlayer e player.now.no
        → before player.now.no ≡ was
        → LeavesOthers l (tx_state S.Store tx.old) (tx_state S.Store tx.old)
        → Counts S.Store l e (tally_rows_by before e.players)
        (tally_rows_by (set_for player.now.no now before) e.players)
        tx.old result tx.new }
{
    if now != was || event.corrects(change, player.no) {
        set_totals(tx, player.no, now)?;
    }
    Ok(())
}

/// If the change may alter any totals, sets those that it alters, and those of the players of a
/// match that it corrects.
fn recount<S: Alter>(
    tx: &mut Transaction<'_, S>,
    event: &Event,
    change: &Change,
) -> Result<(), Error>
    requires fits { Fits event.now change.now }
    ensures lends { Lends S.Store tx.old tx.new }
    ensures makes { (l : Layout) (e : EventValue) → numbers e.players ≡ numbers event.now.players
        → LeavesOthers l (tx_state S.Store tx.old) (tx_state S.Store tx.old)
        → Counts S.Store l e (tally_rows_by (totals event.now) e.players)
        (tally_rows_by (totals (after event.now change.now)) e.players) tx.old result tx.new }
{
    let players = event.players();
    if !event.may_alter_totals(change) {
        return Ok(());
    }
    let was = event.all_totals();
    let now = event.all_totals_after(change);
    for player in players {
        recount_one(tx, event, change, player, was.of(player), now.of(player))?;
    }
    Ok(())
}

/// Inserts the totals of the player whom the change adds.
fn insert_totals<S: Alter>(
    tx: &mut Transaction<'_, S>,
    event: &Event,
    change: &Change,
) -> Result<(), Error>
    requires fits { Fits event.now change.now }
    requires few { length event.now.players < MAX_PLAYERS }
    ensures lends { Lends S.Store tx.old tx.new }
    ensures makes { (l : Layout) (e : EventValue) (t : List TallyRow) → Counts S.Store l e t
        (t ++ tally_row (length event.now.players + 1)
        (totals (after event.now change.now) (length event.now.players + 1)) ∷ [])
        tx.old result tx.new }
{
    let number = event.players().len() as u16 + 1;
    let Some(player) = PlayerNo::try_new(number) else {
        unreachable!()
    };
    let row = TallyRow::of(player, event.totals_after(change, player));
    insert_tally(tx, &row)
}

/// Makes the change with the totals that come of it, and leaves the serial.
fn change_tables<S: Alter>(
    tx: &mut Transaction<'_, S>,
    version: u8,
    event: &Event,
    change: &Change,
) -> Result<(), Error>
    requires fits { Fits event.now change.now }
    requires takes { CanTake version event.now change.now }
    ensures lends { Lends S.Store tx.old tx.new }
    ensures makes { (l : Layout) → l.version ≡ version → (s : ℕ)
        → RepresentsAt l (tx_state S.Store tx.old).now event.now s
        → Achieves S.Store (λ a b. BringsTo l a b (after event.now change.now) s)
        tx.old result tx.new }
{
    change_rows(tx, version, event, change)?;
    match change {
        Change::AddPlayer { .. } => {
            events_are_sound(event);
            others_keep_totals();
            insert_totals(tx, event, change)
        }
        _ => recount(tx, event, change),
    }
}

/// Makes the change, and sets the next serial.
fn change_event<S: Alter>(
    tx: &mut Transaction<'_, S>,
    version: u8,
    event: &Event,
    change: &Change,
    serial: u32,
) -> Result<(), Error>
    requires fits { Fits event.now change.now }
    requires takes { CanTake version event.now change.now }
    requires low { serial < MAX_SERIAL }
    ensures lends { Lends S.Store tx.old tx.new }
    ensures makes { (l : Layout) → l.version ≡ version
        → RepresentsAt l (tx_state S.Store tx.old).now event.now serial
        → Achieves S.Store (λ a b. BringsTo l a b (after event.now change.now) (serial + 1))
        tx.old result tx.new }
    ensures inside { Achieves S.Store Inside tx.old result tx.new }
{
    change_tables(tx, version, event, change)?;
    set_serial(tx, serial + 1)
}

/// Writes the change and the next serial in one transaction, to tables of this version.
pub fn write_tables<S: Alter>(
    conn: &mut Connection<S>,
    version: u8,
    event: &Event,
    change: &Change,
    serial: u32,
) -> Result<(), Error>
    requires fits { Fits event.now change.now }
    requires takes { CanTake version event.now change.now }
    requires low { serial < MAX_SERIAL }
    requires mode { conn.old.in_transaction ≡ false }
    ensures transacts { Transacts S.Store conn.old result conn.new }
    ensures written { HasCleanDisk (state S.Store conn.new)
        → RepresentsNow version (state S.Store conn.old) event.now serial
        → OnOk result (RepresentsNow version (state S.Store conn.new) (after event.now change.now)
        (serial + 1)
        × KeepsOthers version (state S.Store conn.old).now (state S.Store conn.new).now) }
    ensures acknowledged { RepresentsNow version (state S.Store conn.old) event.now serial
        → OnOk result (AfterCrash (state S.Store conn.new)
        (IsStoredAmong version (state S.Store conn.old).now (after event.now change.now)
        (serial + 1))) }
    ensures crash { RepresentsNow version (state S.Store conn.old) event.now serial
        → AfterCrash (state S.Store conn.new)
        (Either (AreTreesOf (state S.Store conn.old).now)
        (IsStoredAmong version (state S.Store conn.old).now (after event.now change.now)
        (serial + 1))) }
{
    let mut tx = conn.transaction();
    change_event(&mut tx, version, event, change, serial)?;
    tx.commit()
}

/// Makes the five tables and the event's row in this version.
fn make_event<S: Alter>(
    tx: &mut Transaction<'_, S>,
    version: u8,
    event: &Event,
) -> Result<(), Error>
    requires fresh { IsNew event.now }
    requires known { IsVersion version }
    requires keeps { Keeps version event.now }
    ensures lends { Lends S.Store tx.old tx.new }
    ensures alone { (tx_state S.Store tx.old).now.schema ≡ no_schema
        → Achieves S.Store (λ a b. b.now.schema ≡ tally_schema (made_players version))
        tx.old result tx.new }
    ensures beside { Achieves S.Store (IsReadyBeside version event.now) tx.old result tx.new }
    ensures inside { Achieves S.Store Inside tx.old result tx.new }
{
    create_all(tx, version)?;
    insert_event(tx, version, event, 0)
}

/// Makes the tables and the event's row in one transaction, in this version.
pub fn create_tables<S: Alter>(
    conn: &mut Connection<S>,
    version: u8,
    event: &Event,
) -> Result<(), Error>
    requires mode { conn.old.in_transaction ≡ false }
    requires fresh { IsNew event.now }
    requires known { IsVersion version }
    requires keeps { Keeps version event.now }
    ensures transacts { Transacts S.Store conn.old result conn.new }
    ensures alone { HasCleanDisk (state S.Store conn.new)
        → (state S.Store conn.old).now.schema ≡ no_schema
        → OnOk result ((state S.Store conn.new).now.schema ≡ tally_schema (made_players version)) }
    ensures beside { HasCleanDisk (state S.Store conn.new)
        → OnOk result (HoldsBeside version event.now (state S.Store conn.old).now
        (state S.Store conn.new)) }
    ensures beside_crash { AfterCrash (state S.Store conn.new)
        (Either (state S.Store conn.old).may_leave
        (IsStoredBeside version event.now (state S.Store conn.old).now)) }
{
    let mut tx = conn.transaction();
    make_event(&mut tx, version, event)?;
    tx.commit()
}

/// Whether a statement with no parameters can be run. It is not.
fn can_run<S: Alter>(conn: &mut Connection<S>, sql: &str) -> Result<bool, Error>
    ensures looks { OnlyLooks S.Store conn.old result conn.new }
    ensures found { HasCleanDisk (state S.Store conn.new) → IfOk result
        (λ found. IsTrue found ↔ IsOk (understood (state S.Store conn.old).now.schema sql.now)) }
{
    match conn.prepare(sql) {
        Ok(_statement) => Ok(true),
        Err(Error::SqlInputError(_)) => Ok(false),
        Err(error) => Err(error),
    }
}

/// Whether the event's rows can be read.
pub fn reads_event<S: Alter>(conn: &mut Connection<S>) -> Result<bool, Error>
    ensures looks { OnlyLooks S.Store conn.old result conn.new }
    ensures found { HasCleanDisk (state S.Store conn.new)
        → IfOk result (λ found. IsTrue found ↔ ReadsEvent (state S.Store conn.old).now.schema) }
{
    can_run(conn, EventRow::read(1))
}

pub const FIND_EVENT: &str = "SELECT 1 FROM event";

/// Whether a table or view `event` can be read. No row is.
pub fn has_event<S: Alter>(conn: &mut Connection<S>) -> Result<bool, Error>
    ensures looks { OnlyLooks S.Store conn.old result conn.new }
    ensures found { HasCleanDisk (state S.Store conn.new)
        → IfOk result (λ found. IsTrue found ↔ CanRead (state S.Store conn.old).now.schema) }
{
    can_run(conn, FIND_EVENT)
}
