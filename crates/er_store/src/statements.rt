ghost use Rattle.std.specs.Prelude.{◌≡◌, ◌≤◌, ◌+◌, ◌++◌, ◌∷◌, [], ℕ, List, Some, IsFalse, length};
ghost use Rattle.sqlite.specs.Values.{bound};
ghost use Rattle.er_event.specs.declared.commands.TheConstants.{MAX_SERIAL};
ghost use Rattle.er_event.specs.declared.rows.tally.TallyRow.{TallyRow};
ghost use Rattle.er_event.specs.Event.{EventValue};
ghost use Rattle.er_event.specs.Round.{is_bye, match_at};
ghost use Rattle.er_event.specs.Bracket.{slot_at};
ghost use Rattle.er_event.specs.Change.{with_phase, with_dropped, with_round, with_score, with_stage, with_slot_score};
ghost use Rattle.er_store.specs.Rows.{stored_player, stored_player2, stored_event};
ghost use Rattle.er_event.specs.Rows.{pairing_row, bracket_row, tally_row, tally_rows_by};
ghost use Rattle.er_store.specs.inside.Totals.{set_for};
ghost use Rattle.er_event.specs.declared.totals.Totals.{Totals};
ghost use Rattle.er_event.specs.declared.matches.Match.{Match};
ghost use Rattle.er_store.specs.Tables as ours;
ghost use Rattle.er_store.specs.Representing.{RepresentsWith};
ghost use Rattle.er_store.specs.Layout.{Layout};
ghost use Rattle.er_store.specs.inside.Steps.{Ran, Puts, BringsToWith};
ghost use Rattle.er_store.specs.inside.Within.{tx_state, Lends, Achieves, Brings, Counts, Inside, HasPlayer};
ghost use Rattle.er_store.specs.inside.Making.{IsFound};

use er_event::{BracketRow, Event, Games, PairingRow, Phase, Score, TallyRow};
use sqlite::types::ValueRef;
use sqlite::{Alter, Error, Transaction, params};

/// Runs one statement. A crash in it leaves what it could leave before.
pub fn run<S: Alter>(
    tx: &mut Transaction<'_, S>,
    sql: &str,
    params: &[ValueRef<'_>],
) -> Result<(), Error>
    ensures lends { Lends S.Store tx.old tx.new }
    ensures ran { Achieves S.Store (Ran sql.now (bound params.now)) tx.old result tx.new }
{
    tx.execute(sql, params)?;
    Ok(())
}

pub const INSERT_PLAYER: &str = "INSERT INTO player (no, name, dropped) VALUES (?1, ?2, ?3)";

/// Inserts one player into the table of version 1.
pub fn insert_player<S: Alter>(
    tx: &mut Transaction<'_, S>,
    number: u32,
    name: &str,
    dropped: bool,
) -> Result<(), Error>
    ensures lends { Lends S.Store tx.old tx.new }
    ensures puts { (at tree : ℕ)
        → IsFound (tx_state S.Store tx.old).now.schema at (ours.player tree)
        → Achieves S.Store (Puts tree (stored_player number name.now dropped)) tx.old result tx.new }
{
    run(tx, INSERT_PLAYER, params![number, name, dropped])
}

pub const INSERT_PLAYER2: &str =
    "INSERT INTO player2 (no, name, dropped, joined) VALUES (?1, ?2, ?3, ?4)";

/// Inserts one player into the table of version 2.
pub fn insert_player2<S: Alter>(
    tx: &mut Transaction<'_, S>,
    number: u32,
    name: &str,
    dropped: bool,
    joined: u32,
) -> Result<(), Error>
    ensures lends { Lends S.Store tx.old tx.new }
    ensures puts { (at tree : ℕ)
        → IsFound (tx_state S.Store tx.old).now.schema at (ours.player2 tree)
        → Achieves S.Store (Puts tree (stored_player2 number name.now dropped joined))
        tx.old result tx.new }
{
    run(tx, INSERT_PLAYER2, params![number, name, dropped, joined])
}

pub const INSERT_EVENT: &str =
    "INSERT INTO event (id, version, serial, name, rounds, cut, phase) VALUES (1, ?1, ?2, ?3, ?4, ?5, ?6)";

/// Inserts the event's row, in tables of this version.
pub fn insert_event<S: Alter>(
    tx: &mut Transaction<'_, S>,
    version: u8,
    event: &Event,
    serial: u32,
) -> Result<(), Error>
    ensures lends { Lends S.Store tx.old tx.new }
    ensures puts { (at tree : ℕ)
        → IsFound (tx_state S.Store tx.old).now.schema at (ours.event tree)
        → Achieves S.Store (Puts tree (stored_event version event.now serial)) tx.old result tx.new }
    ensures inside { Achieves S.Store Inside tx.old result tx.new }
{
    let version = u32::from(version);
    let rounds = u32::from(event.rounds());
    let cut = u32::from(event.cut());
    let phase = u32::from(event.phase().code());
    run(
        tx,
        INSERT_EVENT,
        params![version, serial, event.name().as_str(), rounds, cut, phase],
    )
}

pub const SET_SERIAL: &str = "UPDATE event SET serial = ?1";

/// Sets the serial of the event's row.
pub fn set_serial<S: Alter>(tx: &mut Transaction<'_, S>, serial: u32) -> Result<(), Error>
    requires { serial ≤ MAX_SERIAL }
    ensures lends { Lends S.Store tx.old tx.new }
    ensures makes { (l : Layout) (e : EventValue) (s : ℕ) (t : List TallyRow)
        → RepresentsWith l (tx_state S.Store tx.old).now e s t
        → Achieves S.Store (λ a b. BringsToWith l a b e serial t) tx.old result tx.new }
    ensures inside { Achieves S.Store Inside tx.old result tx.new }
{
    run(tx, SET_SERIAL, params![serial])
}

pub const SET_PHASE: &str = "UPDATE event SET phase = ?1";

/// Sets the phase of the event's row.
pub fn set_phase<S: Alter>(tx: &mut Transaction<'_, S>, phase: Phase) -> Result<(), Error>
    ensures lends { Lends S.Store tx.old tx.new }
    ensures makes { (l : Layout) (e : EventValue)
        → Brings S.Store l e (with_phase e phase) tx.old result tx.new }
{
    run(tx, SET_PHASE, params![u32::from(phase.code())])
}

pub const SET_DROPPED: &str = "UPDATE player SET dropped = 1 WHERE no = ?1";

/// Drops the player of this number in the table of version 1.
pub fn set_dropped<S: Alter>(tx: &mut Transaction<'_, S>, number: u32) -> Result<(), Error>
    ensures lends { Lends S.Store tx.old tx.new }
    ensures makes { (l : Layout) (e : EventValue) → l.version ≡ 1 → HasPlayer e number
        → Brings S.Store l e (with_dropped e number) tx.old result tx.new }
{
    run(tx, SET_DROPPED, params![number])
}

pub const SET_DROPPED2: &str = "UPDATE player2 SET dropped = 1 WHERE no = ?1";

/// Drops the player of this number in the table of version 2.
pub fn set_dropped2<S: Alter>(tx: &mut Transaction<'_, S>, number: u32) -> Result<(), Error>
    ensures lends { Lends S.Store tx.old tx.new }
    ensures makes { (l : Layout) (e : EventValue) → l.version ≡ 2 → HasPlayer e number
        → Brings S.Store l e (with_dropped e number) tx.old result tx.new }
{
    run(tx, SET_DROPPED2, params![number])
}

pub const SET_SCORE: &str =
    "UPDATE pairing SET done = 1, x = ?3, y = ?4, d = ?5 WHERE round = ?1 AND tab = ?2";

/// Gives the match of two players at this table of this round the score, whether it had one or not.
pub fn set_score<S: Alter>(
    tx: &mut Transaction<'_, S>,
    round: u32,
    table: u32,
    score: Score,
) -> Result<(), Error>
    ensures lends { Lends S.Store tx.old tx.new }
    ensures makes { (l : Layout) (e : EventValue) (m : Match) → match_at e round table ≡ Some m
        → IsFalse (is_bye m)
        → Brings S.Store l e (with_score e round table score) tx.old result tx.new }
{
    let Games { x, y, d } = score.games();
    run(
        tx,
        SET_SCORE,
        params![round, table, u32::from(x), u32::from(y), u32::from(d)],
    )
}

pub const INSERT_PAIRING: &str =
    "INSERT INTO pairing (round, tab, lo, hi, swapped, done, x, y, d) VALUES (?1, ?2, ?3, ?4, ?5, ?6, ?7, ?8, ?9)";

/// Inserts the row of the next match of a round that is being stored.
pub fn insert_pairing<S: Alter>(tx: &mut Transaction<'_, S>, row: &PairingRow) -> Result<(), Error>
    ensures lends { Lends S.Store tx.old tx.new }
    ensures makes { (l : Layout) (e : EventValue) (before : List Match) (m : Match)
        → row.now ≡ pairing_row (length e.stored + 1) (length before + 1, m)
        → Brings S.Store l (with_round e before) (with_round e (before ++ m ∷ []))
        tx.old result tx.new }
{
    run(
        tx,
        INSERT_PAIRING,
        params![
            &row.round,
            &row.tab,
            &row.lo,
            &row.hi,
            &row.swapped,
            &row.done,
            &row.x,
            &row.y,
            &row.d
        ],
    )
}

pub const INSERT_SLOT: &str =
    "INSERT INTO bracket (stage, slot, a, b, done, x, y, d) VALUES (?1, ?2, ?3, ?4, ?5, ?6, ?7, ?8)";

/// Inserts the row of the next match of a stage that is being stored.
pub fn insert_slot<S: Alter>(tx: &mut Transaction<'_, S>, row: &BracketRow) -> Result<(), Error>
    ensures lends { Lends S.Store tx.old tx.new }
    ensures makes { (l : Layout) (e : EventValue) (before : List Match) (m : Match)
        → row.now ≡ bracket_row (length e.bracket.stages + 1) (length before + 1, m)
        → Brings S.Store l (with_stage e before) (with_stage e (before ++ m ∷ []))
        tx.old result tx.new }
{
    run(
        tx,
        INSERT_SLOT,
        params![
            &row.stage, &row.slot, &row.a, &row.b, &row.done, &row.x, &row.y, &row.d
        ],
    )
}

pub const SET_SLOT_SCORE: &str =
    "UPDATE bracket SET done = 1, x = ?3, y = ?4, d = ?5 WHERE stage = ?1 AND slot = ?2";

/// Gives the match of this slot of this stage the score.
pub fn set_slot_score<S: Alter>(
    tx: &mut Transaction<'_, S>,
    stage: u32,
    slot: u32,
    score: Score,
) -> Result<(), Error>
    ensures lends { Lends S.Store tx.old tx.new }
    ensures makes { (l : Layout) (e : EventValue) (m : Match) → slot_at e stage slot ≡ Some m
        → Brings S.Store l e (with_slot_score e stage slot score) tx.old result tx.new }
{
    let Games { x, y, d } = score.games();
    run(
        tx,
        SET_SLOT_SCORE,
        params![stage, slot, u32::from(x), u32::from(y), u32::from(d)],
    )
}

pub const INSERT_TALLY: &str =
    "INSERT INTO tally (no, points, rounds, gamepoints, games) VALUES (?1, ?2, ?3, ?4, ?5)";

/// Inserts the row of a player's totals.
pub fn insert_tally<S: Alter>(tx: &mut Transaction<'_, S>, row: &TallyRow) -> Result<(), Error>
    ensures lends { Lends S.Store tx.old tx.new }
    ensures makes { (l : Layout) (e : EventValue) (t : List TallyRow)
        → Counts S.Store l e t (t ++ row.now ∷ []) tx.old result tx.new }
{
    run(
        tx,
        INSERT_TALLY,
        params![
            &row.no,
            &row.points,
            &row.rounds,
            &row.gamepoints,
            &row.games
        ],
    )
}

pub const SET_TALLY: &str =
    "UPDATE tally SET points = ?2, rounds = ?3, gamepoints = ?4, games = ?5 WHERE no = ?1";

/// Sets the totals of the player whose row this is.
pub fn set_tally<S: Alter>(tx: &mut Transaction<'_, S>, row: &TallyRow) -> Result<(), Error>
    ensures lends { Lends S.Store tx.old tx.new }
    ensures makes { (l : Layout) (e : EventValue) (come_to : ℕ → Totals) (number : ℕ) (now : Totals)
        → row.now ≡ tally_row number now → HasPlayer e number
        → Counts S.Store l e (tally_rows_by come_to e.players)
        (tally_rows_by (set_for number now come_to) e.players) tx.old result tx.new }
{
    run(
        tx,
        SET_TALLY,
        params![
            &row.no,
            &row.points,
            &row.rounds,
            &row.gamepoints,
            &row.games
        ],
    )
}
