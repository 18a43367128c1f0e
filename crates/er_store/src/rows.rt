ghost use Rattle.std.specs.List.{range_with_len};
ghost use Rattle.std.specs.Prelude.{◌≡◌, ◌≢◌, ◌+◌, ◌<◌, ◌≤◌, ◌++◌, ◌∷◌, [], ℕ, List, IfOk, IfErr, OnOk};
ghost use Rattle.std.specs.Prelude.{Option, map, length};
ghost use Rattle.sqlite.specs.declared.types.Value.TheVariants.{Text};
ghost use Rattle.sqlite.specs.Order.{Row, column};
ghost use Rattle.er_event.specs.declared.rows.pairing.PairingRow.{PairingRow};
ghost use Rattle.er_event.specs.declared.rows.tally.TallyRow.{TallyRow};
ghost use Rattle.er_store.specs.Rows.{meeting_columns, named_columns, pairing_columns, tally_columns, text_or_null};
ghost use Rattle.er_store.specs.Shape.{Form, event_form, player_form, pairing_form, bracket_form, tally_form};
ghost use Rattle.er_store.specs.Reading.{first_columns, out_of_memory};

use er_event::{BracketRow, EventRow, Items, PairingRow, PlayerRow, TallyRow};
use sqlite::types::{FromSql, FromSqlError, ValueRef};
use sqlite::{Error, Row as SqlRow};
use std::alloc::Global;

/// A stored match of a round and a table, with the names of its players.
#[derive(Drop)]
pub struct NamedPairing {
    pub pairing: PairingRow,
    /// None if no player has the number.
    pub lo_name: Option<Items<u8>>,
    pub hi_name: Option<Items<u8>>,
}

/// A stored match of two players, with the totals of each.
#[derive(Drop)]
pub struct MeetingRow {
    pub round: i64,
    pub tab: i64,
    pub done: i64,
    pub lo: TallyRow,
    pub hi: TallyRow,
}

/// A text as its bytes, whatever they are: what a name may be is for the checks of rows.
struct TextBytes {
    bytes: Items<u8>,
}

impl FromSql for TextBytes {
    ghost reads_as = { λ value text. value ≡ Text text.bytes };

    ghost is_readable = { λ value. (bytes : List ℕ) × (value ≡ Text bytes) };

    fn column_result(alloc: Global, value: ValueRef<'_>) -> Result<TextBytes, FromSqlError> {
        match value {
            ValueRef::Text(bytes) => {
                let bytes = Items::from(Vec::from_slice(alloc, bytes)?);
                Ok(TextBytes { bytes })
            }
            _ => Err(FromSqlError::InvalidType),
        }
    }
}

/// A typed row of a table.
pub trait FromRow: Sized + Drop {
    ghost form: { Form Self };

    fn from_row(row: &SqlRow) -> Result<Self, Error>
        ensures value { IfOk result (λ r. form.columns r ≡ first_columns form.width row.now) }
        ensures refused { IfErr result (λ e. e ≢ out_of_memory → (r : Self)
            → row.now ≢ form.columns r) };
}

impl FromRow for EventRow {
    ghost form = { event_form };

    fn from_row(row: &SqlRow) -> Result<EventRow, Error> {
        Ok(EventRow {
            id: row.get(0)?,
            version: row.get(1)?,
            serial: row.get(2)?,
            name: bytes_of(row, 3)?,
            rounds: row.get(4)?,
            cut: row.get(5)?,
            phase: row.get(6)?,
        })
    }
}

impl FromRow for PlayerRow {
    ghost form = { player_form };

    fn from_row(row: &SqlRow) -> Result<PlayerRow, Error> {
        Ok(PlayerRow {
            no: row.get(0)?,
            name: bytes_of(row, 1)?,
            dropped: row.get(2)?,
            joined: row.get(3)?,
        })
    }
}

impl FromRow for PairingRow {
    ghost form = { pairing_form };

    fn from_row(row: &SqlRow) -> Result<PairingRow, Error> {
        first_pairing(row)
    }
}

impl FromRow for BracketRow {
    ghost form = { bracket_form };

    fn from_row(row: &SqlRow) -> Result<BracketRow, Error> {
        Ok(BracketRow {
            stage: row.get(0)?,
            slot: row.get(1)?,
            a: row.get(2)?,
            b: row.get(3)?,
            done: row.get(4)?,
            x: row.get(5)?,
            y: row.get(6)?,
            d: row.get(7)?,
        })
    }
}

impl FromRow for TallyRow {
    ghost form = { tally_form };

    fn from_row(row: &SqlRow) -> Result<TallyRow, Error> {
        tally_at(row, 0)
    }
}

impl FromRow for MeetingRow {
    ghost form = { record { width = 13; columns = meeting_columns } };

    fn from_row(row: &SqlRow) -> Result<MeetingRow, Error> {
        Ok(MeetingRow {
            round: row.get(0)?,
            tab: row.get(1)?,
            done: row.get(2)?,
            lo: tally_at(row, 3)?,
            hi: tally_at(row, 8)?,
        })
    }
}

impl FromRow for NamedPairing {
    ghost form = { record { width = 11; columns = named_columns } };

    fn from_row(row: &SqlRow) -> Result<NamedPairing, Error> {
        Ok(NamedPairing {
            pairing: first_pairing(row)?,
            lo_name: text_or_null(row, 9)?,
            hi_name: text_or_null(row, 10)?,
        })
    }
}

/// The match in the first nine columns.
fn first_pairing(row: &SqlRow) -> Result<PairingRow, Error>
    ensures value { IfOk result (λ r. pairing_columns r ≡ first_columns 9 row.now) }
    ensures refused { IfErr result (λ e. e ≢ out_of_memory → (r : PairingRow) (more : Row)
        → row.now ≢ pairing_columns r ++ more) }
{
    Ok(PairingRow {
        round: row.get(0)?,
        tab: row.get(1)?,
        lo: row.get(2)?,
        hi: row.get(3)?,
        swapped: row.get(4)?,
        done: row.get(5)?,
        x: row.get(6)?,
        y: row.get(7)?,
        d: row.get(8)?,
    })
}

/// The totals in five columns, of which this is the first.
fn tally_at(row: &SqlRow, at: usize) -> Result<TallyRow, Error>
    requires { at ≤ 8 }
    ensures value { IfOk result (λ r. tally_columns r
        ≡ map (column row.now) (range_with_len at 5)) }
    ensures refused { IfErr result (λ e. e ≢ out_of_memory → at + 5 ≤ length row.now
        → (r : TallyRow) → map (column row.now) (range_with_len at 5) ≢ tally_columns r) }
{
    Ok(TallyRow {
        no: row.get(at)?,
        points: row.get(at + 1)?,
        rounds: row.get(at + 2)?,
        gamepoints: row.get(at + 3)?,
        games: row.get(at + 4)?,
    })
}

/// The bytes of the text in this column, if there is one.
fn text_or_null(row: &SqlRow, at: usize) -> Result<Option<Items<u8>>, Error>
    ensures value { IfOk result (λ bytes. column row.now at ≡ text_or_null bytes) }
    ensures refused { IfErr result (λ e. e ≢ out_of_memory → at < length row.now
        → (bytes : Option (List ℕ)) → column row.now at ≢ text_or_null bytes) }
{
    let text: Option<TextBytes> = row.get(at)?;
    match text {
        Some(TextBytes { bytes }) => Ok(Some(bytes)),
        None => Ok(None),
    }
}

/// The bytes of the text in this column.
fn bytes_of(row: &SqlRow, at: usize) -> Result<Items<u8>, Error>
    ensures value { IfOk result (λ bytes. column row.now at ≡ Text bytes) }
    ensures refused { IfErr result (λ e. e ≢ out_of_memory → at < length row.now → (bytes : List ℕ)
        → column row.now at ≢ Text bytes) }
{
    let TextBytes { bytes } = row.get(at)?;
    Ok(bytes)
}

/// Appends the row as a typed row.
pub fn push_row<T: FromRow>(typed: &mut Vec<T>, row: &SqlRow) -> Result<(), Error>
    ensures value { OnOk result (map T.form.columns typed.new.items
        ≡ map T.form.columns typed.old.items ++ first_columns T.form.width row.now ∷ []) }
    ensures refused { IfErr result (λ e. e ≢ out_of_memory → (r : T)
        → row.now ≢ T.form.columns r) }
{
    typed.push(T::from_row(row)?)?;
    Ok(())
}

/// The rows as typed rows.
pub fn typed_rows<T: FromRow>(alloc: Global, rows: &[SqlRow]) -> Result<Vec<T>, Error>
    ensures value { IfOk result (λ typed. map T.form.columns typed.items
        ≡ map (first_columns T.form.width) rows.now) }
    ensures refused { IfErr result (λ e. e ≢ out_of_memory → (typed : List T)
        → rows.now ≢ map T.form.columns typed) }
{
    let mut typed = Vec::new(alloc);
    for row in rows {
        typed.push(T::from_row(row)?)?;
    }
    Ok(typed)
}
