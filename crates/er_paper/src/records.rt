ghost use Rattle.std.specs.Prelude.{◌≡◌, ◌∷◌, [], ℕ, List, IfOk, MatchOption, ◌≢◌, length, map};
ghost use Rattle.csv.specs.Reading.{strip_bom};
ghost use Rattle.csv.specs.Records.{fields_of};
ghost use Rattle.er_paper.specs.Csv.{HasRecords};

use csv::{ByteRecord, ErrorKind, ReaderBuilder};
use std::alloc::{AllocError, Global};

/// Returns the text after a byte order mark, if it begins with one, or else the whole text.
fn without_mark(bytes: &[u8]) -> &[u8]
    ensures { result.now ≡ strip_bom bytes.now }
{
    bytes.strip_prefix(b"\xef\xbb\xbf").unwrap_or(bytes)
}

/// The records of a text, whatever their lengths. A slice's read does not fail.
pub fn records(alloc: Global, bytes: &[u8]) -> Result<Vec<ByteRecord>, AllocError>
    ensures { IfOk result (λ rows. HasRecords bytes.now (map fields_of rows.items)) }
{
    let rdr = ReaderBuilder::new()
        .has_headers(false)
        .flexible(true)
        .from_reader(alloc, without_mark(bytes));
    let mut rows = Vec::new(alloc);
    for row in rdr.into_byte_records() {
        let row = match row {
            Ok(row) => row,
            Err(error) => match error.kind() {
                // a reader that takes rows of any length refuses none for its own
                ErrorKind::UnequalLengths { .. } => unreachable!(),
                _ => return Err(AllocError),
            },
        };
        rows.push(row)?;
    }
    Ok(rows)
}

/// Returns the fields of a record, if it has three.
pub fn three_fields(row: &ByteRecord) -> Option<(&[u8], &[u8], &[u8])>
    ensures { MatchOption result (length (fields_of row.now) ≢ 3) (λ f. fields_of row.now
        ≡ f.0.now ∷ f.1.now ∷ f.2.now ∷ []) }
{
    if row.len() != 3 {
        return None;
    }
    Some((row.get(0)?, row.get(1)?, row.get(2)?))
}

/// The fields of a match's row.
#[derive(Clone, Copy)]
pub struct ResultFields<'a> {
    pub round: &'a [u8],
    pub table: &'a [u8],
    pub a: &'a [u8],
    pub b: &'a [u8],
    pub x: &'a [u8],
    pub y: &'a [u8],
    pub d: &'a [u8],
}

/// Returns the fields of a record, if it has seven.
pub fn seven_fields(row: &ByteRecord) -> Option<ResultFields<'_>>
    ensures { MatchOption result (length (fields_of row.now) ≢ 7) (λ f. fields_of row.now
        ≡ f.round.now ∷ f.table.now ∷ f.a.now ∷ f.b.now ∷ f.x.now ∷ f.y.now ∷ f.d.now ∷ []) }
{
    if row.len() != 7 {
        return None;
    }
    Some(ResultFields {
        round: row.get(0)?,
        table: row.get(1)?,
        a: row.get(2)?,
        b: row.get(3)?,
        x: row.get(4)?,
        y: row.get(5)?,
        d: row.get(6)?,
    })
}

/// Returns the field of a record, if it has one.
pub fn only_field(row: &ByteRecord) -> Option<&[u8]>
    ensures { MatchOption result (length (fields_of row.now) ≢ 1) (λ f. fields_of row.now
        ≡ f.now ∷ []) }
{
    if row.len() != 1 {
        return None;
    }
    row.get(0)
}
