ghost use Rattle.std.specs.Prelude.{◌≡◌, ◌++◌, OnOk, IfOk, string_bytes};
ghost use Rattle.er_paper.specs.Column.{percent};
ghost use Rattle.er_paper.specs.Texts.{row_line, rows_text, IsStandingsText, OneStandingsText};

use crate::columns::{mark_of, name_of};
use er_event::Event;
use er_rank::{Row, standings};
use er_share::{Share, hundredths};
use std::alloc::{AllocError, Global};
use std::fmt::Write;

/// Appends a space and a percentage in six places, as `100.00`.
fn push_percent(text: &mut String, share: Share) -> Result<(), AllocError>
    ensures { OnOk result (string_bytes text.new ≡ string_bytes text.old ++ percent share) }
{
    let printed = hundredths(share);
    let whole = printed / 100;
    let part = printed % 100;
    write!(text, " {whole:>3}.{part:02}")
}

fn push_row(text: &mut String, event: &Event, row: &Row) -> Result<(), AllocError>
    ensures { OnOk result (string_bytes text.new ≡ string_bytes text.old
        ++ row_line event.now row.now) }
{
    let rank = row.rank;
    let number = row.player.get();
    let points = row.points;
    write!(text, "{rank:>4} {number:>4} {points:>3}")?;
    push_percent(text, row.omw)?;
    push_percent(text, row.gwp)?;
    push_percent(text, row.ogw)?;
    let mark = mark_of(row.dropped);
    let name = name_of(event, number);
    writeln!(text, " {mark} {name}")
}

/// A heading, and a line for each of these rows.
pub fn rows_text(alloc: Global, rows: &[Row], event: &Event) -> Result<Vec<u8>, AllocError>
    ensures { IfOk result (λ text. text.items ≡ rows_text event.now rows.now) }
{
    let mut text = String::from_str(alloc, "Rank   No Pts    OMW    GWP    OGW D Name\n")?;
    for row in rows {
        push_row(&mut text, event, row)?;
    }
    Ok(text.into_bytes())
}

/// The standings: a heading, and a line for each row.
pub fn standings_text(alloc: Global, event: &Event) -> Result<Vec<u8>, AllocError>
    ensures value { IfOk result (λ text. IsStandingsText event.now text.items) }
    ensures only { IfOk result (λ text. OneStandingsText event.now text.items) }
{
    let rows = standings(alloc, event)?;
    rows_text(alloc, rows.as_slice(), event)
}
