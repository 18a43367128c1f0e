ghost use Rattle.std.specs.Prelude.{◌≡◌, ℕ, ◌<◌, ◌≤◌, length, All, IsFalse, IfOk};
ghost use Rattle.er_pair.specs.inside.Places.{has_place, row_at};
ghost use Rattle.er_pair.specs.inside.Seats.{IsSeatedWith, OthersHaveMetNobody, AreByNumber, CountsAll, AreByPosition};

use crate::meetings::{Met, NUMBERS};
use crate::places::{BITS, Cursor, Places, empty_rows};
use er_event::MAX_PLAYERS;
use std::alloc::{AllocError, Global};

/// Puts the position into the row of each of the numbers.
fn seat_with_each(rows: &mut [Places], numbers: &Places, position: usize)
    requires few { length rows.old ≤ NUMBERS }
    requires position { position < BITS }
    ensures { IsSeatedWith numbers.now position rows.old rows.new }
{
    let absent = numbers.complement();
    let mut walk = Cursor::before_all(&absent);
    while let Some(number) = walk.next(&absent, &absent, rows.len()) {
        rows[number].insert(position);
    }
}

/// Puts each position of the order into the rows of those whom its entry has met.
fn seat_all(rows: &mut [Places], order: &[u16], met: &Met)
    requires rows { length rows.old ≤ NUMBERS }
    requires few { length order.now ≤ MAX_PLAYERS }
    requires empty { All (λ row. (p : ℕ) → IsFalse (has_place row p)) rows.old }
    ensures met { AreByNumber met.now order.now rows.new }
    ensures others { OthersHaveMetNobody met.now order.now }
{
    for (position, number) in order.iter().enumerate() {
        if let Some(opponents) = met.row(*number) {
            seat_with_each(rows, opponents, position);
        }
    }
}

/// How many numbers there are from 0 on to the greatest of the order, of those that can have met.
fn count_of_numbers(order: &[u16]) -> usize
    ensures few { result ≤ NUMBERS }
    ensures enough { CountsAll order.now result }
{
    let mut count = 0;
    for number in order {
        count = count.max(usize::from(*number) + 1);
    }
    count.min(NUMBERS)
}

/// For each number up to the greatest of the order, the positions at which those stand whom it has met.
fn by_number(alloc: Global, order: &[u16], met: &Met) -> Result<Vec<Places>, AllocError>
    requires few { length order.now ≤ MAX_PLAYERS }
    ensures few { IfOk result (λ rows. length rows.items ≤ NUMBERS) }
    ensures enough { IfOk result (λ rows. CountsAll order.now (length rows.items)) }
    ensures met { IfOk result (λ rows. AreByNumber met.now order.now rows.items) }
    ensures others { IfOk result (λ _. OthersHaveMetNobody met.now order.now) }
{
    let mut rows = empty_rows(alloc, count_of_numbers(order))?;
    seat_all(rows.as_mut_slice(), order, met);
    Ok(rows)
}

/// The row of a number; one above 512 has met nobody.
fn row_of(rows: &[Places], number: u16) -> Places
    ensures { (p : ℕ) → has_place result p ≡ has_place (row_at rows.now number) p }
{
    let at = usize::from(number);
    if at < rows.len() {
        rows[at]
    } else {
        Places::empty()
    }
}

/// For each position of the order, the positions at which those stand whom its entry has met.
pub fn by_position(alloc: Global, order: &[u16], met: &Met) -> Result<Vec<Places>, AllocError>
    requires few { length order.now ≤ MAX_PLAYERS }
    ensures count { IfOk result (λ rows. length rows.items ≡ length order.now) }
    ensures met { IfOk result (λ rows. AreByPosition met.now order.now rows.items) }
{
    let table = by_number(alloc, order, met)?;
    let mut rows = Vec::with_capacity(alloc, order.len())?;
    for number in order {
        rows.push(row_of(table.as_slice(), *number))?;
    }
    Ok(rows)
}
