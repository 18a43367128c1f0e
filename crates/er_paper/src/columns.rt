ghost use Rattle.std.specs.Prelude.{◌≡◌, ◌++◌, OnOk, string_bytes};
ghost use Rattle.er_event.specs.Slip.{name_of};
ghost use Rattle.er_paper.specs.Column.{left_aligned, mark};

use er_event::Event;
use std::alloc::AllocError;

/// Appends the part, and spaces after it up to the width in bytes.
pub fn push_left(text: &mut String, part: &str, width: usize) -> Result<(), AllocError>
    ensures { OnOk result
        (string_bytes text.new ≡ string_bytes text.old ++ left_aligned width part.now) }
{
    text.push_str(part)?;
    for _place in part.len()..width {
        text.push(' ')?;
    }
    Ok(())
}

/// `D` for a player who has left, else a space.
pub fn mark_of(dropped: bool) -> &'static str
    ensures { result.now ≡ mark dropped }
{
    if dropped { "D" } else { " " }
}

/// The name of the player with this number.
pub fn name_of(event: &Event, number: u16) -> &str
    ensures { result.now ≡ name_of event.now number }
{
    match event.player(number) {
        Some(player) => player.name.as_str(),
        None => "",
    }
}
