ghost use Rattle.std.specs.Prelude.{◌≡◌, ◌++◌, OnOk, IfOk, string_bytes};
ghost use Rattle.er_paper.specs.Texts.{player_line, players_text};

use crate::columns::mark_of;
use er_event::{Event, Player};
use std::alloc::{AllocError, Global};
use std::fmt::Write;

fn push_player(text: &mut String, player: &Player) -> Result<(), AllocError>
    ensures { OnOk result (string_bytes text.new ≡ string_bytes text.old
        ++ player_line player.now) }
{
    let number = player.no.get();
    let mark = mark_of(player.dropped);
    let name = player.name.as_str();
    writeln!(text, "{number:>4} {mark} {name}")
}

/// The players by number, with a mark at those who have left.
pub fn players_text(alloc: Global, event: &Event) -> Result<Vec<u8>, AllocError>
    ensures { IfOk result (λ text. text.items ≡ players_text event.now) }
{
    let mut text = String::from_str(alloc, "  No D Name\n")?;
    for player in event.players() {
        push_player(&mut text, player)?;
    }
    Ok(text.into_bytes())
}
