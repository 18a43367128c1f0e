ghost use Rattle.std.specs.Prelude.{◌≡◌, ◌+◌, ◌^◌, ◌<◌, ◌++◌, OnOk, IfOk, string_bytes};
ghost use Rattle.er_event.specs.Bracket.{champion};
ghost use Rattle.er_paper.specs.Texts.{slot_line, stage_lines, stages_lines, champion_line, bracket_text};

use crate::columns::name_of;
use crate::pairings::push_pairing;
use er_bracket::champion;
use er_event::{Event, Items, Match};
use std::alloc::{AllocError, Global};
use std::fmt::Write;

fn push_slot(
    alloc: Global,
    text: &mut String,
    event: &Event,
    stage: usize,
    slot: usize,
    m: &Match,
) -> Result<(), AllocError>
    ensures { OnOk result (string_bytes text.new ≡ string_bytes text.old
        ++ slot_line event.now stage (slot, m.now)) }
{
    write!(text, "{stage:>4} ")?;
    push_pairing(alloc, text, event, slot, m)
}

fn push_stage(
    alloc: Global,
    text: &mut String,
    event: &Event,
    stage: usize,
    matches: &[Match],
) -> Result<(), AllocError>
    ensures { OnOk result (string_bytes text.new ≡ string_bytes text.old
        ++ stage_lines event.now stage matches.now) }
{
    for (place, m) in matches.iter().enumerate() {
        push_slot(alloc, text, event, stage, place + 1, m)?;
    }
    Ok(())
}

fn push_stages(
    alloc: Global,
    text: &mut String,
    event: &Event,
    stages: &[Items<Match>],
) -> Result<(), AllocError>
    ensures { OnOk result (string_bytes text.new ≡ string_bytes text.old
        ++ stages_lines event.now 1 stages.now) }
{
    for (place, stage) in stages.iter().enumerate() {
        push_stage(alloc, text, event, place + 1, stage.as_slice())?;
    }
    Ok(())
}

fn push_champion(text: &mut String, event: &Event) -> Result<(), AllocError>
    ensures { OnOk result (string_bytes text.new ≡ string_bytes text.old
        ++ champion_line event.now (champion event.now)) }
{
    let Some(player) = champion(event) else {
        return Ok(());
    };
    let number = player.get();
    let name = name_of(event, number);
    writeln!(text, "Champion {number} {name}")
}

/// The playoff stage by stage, and the champion once it is over. Before the cut it is only the heading.
pub fn bracket_text(alloc: Global, event: &Event) -> Result<Vec<u8>, AllocError>
    ensures { IfOk result (λ text. text.items ≡ bracket_text event.now) }
{
    let mut text = String::from_str(alloc, " Stg Slot    A    B Score Names\n")?;
    push_stages(alloc, &mut text, event, event.bracket().stages.as_slice())?;
    push_champion(&mut text, event)?;
    Ok(text.into_bytes())
}
