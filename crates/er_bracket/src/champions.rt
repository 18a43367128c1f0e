ghost use Rattle.std.specs.Prelude.{◌≡◌, ◌↔◌, option_map, IsSome};
ghost use Rattle.er_event.specs.declared.events.Phase.TheVariants.{Finished};
ghost use Rattle.er_event.specs.Bracket.{last_match};
ghost use Rattle.er_event.specs.Bracket.{champion};

use er_event::{Bracket, Event, Match, Phase, PlayerNo};

/// The one match of the last stage, if that has one.
fn last_match(bracket: &Bracket) -> Option<&Match>
    ensures { option_map (λ m. m.now) result ≡ last_match bracket.now.stages }
{
    let [.., last] = bracket.stages.as_slice() else {
        return None;
    };
    let [played] = last.as_slice() else {
        return None;
    };
    Some(played)
}

/// Who won the playoff, once it is over.
pub fn champion(event: &Event) -> Option<PlayerNo>
    ensures value { result ≡ champion event.now }
    ensures finished { IsSome result ↔ (event.now.phase ≡ Finished) }
{
    if event.phase() != Phase::Finished {
        return None;
    }
    let played = last_match(event.bracket())?;
    PlayerNo::try_new(played.winner())
}
