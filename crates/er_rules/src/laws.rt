//! Laws of the step, stated over the definitions only. A law is a function with no code of its own, whose contract is the law.

ghost use Rattle.std.specs.Prelude.{◌≡◌, ℕ, Result, Ok, Err};
ghost use Rattle.er_event.specs.declared.commands.Command.{Command};
ghost use Rattle.er_event.specs.declared.refusals.Refusal.{Refusal};
ghost use Rattle.er_event.specs.declared.refusals.Refusal.TheVariants.{Budget};
ghost use Rattle.er_event.specs.Event.{EventValue};
ghost use Rattle.er_event.specs.Sound.{IsSoundButForSeeds};
ghost use Rattle.er_rules.specs.Sound.{IsSound};
ghost use Rattle.er_rules.specs.Step.{Steps, Answers, NeedsMoreSteps};
ghost use Rattle.er_rules.specs.Retry.{NamesStay, NoDoubleEffect};
ghost use Rattle.er_rules.specs.Late.{StepsAreTaken};

use er_event::laws::changes_keep_sound;
use er_pair::laws::{legal_seats, one_earliest, one_order, stand_once};
use er_rank::laws::one_top;

/// A command does one thing to a sound event: it is taken with one event after it, or refused in one way.
pub fn one_step()
    ensures { (event : EventValue) (command : Command) (one other : Result EventValue Refusal)
        → IsSoundButForSeeds event → Steps event command one → Steps event command other
        → one ≡ other }
{
    one_order();
    one_earliest();
    one_top();
}

/// The step keeps an event sound, its seeds too.
pub fn step_keeps_sound()
    ensures { (event next : EventValue) (command : Command) → IsSound event
        → Steps event command (Ok next) → IsSound next }
{
    changes_keep_sound();
    stand_once();
    legal_seats();
}

/// `Budget` is answered only if the search for a round needs more than its steps.
pub fn budget_searches()
    ensures { (event : EventValue) (command : Command) (steps : ℕ)
        → Answers event command (Err (Budget steps)) → NeedsMoreSteps event command }
{}

/// A command that was taken once, and no correction, is refused at every later point. A correction that is sent again at once gives the
/// same event.
pub fn no_double_effect()
    ensures { NoDoubleEffect }
{}

/// A name that is enrolled is taken at every later point of a run.
pub fn names_stay()
    ensures { NamesStay }
{}

/// The tables of a version can take what a command makes of an event, unless it enrols somebody too late for them.
pub fn steps_are_taken()
    ensures { StepsAreTaken }
{}
