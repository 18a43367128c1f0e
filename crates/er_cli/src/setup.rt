ghost use Rattle.std.specs.Prelude.{◌≡◌, IfOk, IfErr, IsTrue, IsFalse};
ghost use Rattle.er_event.specs.Sound.{AreLimits, IsSetUp};
ghost use Rattle.er_cli.specs.Setup.{is_setup};

use er_event::{Event, Name, Refusal};
use std::alloc::Global;

/// Returns the name of an event that may be set up so, or `BadSetup`.
pub fn set_up(alloc: Global, name: &[u8], rounds: u8, cut: u8) -> Result<Name, Refusal>
    ensures ok { IfOk result (λ read. (read ≡ name.now) × IsTrue (is_setup name.now rounds cut)) }
    ensures within { IfOk result (λ _. AreLimits rounds cut) }
    ensures lawful { IfOk result (λ _. IsSetUp name.now rounds cut) }
    ensures refused { IfErr result (λ why. (why ≡ Refusal.BadSetup)
        × IsFalse (is_setup name.now rounds cut)) }
{
    let Ok(name) = Name::try_from_bytes(name) else {
        return Err(Refusal::BadSetup);
    };
    // The limits are the event's own.
    Event::create(alloc, name, rounds, cut)?;
    Ok(name)
}
