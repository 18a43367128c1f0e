//! Laws of events and their changes. A law is called only for its contract, which is the law.

ghost use Rattle.er_event.specs.Altered.{OthersKeepTotals};
ghost use Rattle.er_event.specs.Safe.{ChangesKeepSound};
ghost use Rattle.er_event.specs.Sound.{IsSoundButForSeeds};
ghost use Rattle.er_event.specs.Version.{ChangesAreKept};

use crate::Event;

/// An event is sound, but for its seeds, however it was made.
pub fn events_are_sound(event: &Event)
    ensures { IsSoundButForSeeds event.now }
{
    let _ = event.phase();
}

/// A safe change keeps an event sound, but for its seeds.
pub fn changes_keep_sound()
    ensures { ChangesKeepSound }
{}

/// A player who is added leaves the totals of the others.
pub fn others_keep_totals()
    ensures { OthersKeepTotals }
{}

/// If tables of a version keep an event and can take a change, they also keep the event after it.
pub fn changes_are_kept()
    ensures { ChangesAreKept }
{}
