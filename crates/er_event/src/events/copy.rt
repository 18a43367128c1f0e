ghost use Rattle.std.specs.Prelude.{◌≡◌, IfOk};

use super::Event;
use crate::items::Items;
use crate::rounds::Round;
use std::alloc::{AllocError, Global};

fn copy_rounds(alloc: Global, rounds: &[Round]) -> Result<Vec<Round>, AllocError>
    ensures { IfOk result (λ copies. copies.items ≡ rounds.now) }
{
    let mut copies = Vec::with_capacity(alloc, rounds.len())?;
    for round in rounds {
        copies.push(round.copy(alloc)?)?;
    }
    Ok(copies)
}

impl Event {
    /// An equal event.
    pub fn copy(&self, alloc: Global) -> Result<Event, AllocError>
        ensures { IfOk result (λ e. e ≡ self.now) }
    {
        Ok(Event {
            name: self.name,
            rounds: self.rounds,
            cut: self.cut,
            phase: self.phase,
            players: Vec::from_slice(alloc, self.players.as_slice())?,
            stored: copy_rounds(alloc, self.stored.as_slice())?,
            bracket: self.bracket.copy(alloc)?,
        })
    }
}
