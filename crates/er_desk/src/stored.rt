ghost use Rattle.std.specs.Prelude.{IsFalse};
ghost use Rattle.sqlite.specs.State.{HasCleanDisk, IsUnchanged};
ghost use Rattle.er_store.specs.Representing.{RepresentsIn};
ghost use Rattle.er_store.specs.Store as tables;
ghost use Rattle.er_store.specs.Calls.{OnlyReads, Finds, OrFails, StopsUnless};
ghost use Rattle.er_desk.specs.Headline.{AreTheStandings};

use er_event::Refusal;
use er_rank::{Row, are_lists, standings_of};
use er_store::Store;
use sqlite::Alter;
use std::alloc::Global;

/// The standings by the totals and the meetings that the tables keep. Lists that are of no event end the store.
pub fn read_standings<S: Alter>(alloc: Global, store: &mut Store<S>) -> Result<Vec<Row>, Refusal>
    requires running { IsFalse (tables.needs_reopen store.old) }
    ensures reads { OnlyReads S.Store (StopsUnless Refusal.Memory) store.old result store.new }
    ensures found { Finds S.Store (RepresentsIn (tables.store_version store.old))
        (λ e s. OrFails (λ rows. AreTheStandings e rows.items)) store.old result store.new }
    ensures same { HasCleanDisk (tables.store_state S.Store store.new)
        → IsFalse (tables.needs_reopen store.new)
        → IsUnchanged (tables.store_state S.Store store.old)
        (tables.store_state S.Store store.new) }
{
    let tallies = store.tallies(alloc)?;
    let meetings = store.meetings(alloc)?;
    if !are_lists(alloc, tallies.as_slice(), meetings.as_slice())? {
        return Err(store.refuse_rows());
    }
    Ok(standings_of(alloc, tallies.as_slice(), meetings.as_slice())?)
}
