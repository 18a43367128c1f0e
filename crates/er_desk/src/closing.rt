ghost use Rattle.std.specs.Prelude.{◌≡◌};
ghost use Rattle.sqlite.specs.Files.{over_files};
ghost use Rattle.er_store.specs.Store as tables;
ghost use Rattle.er_desk.specs.Desk.{HoldsOwnEvent, placed_of, state, desk_state};
ghost use Rattle.er_desk.specs.Headline.{RecoversJust};

use crate::desk::Desk;
use sqlite::{Connection, FileStore};
use sqlite_disk::Disk;

/// Gives the connection of a file's desk back as it is. Others call this one, so that the proof of a generic call at the store in a file
/// is paid once.
pub fn into_connection<D: Disk + Drop>(desk: Desk<FileStore<D>>) -> Connection<FileStore<D>>
    ensures same { result ≡ tables.connection desk.store }
    // If the tables represent the event, a crash leaves just that.
    ensures left { HoldsOwnEvent over_files desk
        → RecoversJust (state over_files desk) (placed_of (desk_state desk)) }
{
    desk.close()
}
