//! The event in the file of a host.
ghost use Rattle.std.specs.Prelude.{◌≡◌, false, IfErr, IsTrue, None};
ghost use Rattle.er_event.specs.Sound.{AreLimits};
ghost use Rattle.er_desk.specs.Files.{OpensFile, MakesFile};
ghost use Rattle.er_desk.specs.Opening.{OnUnopened};
ghost use Rattle.er_cli.specs.World.{KeepsListsAndClients};

use crate::host::Host;
use er_desk::{Desk, OpenFault, adopt_opened, create_in_opened};
use er_event::Name;
use sqlite::FileStore;
use std::alloc::Global;

/// Opens the file of an event. If a crash may have left what the file holds, the event and the serial found are those that it
/// represents, and a crash then leaves them again.
pub fn open_desk<H: Host>(
    alloc: Global,
    host: &mut H,
    path: &str,
) -> Result<Desk<FileStore<H::File>>, OpenFault<H::File>>
    requires shut { IsTrue (H.is_shut host.old) }
    ensures opens { OpensFile ((H.world host.old).image path.now) result }
    ensures held { IfErr result (λ fault. OnUnopened fault (λ error rest. rest ≡ None
        → H.is_held host.new ≡ H.is_held host.old)) }
    ensures is_open { H.is_shut host.new ≡ false }
    ensures others { KeepsListsAndClients (H.world host.old) (H.world host.new) }
{
    adopt_opened(alloc, host.open(path))
}

/// Makes an event in a file, which is made if it isn't there. Whoever calls has checked the limits.
pub fn create_desk<H: Host>(
    alloc: Global,
    host: &mut H,
    path: &str,
    name: Name,
    rounds: u8,
    cut: u8,
) -> Result<Desk<FileStore<H::File>>, OpenFault<H::File>>
    requires shut { IsTrue (H.is_shut host.old) }
    requires limits { AreLimits rounds cut }
    ensures makes { MakesFile ((H.world host.old).image path.now) name rounds cut result }
    ensures held { IfErr result (λ fault. OnUnopened fault (λ error rest. rest ≡ None
        → H.is_held host.new ≡ H.is_held host.old)) }
    ensures is_open { H.is_shut host.new ≡ false }
    ensures others { KeepsListsAndClients (H.world host.old) (H.world host.new) }
{
    create_in_opened(alloc, host.open(path), name, rounds, cut)
}
