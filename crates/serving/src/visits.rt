//! What is done for each connection.
ghost use Rattle.std.specs.Prelude.{◌≡◌, ◌≤◌, ◌+◌, ◌∷◌, [], ℕ, List, Option, Some, is_ok, max};
ghost use Rattle.edge.specs.Connections.{Connection};
ghost use Rattle.edge.specs.Openings.{opened};
ghost use Rattle.serving.specs.Sides.{HasReached, meaning_of};
ghost use Rattle.serving.specs.Visits.{HasRounded, IsHosted, Visit};

use crate::conversations::converse;
use crate::handler::Handler;
use crate::turns::is_newly_fenced;
use edge::{Clock, Door, Link};
use std::alloc::Global;
use units::{Moment, OutOfMemory};

// The later of two moments.
fn later_of(latest: Moment, moment: Moment) -> Moment
    ensures { result ≡ max latest moment }
{
    if moment.seconds() < latest.seconds() {
        latest
    } else {
        moment
    }
}

// The round of notices after a connection, unless the node is to stop.
fn round<D, L: Link, H: Handler<D>>(
    alloc: Global,
    handler: &mut H,
    disk: &mut D,
    link: &mut L,
    was: bool,
) -> Result<(), OutOfMemory>
    requires { H.is_ready handler.old disk.old }
    ensures ready { H.is_ready handler.new disk.new }
    ensures reached { HasReached (meaning_of H.gives H.expires H.notifies H.fence was)
        (record { handler = handler.old; disk = disk.old; link = L.connections link.old }) (record { handler = handler.new; disk = disk.new; link = L.connections link.new }) }
    ensures rounded { HasRounded (meaning_of H.gives H.expires H.notifies H.fence was) (is_ok result)
        (record { handler = handler.old; disk = disk.old; link = L.connections link.old }) (record { handler = handler.new; disk = disk.new; link = L.connections link.new }) }
{
    if is_newly_fenced::<D, H>(handler, was) {
        return Ok(());
    }
    handler.notify(alloc, disk, link)
}

// What is due expires, and the connection that just came is served.
fn host<D, N: Door, H: Handler<D>>(
    alloc: Global,
    handler: &mut H,
    disk: &mut D,
    door: &mut N,
    moment: Moment,
    was: bool,
) -> Result<(), OutOfMemory>
    requires { H.is_ready handler.old disk.old }
    ensures ready { H.is_ready handler.new disk.new }
    ensures reached { (link : Option (List Connection)) → HasReached (meaning_of H.gives H.expires H.notifies H.fence was)
        (record { handler = handler.old; disk = disk.old; link = link }) (record { handler = handler.new; disk = disk.new; link = link }) }
    ensures hosted { (link : Option (List Connection)) (bytes : List ℕ) (others : List Connection) → N.connections door.old ≡ Some (opened [] bytes ∷ others)
        → (present : Connection) × (N.connections door.new ≡ Some (present ∷ others))
        × IsHosted (meaning_of H.gives H.expires H.notifies H.fence was) (is_ok result) moment
        (record { handler = handler.old; disk = disk.old; link = link }) present (record { handler = handler.new; disk = disk.new; link = link }) }
    ensures failed_openings { N.failed_openings door.new ≡ N.failed_openings door.old }
    ensures openings { N.openings door.new ≡ N.openings door.old }
    ensures later { N.faults door.old ≤ N.faults door.new }
{
    match handler.expire(alloc, disk, moment) {
        Ok(()) => converse(alloc, handler, disk, door, was),
        Err(OutOfMemory) => Err(OutOfMemory),
    }
}

/// Serves a connection that just came.
pub fn visit<D, N: Door, L: Link, C: Clock, H: Handler<D>>(
    alloc: Global,
    handler: &mut H,
    disk: &mut D,
    door: &mut N,
    link: &mut L,
    clock: &mut C,
    latest: &mut Moment,
    was: bool,
) -> Result<(), OutOfMemory>
    requires { H.is_ready handler.old disk.old }
    ensures ready { H.is_ready handler.new disk.new }
    ensures reached { HasReached (meaning_of H.gives H.expires H.notifies H.fence was)
        (record { handler = handler.old; disk = disk.old; link = L.connections link.old }) (record { handler = handler.new; disk = disk.new; link = L.connections link.new }) }
    ensures visited { (bytes : List ℕ) (others : List Connection) → N.connections door.old ≡ Some (opened [] bytes ∷ others)
        → (present : Connection) × (N.connections door.new ≡ Some (present ∷ others))
        × Visit (meaning_of H.gives H.expires H.notifies H.fence was) (C.to_come clock.old 0) (is_ok result) latest.old
        (record { handler = handler.old; disk = disk.old; link = L.connections link.old }) present latest.new
        (record { handler = handler.new; disk = disk.new; link = L.connections link.new }) }
    ensures clock { (n : ℕ) → C.to_come clock.new n ≡ C.to_come clock.old (n + 1) }
    ensures failed_openings { N.failed_openings door.new ≡ N.failed_openings door.old }
    ensures openings { N.openings door.new ≡ N.openings door.old }
    ensures later { N.faults door.old ≤ N.faults door.new }
{
    let moment = later_of(*latest, clock.now());
    *latest = moment;
    let hosted = host(alloc, handler, disk, door, moment, was);
    door.shut();
    match hosted {
        Ok(()) => round(alloc, handler, disk, link, was),
        Err(OutOfMemory) => Err(OutOfMemory),
    }
}
