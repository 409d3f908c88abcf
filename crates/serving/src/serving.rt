//! One connection after another.
ghost use Rattle.std.specs.Prelude.{◌≡◌, ◌≢◌, ◌≤◌, ℕ, List, Ok, Err, Some, None, true, false, is_some, IfSome};
ghost use Rattle.edge.specs.Connections.{Connection};
ghost use Rattle.edge.specs.Faults.{CountRose};
ghost use Rattle.serving.specs.Sides.{HasReached, meaning_of, newly};
ghost use Rattle.serving.specs.Visits.{HasServed};

use crate::handler::{Fence, Handler};
use crate::visits::visit;
use edge::{Clock, Door, Link};
use std::alloc::Global;
use units::Moment;

/// How serving ended (this product's own).
#[derive(Clone, Copy, PartialEq, Eq, Debug)]
pub enum Served {
    /// The door is closed.
    Closed,
    /// So many connections were served.
    Most,
}

/// Why serving did not go on (this product's own).
#[derive(Clone, Copy, PartialEq, Eq, Debug)]
pub enum ServeRefusal {
    /// An `accept` failed.
    DoorFault,
    /// Another node took over: its epoch is `seen`, above `own` (E32).
    NotOwner { own: u64, seen: u64 },
    /// Memory was wanting.
    OutOfMemory,
}

// Why a node that was not fenced when serving began is to stop.
fn newly_fenced<D, H: Handler<D>>(handler: &H, was: bool) -> Option<Fence>
    ensures fenced { IfSome result (λ fence. (was ≡ false) × (H.fence handler.now ≡ Some fence)) }
    ensures owner { result ≡ None → newly was (H.fence handler.now) ≡ false }
{
    if was { None } else { handler.fenced() }
}

// The same of a node of which is known whether it was fenced before.
fn serve_on<D, N: Door, L: Link, C: Clock, H: Handler<D>>(
    alloc: Global,
    handler: &mut H,
    disk: &mut D,
    door: &mut N,
    link: &mut L,
    clock: &mut C,
    most: u32,
    was: bool,
) -> Result<Served, ServeRefusal>
    requires ready { H.is_ready handler.old disk.old }
    requires before { newly was (H.fence handler.old) ≡ false }
    ensures ready { H.is_ready handler.new disk.new }
    ensures reached { HasReached (meaning_of H.gives H.expires H.notifies H.fence was)
        (record { handler = handler.old; disk = disk.old; link = L.connections link.old }) (record { handler = handler.new; disk = disk.new; link = L.connections link.new }) }
    ensures served { (earlier : List Connection) → N.connections door.old ≡ Some earlier
        → HasServed (meaning_of H.gives H.expires H.notifies H.fence was) (C.to_come clock.old) most
        (record { handler = handler.old; disk = disk.old; link = L.connections link.old }) (N.connections door.new) result
        (record { handler = handler.new; disk = disk.new; link = L.connections link.new }) earlier }
    ensures closed { result ≡ Ok Served.Closed → IfSome (N.openings door.new).closed (λ closed. closed ≡ true) }
    ensures door_fault { result ≡ Err ServeRefusal.DoorFault → CountRose (N.failed_openings door.old) (N.failed_openings door.new) }
    ensures no_door_fault { result ≢ Err ServeRefusal.DoorFault → N.failed_openings door.new ≡ N.failed_openings door.old }
    ensures not_owner { (own seen : ℕ) → result ≡ Err (ServeRefusal.NotOwner own seen) → (was ≡ false) × (H.fence handler.new ≡ Some (record { own = own; seen = seen })) }
    ensures owner { ((own seen : ℕ) → result ≢ Err (ServeRefusal.NotOwner own seen)) → result ≢ Err ServeRefusal.OutOfMemory → newly was (H.fence handler.new) ≡ false }
    ensures later { N.faults door.old ≤ N.faults door.new }
{
    let mut latest = Moment::first();
    let mut served = 0;
    while served < most {
        match door.accept() {
            Ok(true) => {}
            Ok(false) => return Ok(Served::Closed),
            Err(_) => return Err(ServeRefusal::DoorFault),
        }
        if visit(alloc, handler, disk, door, link, clock, &mut latest, was).is_err() {
            return Err(ServeRefusal::OutOfMemory);
        }
        if let Some(fence) = newly_fenced::<D, H>(handler, was) {
            return Err(ServeRefusal::NotOwner {
                own: fence.own,
                seen: fence.seen,
            });
        }
        served += 1;
    }
    Ok(Served::Most)
}

/// Serves connections, one after another, at most `most` of them.
///
/// `Closed` comes where the door is closed and `DoorFault` only where an `accept` failed. `NotOwner` comes exactly where the
/// node was fenced in this call; one that was fenced or a standby before serves on.
pub fn serve<D, N: Door, L: Link, C: Clock, H: Handler<D>>(
    alloc: Global,
    handler: &mut H,
    disk: &mut D,
    door: &mut N,
    link: &mut L,
    clock: &mut C,
    most: u32,
) -> Result<Served, ServeRefusal>
    requires { H.is_ready handler.old disk.old }
    ensures ready { H.is_ready handler.new disk.new }
    ensures reached { HasReached (meaning_of H.gives H.expires H.notifies H.fence (is_some (H.fence handler.old)))
        (record { handler = handler.old; disk = disk.old; link = L.connections link.old }) (record { handler = handler.new; disk = disk.new; link = L.connections link.new }) }
    ensures served { (earlier : List Connection) → N.connections door.old ≡ Some earlier
        → HasServed (meaning_of H.gives H.expires H.notifies H.fence (is_some (H.fence handler.old))) (C.to_come clock.old) most
        (record { handler = handler.old; disk = disk.old; link = L.connections link.old }) (N.connections door.new) result
        (record { handler = handler.new; disk = disk.new; link = L.connections link.new }) earlier }
    ensures closed { result ≡ Ok Served.Closed → IfSome (N.openings door.new).closed (λ closed. closed ≡ true) }
    ensures door_fault { result ≡ Err ServeRefusal.DoorFault → CountRose (N.failed_openings door.old) (N.failed_openings door.new) }
    ensures no_door_fault { result ≢ Err ServeRefusal.DoorFault → N.failed_openings door.new ≡ N.failed_openings door.old }
    ensures not_owner { (own seen : ℕ) → result ≡ Err (ServeRefusal.NotOwner own seen) → (is_some (H.fence handler.old) ≡ false) × (H.fence handler.new ≡ Some (record { own = own; seen = seen })) }
    ensures owner { ((own seen : ℕ) → result ≢ Err (ServeRefusal.NotOwner own seen)) → result ≢ Err ServeRefusal.OutOfMemory → newly (is_some (H.fence handler.old)) (H.fence handler.new) ≡ false }
    ensures later { N.faults door.old ≤ N.faults door.new }
{
    let was = handler.fenced().is_some();
    serve_on(alloc, handler, disk, door, link, clock, most, was)
}
