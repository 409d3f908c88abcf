//! One connection, from its beginning to its end.
ghost use Rattle.std.specs.Prelude.{◌≡◌, ◌≤◌, ◌∷◌, [], ℕ, List, Option, Some, is_ok};
ghost use Rattle.edge.specs.Connections.{Connection};
ghost use Rattle.edge.specs.Openings.{opened};
ghost use Rattle.serving.specs.Sides.{HasReached, meaning_of};
ghost use Rattle.serving.specs.Talk.{Conversation};

use crate::handler::Handler;
use crate::turns::{MOST_MESSAGES, answer_next, is_newly_fenced};
use edge::Door;
use std::alloc::Global;
use units::OutOfMemory;
use wire::Conn;

/// Reads and answers messages of a connection that just came, up to the 1,000th, or one that ends it.
pub fn converse<D, N: Door, H: Handler<D>>(
    alloc: Global,
    handler: &mut H,
    disk: &mut D,
    door: &mut N,
    was: bool,
) -> Result<(), OutOfMemory>
    requires { H.is_ready handler.old disk.old }
    ensures ready { H.is_ready handler.new disk.new }
    ensures reached { (link : Option (List Connection)) → HasReached (meaning_of H.gives H.expires H.notifies H.fence was)
        (record { handler = handler.old; disk = disk.old; link = link }) (record { handler = handler.new; disk = disk.new; link = link }) }
    ensures talks { (link : Option (List Connection)) (bytes : List ℕ) (others : List Connection) → N.connections door.old ≡ Some (opened [] bytes ∷ others)
        → (present : Connection) × (N.connections door.new ≡ Some (present ∷ others))
        × Conversation (meaning_of H.gives H.expires H.notifies H.fence was) (is_ok result)
        (record { handler = handler.old; disk = disk.old; link = link }) present (record { handler = handler.new; disk = disk.new; link = link }) }
    ensures failed_openings { N.failed_openings door.new ≡ N.failed_openings door.old }
    ensures openings { N.openings door.new ≡ N.openings door.old }
    ensures later { N.faults door.old ≤ N.faults door.new }
{
    let Ok(mut conn) = Conn::new(alloc) else {
        return Err(OutOfMemory);
    };
    if is_newly_fenced::<D, H>(handler, was) {
        return Ok(());
    }
    let mut count = 0;
    while count < MOST_MESSAGES {
        match answer_next(alloc, &mut conn, handler, disk, door, count, was) {
            Ok(true) => count += 1,
            Ok(false) => return Ok(()),
            Err(OutOfMemory) => return Err(OutOfMemory),
        }
    }
    Ok(())
}
