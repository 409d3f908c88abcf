//! What answers the messages of connections.
ghost use Rattle.std.specs.Prelude.{◌≡◌, ℕ, List, Option, Result};
ghost use Rattle.edge.specs.Connections.{Connection};
ghost use Rattle.units.specs.declared.memory.OutOfMemory.{OutOfMemory};
ghost use Rattle.wire.specs.declared.message.HttpRequest.{HttpRequest};
ghost use Rattle.serving.specs.declared.handler.Fence.{Fence};
ghost use Rattle.serving.specs.declared.response.Response.{Response};

use crate::response::Response;
use edge::Link;
use std::alloc::Global;
use units::{Moment, OutOfMemory};
use wire::HttpRequest;

/// Why a node is fenced: another one claimed the epoch `seen` above its own (this product's own).
#[derive(Clone, Copy, PartialEq, Eq, Debug)]
pub struct Fence {
    pub own: u64,
    pub seen: u64,
}

/// What answers messages over a disk. Its meanings say what each call may do, from a handler and its disk to the next.
///
/// `is_ready` is what each call asks and gives back. `gives` is of one message, `expires` of what is due at a moment,
/// `notifies` of a round of notices over a link, with the connections that the link tells before and after it.
pub trait Handler<D> {
    ghost is_ready: { Self → D → Type 0 };

    ghost gives: { Self → D → HttpRequest → Result Response OutOfMemory → Self → D → Type 0 };

    ghost expires: { Self → D → ℕ → Result (Unit {0}) OutOfMemory → Self → D → Type 0 };

    ghost notifies: { Self → D → Option (List Connection) → Result (Unit {0}) OutOfMemory → Self → D → Option (List Connection) → Type 0 };

    ghost fence: { Self → Option Fence };

    /// Answers a message.
    fn handle(
        &mut self,
        alloc: Global,
        disk: &mut D,
        message: &HttpRequest,
    ) -> Result<Response, OutOfMemory>
        requires { is_ready self.old disk.old }
        ensures ready { is_ready self.new disk.new }
        ensures given { gives self.old disk.old message.now result self.new disk.new };

    /// Lets go of what is due at a moment.
    fn expire(&mut self, alloc: Global, disk: &mut D, moment: Moment) -> Result<(), OutOfMemory>
        requires { is_ready self.old disk.old }
        ensures ready { is_ready self.new disk.new }
        ensures expired { expires self.old disk.old moment result self.new disk.new };

    /// Sends what is to be told to others.
    fn notify<L: Link>(
        &mut self,
        alloc: Global,
        disk: &mut D,
        link: &mut L,
    ) -> Result<(), OutOfMemory>
        requires { is_ready self.old disk.old }
        ensures ready { is_ready self.new disk.new }
        ensures notified { notifies self.old disk.old (L.connections link.old) result self.new disk.new (L.connections link.new) };

    /// Whether another node took over, and the epochs of both.
    fn fenced(&self) -> Option<Fence>
        ensures { result ≡ fence self.now };
}
