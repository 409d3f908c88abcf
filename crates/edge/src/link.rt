//! A link to peers.
ghost use Rattle.std.specs.Prelude.{◌≡◌, [], IfSome, OnErr, OnOk};
ghost use Rattle.edge.specs.Faults.{FailsOnlyWithFault};
ghost use Rattle.edge.specs.Openings.{HasOpened, after_connect};

use crate::traits::{Counted, Failed, Sink, Source, Stream};

/// A link to peers, one connection after another. `read` and `write` act on the present one.
pub trait Link: Source + Sink {
    /// Opens a connection to a peer: a host or an address, a colon and a port.
    ///
    /// `Failed` comes only with a fault and a failed opening, and then the connections are as before. Failed or not, the
    /// call is counted and its peer told.
    fn connect(&mut self, peer: &str) -> Result<(), Failed>
        ensures opened { OnOk result (HasOpened peer.now (Self.connections self.old) (Self.connections self.new)) }
        ensures unwritten { OnOk result (IfSome (Self.written self.new) (λ bytes. bytes ≡ [])) }
        ensures openings { Self.openings self.new ≡ after_connect peer.now (Self.openings self.old) }
        ensures connections { OnErr result (Self.connections self.new ≡ Self.connections self.old) }
        ensures left { OnErr result (Self.left self.new ≡ Self.left self.old) }
        ensures written { OnErr result (Self.written self.new ≡ Self.written self.old) }
        ensures cause { FailsOnlyWithFault (Self.faults self.old) (Self.faults self.new) result }
        ensures failed_openings { FailsOnlyWithFault (Self.failed_openings self.old) (Self.failed_openings self.new) result };

    /// Ends the present connection. Nothing that is told changes.
    fn shut(&mut self)
        ensures connections { Self.connections self.new ≡ Self.connections self.old }
        ensures left { Self.left self.new ≡ Self.left self.old }
        ensures written { Self.written self.new ≡ Self.written self.old }
        ensures openings { Self.openings self.new ≡ Self.openings self.old }
        ensures faults { Self.faults self.new ≡ Self.faults self.old }
        ensures failed_openings { Self.failed_openings self.new ≡ Self.failed_openings self.old };
}
