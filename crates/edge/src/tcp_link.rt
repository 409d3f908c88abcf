//! A link of the system.
ghost use Rattle.std.specs.Prelude.{◌≡◌, ◌<◌, ◌≤◌, false, true, length, IfOk, IsErr, IsOk, None};
ghost use Rattle.std.specs.Io.{ReadsAtMost};
ghost use Rattle.edge.specs.Connections.{has_failed, untold};
ghost use Rattle.edge.specs.Faults.{FailsOnlyWithFault};
ghost use Rattle.edge.specs.TcpConnections.{after_attempt, after_use, unused};

use crate::link::Link;
use crate::tcp_connection::TcpConnection;
use crate::traits::{Counted, Failed, Sink, Source, Stream};
use std::alloc::Global;
use std::marker::Model;
use std::net::{Net, TcpStream};
use units::OutOfMemory;

/// A link of the system to peers by TCP; it tells nothing of its connections (this product's own).
///
/// A `connect` waits for the peer as long as the system does, and a `read` for bytes, however long. The next connection
/// ends the one before.
#[derive(Drop)]
pub struct TcpLink<R: Net + Drop> {
    net: R,
    connection: TcpConnection<R::Stream>,
}

impl<R: Net + Drop> Model for TcpLink<R> {
    ghost use Rattle.edge.specs.TcpConnections.{Socket};

    ghost Value = { Socket };

    ghost view = { λ l. l.connection };
}

impl<R: Net + Drop> TcpLink<R> {
    /// A link without a connection.
    pub fn new(_alloc: Global, net: R) -> Result<TcpLink<R>, OutOfMemory>
        ensures { IfOk result (λ l. l ≡ unused) }
    {
        Ok(TcpLink {
            net,
            connection: TcpConnection::new(),
        })
    }
}

impl<R: Net + Drop> Counted for TcpLink<R> {
    ghost faults = { λ l. l.faults };

    ghost failed_openings = { λ l. l.failed_openings };
}

impl<R: Net + Drop> Stream for TcpLink<R> {
    ghost left = { λ _. None };

    ghost written = { λ _. None };

    ghost connections = { λ _. None };

    ghost openings = { λ _. untold };

    ghost present = { λ _. tt };
}

impl<R: Net + Drop> Source for TcpLink<R> {
    fn read(&mut self, into: &mut [u8]) -> Result<usize, Failed>
        ensures bound { ReadsAtMost result into.new }
        ensures closed { self.old.is_open ≡ false → IsErr result }
        ensures after { self.new ≡ after_use (has_failed result) self.old }
        ensures cause { FailsOnlyWithFault self.old.faults self.new.faults result }
    {
        self.connection.read(into)
    }
}

impl<R: Net + Drop> Sink for TcpLink<R> {
    fn write(&mut self, bytes: &[u8]) -> Result<usize, Failed>
        ensures bound { IfOk result (λ n. n ≤ length bytes.now) }
        ensures some { IfOk result (λ n. 0 < length bytes.now → 0 < n) }
        ensures closed { self.old.is_open ≡ false → IsErr result }
        ensures empty { length bytes.now ≡ 0 → self.old.is_open ≡ true → IsOk result }
        ensures after { self.new ≡ after_use (has_failed result) self.old }
        ensures cause { FailsOnlyWithFault self.old.faults self.new.faults result }
    {
        self.connection.write(bytes)
    }
}

impl<R: Net + Drop> Link for TcpLink<R> {
    fn connect(&mut self, peer: &str) -> Result<(), Failed>
        ensures after { self.new ≡ after_attempt (has_failed result) self.old }
        ensures cause { FailsOnlyWithFault self.old.faults self.new.faults result }
        ensures failed_openings { FailsOnlyWithFault self.old.failed_openings self.new.failed_openings result }
    {
        let stream = TcpStream::connect(&self.net, peer).ok();
        self.connection.open(stream)
    }

    fn shut(&mut self)
        ensures { self.new ≡ record self.old { is_open = false } }
    {
        self.connection.shut();
    }
}
