//! A door of the system.
ghost use Rattle.std.specs.Prelude.{◌≡◌, ◌<◌, ◌≤◌, false, true, length, IfOk, IsErr, IsNone, IsOk, None};
ghost use Rattle.std.specs.Io.{ReadsAtMost};
ghost use Rattle.edge.specs.Connections.{has_failed, untold};
ghost use Rattle.edge.specs.Faults.{FailsOnlyWithFault};
ghost use Rattle.edge.specs.TcpConnections.{after_attempt, after_use, unused};

use crate::door::Door;
use crate::tcp_connection::TcpConnection;
use crate::traits::{Counted, Failed, Sink, Source, Stream};
use std::alloc::Global;
use std::marker::Model;
use std::net::{Net, OpenListener, TcpListener};
use units::OutOfMemory;

/// A door of the system at which peers come by TCP; it tells nothing of its connections (this product's own).
///
/// An `accept` waits for a peer and a `read` for bytes, however long. The next connection ends the one before.
#[derive(Drop)]
pub struct TcpDoor<R: Net> {
    listener: Option<R::Listener>,
    connection: TcpConnection<R::Stream>,
}

impl<R: Net> Model for TcpDoor<R> {
    ghost use Rattle.std.specs.Prelude.{is_some};
    ghost use Rattle.edge.specs.TcpConnections.{Doorway};

    ghost Value = { Doorway };

    ghost view = { λ d. record { listens = is_some d.listener; socket = d.connection } };
}

impl<R: Net> TcpDoor<R> {
    /// A door at this address, a host or an address, a colon and a port. Without one, or where it can't be listened at,
    /// each call of the door is a fault.
    pub fn new(_alloc: Global, net: &R, address: Option<&str>) -> Result<TcpDoor<R>, OutOfMemory>
        ensures unused { IfOk result (λ d. d.socket ≡ unused) }
        ensures unbound { IsNone address.entry → IfOk result (λ d. d.listens ≡ false) }
    {
        let listener = match address {
            Some(address) => TcpListener::bind(net, address).ok(),
            None => None,
        };
        Ok(TcpDoor {
            listener,
            connection: TcpConnection::new(),
        })
    }
}

impl<R: Net> Counted for TcpDoor<R> {
    ghost faults = { λ d. d.socket.faults };

    ghost failed_openings = { λ d. d.socket.failed_openings };
}

impl<R: Net> Stream for TcpDoor<R> {
    ghost left = { λ _. None };

    ghost written = { λ _. None };

    ghost connections = { λ _. None };

    ghost openings = { λ _. untold };

    ghost present = { λ _. tt };
}

impl<R: Net> Source for TcpDoor<R> {
    fn read(&mut self, into: &mut [u8]) -> Result<usize, Failed>
        ensures bound { ReadsAtMost result into.new }
        ensures closed { self.old.socket.is_open ≡ false → IsErr result }
        ensures after { self.new ≡ record self.old { socket = after_use (has_failed result) self.old.socket } }
        ensures cause { FailsOnlyWithFault self.old.socket.faults self.new.socket.faults result }
    {
        self.connection.read(into)
    }
}

impl<R: Net> Sink for TcpDoor<R> {
    fn write(&mut self, bytes: &[u8]) -> Result<usize, Failed>
        ensures bound { IfOk result (λ n. n ≤ length bytes.now) }
        ensures some { IfOk result (λ n. 0 < length bytes.now → 0 < n) }
        ensures closed { self.old.socket.is_open ≡ false → IsErr result }
        ensures empty { length bytes.now ≡ 0 → self.old.socket.is_open ≡ true → IsOk result }
        ensures after { self.new ≡ record self.old { socket = after_use (has_failed result) self.old.socket } }
        ensures cause { FailsOnlyWithFault self.old.socket.faults self.new.socket.faults result }
    {
        self.connection.write(bytes)
    }
}

impl<R: Net> Door for TcpDoor<R> {
    fn accept(&mut self) -> Result<bool, Failed>
        ensures came { IfOk result (λ came. came ≡ true) }
        ensures unbound { self.old.listens ≡ false → IsErr result }
        ensures after { self.new ≡ record self.old { socket = after_attempt (has_failed result) self.old.socket } }
        ensures cause { FailsOnlyWithFault self.old.socket.faults self.new.socket.faults result }
        ensures failed_openings { FailsOnlyWithFault self.old.socket.failed_openings self.new.socket.failed_openings result }
    {
        let stream = match &self.listener {
            Some(listener) => match listener.accept() {
                Ok((stream, _peer)) => Some(stream),
                Err(_) => None,
            },
            None => None,
        };
        self.connection.open(stream)?;
        Ok(true)
    }

    fn shut(&mut self)
        ensures { self.new ≡ record self.old { socket = record self.old.socket { is_open = false } } }
    {
        self.connection.shut();
    }
}
