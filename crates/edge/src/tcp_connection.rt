//! A connection of the system, as a door or a link has it, with the counts of what failed.
ghost use Rattle.std.specs.Prelude.{◌≡◌, ◌<◌, ◌≤◌, ◌↔◌, false, true, length, IfOk, IsErr, IsOk, IsSome};
ghost use Rattle.std.specs.Io.{ReadsAtMost};
ghost use Rattle.edge.specs.Connections.{has_failed};
ghost use Rattle.edge.specs.Faults.{FailsOnlyWithFault};
ghost use Rattle.edge.specs.TcpConnections.{after_attempt, after_use, unused};

use crate::traits::Failed;
use std::io::{Read, Write};
use std::marker::Model;
use std::net::{OpenStream, Shutdown};

/// The present connection, if one is open, and both counts.
#[derive(Drop)]
pub struct TcpConnection<S: Read + Write + OpenStream + Drop> {
    stream: Option<S>,
    faults: u64,
    failed_openings: u64,
}

impl<S: Read + Write + OpenStream + Drop> Model for TcpConnection<S> {
    ghost use Rattle.std.specs.Prelude.{is_some};
    ghost use Rattle.edge.specs.TcpConnections.{Socket};

    ghost Value = { Socket };

    ghost view = { λ c. record { is_open = is_some c.stream; faults = c.faults; failed_openings = c.failed_openings } };
}

impl<S: Read + Write + OpenStream + Drop> TcpConnection<S> {
    /// No connection, and nothing failed so far.
    pub fn new() -> TcpConnection<S>
        ensures { result ≡ unused }
    {
        TcpConnection {
            stream: None,
            faults: 0,
            failed_openings: 0,
        }
    }

    /// Takes a connection that was opened, or counts that none was.
    ///
    /// What is written goes out at once; where the system can't do that the connection is only slower.
    pub fn open(&mut self, opened: Option<S>) -> Result<(), Failed>
        ensures came { IsOk result ↔ IsSome opened }
        ensures after { self.new ≡ after_attempt (has_failed result) self.old }
        ensures cause { FailsOnlyWithFault self.old.faults self.new.faults result }
        ensures failed { FailsOnlyWithFault self.old.failed_openings self.new.failed_openings result }
    {
        match opened {
            Some(stream) => {
                let _ = stream.set_nodelay(true);
                self.stream = Some(stream);
                Ok(())
            }
            None => {
                self.faults = self.faults.saturating_add(1);
                self.failed_openings = self.failed_openings.saturating_add(1);
                Err(Failed)
            }
        }
    }

    /// One read of the connection, whose error of any kind is one fault, as is that there is none.
    pub fn read(&mut self, into: &mut [u8]) -> Result<usize, Failed>
        ensures bound { ReadsAtMost result into.new }
        ensures closed { self.old.is_open ≡ false → IsErr result }
        ensures after { self.new ≡ after_use (has_failed result) self.old }
        ensures cause { FailsOnlyWithFault self.old.faults self.new.faults result }
    {
        if let Some(stream) = &mut self.stream
            && let Ok(count) = stream.read(into)
        {
            return Ok(count);
        }
        self.faults = self.faults.saturating_add(1);
        Err(Failed)
    }

    /// One write to the connection, whose error of any kind is one fault, as is a connection that takes nothing, and that
    /// there is none. Where there is nothing to write the connection is left alone.
    pub fn write(&mut self, bytes: &[u8]) -> Result<usize, Failed>
        ensures bound { IfOk result (λ n. n ≤ length bytes.now) }
        ensures some { IfOk result (λ n. 0 < length bytes.now → 0 < n) }
        ensures closed { self.old.is_open ≡ false → IsErr result }
        ensures empty { length bytes.now ≡ 0 → self.old.is_open ≡ true → IsOk result }
        ensures after { self.new ≡ after_use (has_failed result) self.old }
        ensures cause { FailsOnlyWithFault self.old.faults self.new.faults result }
    {
        if let Some(stream) = &mut self.stream {
            if bytes.is_empty() {
                return Ok(0);
            }
            if let Ok(count) = stream.write(bytes)
                && count > 0
            {
                return Ok(count);
            }
        }
        self.faults = self.faults.saturating_add(1);
        Err(Failed)
    }

    /// Ends the connection, both ways.
    pub fn shut(&mut self)
        ensures { self.new ≡ record self.old { is_open = false } }
    {
        if let Some(stream) = self.stream.take() {
            let _ = stream.shutdown(Shutdown::Both);
        }
    }
}
