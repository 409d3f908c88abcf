//! One connection, one request, one response.
ghost use Rattle.std.specs.Prelude.{◌≡◌, ◌≢◌, ◌∷◌, [], ℕ, List, Some, false};
ghost use Rattle.edge.specs.Connections.{Connection};
ghost use Rattle.edge.specs.Faults.{CountRose};
ghost use Rattle.edge.specs.Openings.{after_connect, opened};
ghost use Rattle.calls.specs.Asked.{HasAsked, IsAnswered};

use crate::asked::Asked;
use edge::{Link, write_all};
use std::alloc::Global;
use wire::{Conn, WireRefusal, responses_decide};

// Writes a message on a connection that was just opened, and reads the response.
fn talk<L: Link>(alloc: Global, conn: &mut Conn, link: &mut L, message: &[u8]) -> Asked
    requires fresh { conn.old ≡ record { bytes = []; refused = false } }
    ensures answered { (peer given : List ℕ) (earlier : List Connection) → L.connections link.old ≡ Some (opened peer given ∷ earlier)
        → (connection : Connection) × (L.connections link.new ≡ Some (connection ∷ earlier)) × (connection.peer ≡ peer) × IsAnswered message.now connection result }
    ensures sent { result ≢ Asked.NotSent }
    ensures no_reply { result ≡ Asked.NoReply → CountRose (L.faults link.old) (L.faults link.new) }
    ensures no_fault { result ≢ Asked.NoReply → L.faults link.new ≡ L.faults link.old }
    ensures openings { L.openings link.new ≡ L.openings link.old }
    ensures failed_openings { L.failed_openings link.new ≡ L.failed_openings link.old }
{
    responses_decide();
    if write_all(link, message).is_err() {
        return Asked::NoReply;
    }
    match conn.read_response(alloc, link) {
        Ok(response) => Asked::Response(response),
        Err(WireRefusal::BadHead) => Asked::NoResponse,
        Err(WireRefusal::TooLong { .. }) => Asked::NoResponse,
        Err(WireRefusal::Chunked) => Asked::NoResponse,
        Err(WireRefusal::CutShort { .. }) => Asked::NoResponse,
        Err(WireRefusal::ReadFault) => Asked::NoReply,
        Err(WireRefusal::OutOfMemory) => Asked::OutOfMemory,
    }
}

/// Connects once to a peer (a host or an address, a colon and a port), writes a message, reads one response and ends the
/// connection (RFC 9112 section 9.3).
///
/// `conn` is a reader that has read nothing. `NotSent` comes only where `connect` failed, and then nothing was written;
/// `NoReply` only where a later call on the link failed; every other answer where none did, and the whole message was
/// written. `OutOfMemory` is want of memory for a response that has come whole.
pub fn ask<L: Link>(
    alloc: Global,
    conn: &mut Conn,
    link: &mut L,
    peer: &str,
    message: &[u8],
) -> Asked
    requires fresh { conn.old ≡ record { bytes = []; refused = false } }
    ensures asked { (earlier : List Connection) → L.connections link.old ≡ Some earlier → HasAsked peer.now message.now earlier (L.connections link.new) result }
    ensures not_sent { result ≡ Asked.NotSent → CountRose (L.failed_openings link.old) (L.failed_openings link.new) }
    ensures sent { result ≢ Asked.NotSent → L.failed_openings link.new ≡ L.failed_openings link.old }
    ensures no_reply { result ≡ Asked.NoReply → CountRose (L.faults link.old) (L.faults link.new) }
    ensures no_fault { result ≢ Asked.NotSent → result ≢ Asked.NoReply → L.faults link.new ≡ L.faults link.old }
    ensures openings { L.openings link.new ≡ after_connect peer.now (L.openings link.old) }
{
    if link.connect(peer).is_err() {
        return Asked::NotSent;
    }
    let asked = talk(alloc, conn, link, message);
    link.shut();
    asked
}
