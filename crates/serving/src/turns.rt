//! One message of a connection.
ghost use Rattle.std.specs.Prelude.{◌≡◌, ◌≤◌, ◌∷◌, List, Option, length, true, false, Ok, Some};
ghost use Rattle.edge.specs.Connections.{Connection};
ghost use Rattle.serving.specs.Sides.{HasReached, Side, meaning_of, newly};
ghost use Rattle.serving.specs.Talk.{AfterNext, HasAnswered, HasRefused, HasWritten, IsTalking, Turn, answer_text, as_given};

use crate::handler::Handler;
use crate::response::Response;
use crate::texts::{no_memory, refusal_text};
use edge::{Door, Failed, write_all};
use std::alloc::Global;
use units::OutOfMemory;
use wire::{Conn, HttpRequest, WireRefusal, requests_decide};

/// The most messages of a connection.
pub const MOST_MESSAGES: u32 = 1000;

// A message as the handler gets it.
fn given(message: HttpRequest, count: u32) -> HttpRequest
    ensures { result ≡ as_given count message }
{
    HttpRequest {
        method: message.method,
        path: message.path,
        body: message.body,
        close: message.close || count == MOST_MESSAGES - 1,
    }
}

// Writes bytes on the present connection.
fn write<N: Door>(door: &mut N, bytes: &[u8]) -> Result<(), Failed>
    ensures written { HasWritten bytes.now result (N.connections door.old) (N.connections door.new) }
    ensures failed_openings { N.failed_openings door.new ≡ N.failed_openings door.old }
    ensures openings { N.openings door.new ≡ N.openings door.old }
    ensures later { N.faults door.old ≤ N.faults door.new }
{
    write_all(door, bytes)
}

// Writes what a message is answered.
fn say<N: Door>(
    door: &mut N,
    close: bool,
    answer: &Result<Response, OutOfMemory>,
) -> Result<(), Failed>
    ensures text { HasWritten (answer_text close answer.now) result (N.connections door.old) (N.connections door.new) }
    ensures failed_openings { N.failed_openings door.new ≡ N.failed_openings door.old }
    ensures openings { N.openings door.new ≡ N.openings door.old }
    ensures later { N.faults door.old ≤ N.faults door.new }
{
    match answer {
        Ok(response) => write(door, response.bytes.as_slice()),
        Err(_) => write(door, no_memory(close)),
    }
}

/// Whether a node that was not fenced when serving began is now.
pub fn is_newly_fenced<D, H: Handler<D>>(handler: &H, was: bool) -> bool
    ensures { result ≡ newly was (H.fence handler.now) }
{
    !was && handler.fenced().is_some()
}

// Gives a message to the handler and writes the answer; whether the conversation may go on.
fn answer<D, N: Door, H: Handler<D>>(
    alloc: Global,
    handler: &mut H,
    disk: &mut D,
    door: &mut N,
    message: HttpRequest,
    count: u32,
    was: bool,
) -> bool
    requires { H.is_ready handler.old disk.old }
    ensures ready { H.is_ready handler.new disk.new }
    ensures answered { (link : Option (List Connection)) → HasAnswered (meaning_of H.gives H.expires H.notifies H.fence was) count message
        (record { handler = handler.old; disk = disk.old; link = link }) result (record { handler = handler.new; disk = disk.new; link = link }) (N.connections door.old) (N.connections door.new) }
    ensures failed_openings { N.failed_openings door.new ≡ N.failed_openings door.old }
    ensures openings { N.openings door.new ≡ N.openings door.old }
    ensures later { N.faults door.old ≤ N.faults door.new }
{
    let message = given(message, count);
    let answer = handler.handle(alloc, disk, &message);
    let wrote = say(door, message.close, &answer);
    wrote.is_ok() && (!message.close && !is_newly_fenced::<D, H>(handler, was))
}

// Answers a rest of which no message was read.
fn refuse<N: Door>(door: &mut N, refusal: WireRefusal) -> Result<bool, OutOfMemory>
    ensures refused { HasRefused refusal result (N.connections door.old) (N.connections door.new) }
    ensures failed_openings { N.failed_openings door.new ≡ N.failed_openings door.old }
    ensures openings { N.openings door.new ≡ N.openings door.old }
    ensures later { N.faults door.old ≤ N.faults door.new }
{
    if refusal == WireRefusal::OutOfMemory {
        return Err(OutOfMemory);
    }
    let _ = write(door, refusal_text(refusal));
    Ok(false)
}

/// Reads one more message and answers it; whether the conversation goes on.
pub fn answer_next<D, N: Door, H: Handler<D>>(
    alloc: Global,
    conn: &mut Conn,
    handler: &mut H,
    disk: &mut D,
    door: &mut N,
    count: u32,
    was: bool,
) -> Result<bool, OutOfMemory>
    requires fresh { conn.old.refused ≡ false }
    requires ready { H.is_ready handler.old disk.old }
    ensures fresh { result ≡ Ok true → conn.new.refused ≡ false }
    ensures ready { H.is_ready handler.new disk.new }
    ensures reached { (link : Option (List Connection)) → HasReached (meaning_of H.gives H.expires H.notifies H.fence was)
        (record { handler = handler.old; disk = disk.old; link = link }) (record { handler = handler.new; disk = disk.new; link = link }) }
    ensures talks { (link : Option (List Connection)) (start : Side H D) (turns : List Turn) (present : Connection) (others : List Connection)
        → length turns ≡ count → N.connections door.old ≡ Some (present ∷ others)
        → IsTalking (meaning_of H.gives H.expires H.notifies H.fence was) start present turns (record { handler = handler.old; disk = disk.old; link = link }) conn.old.bytes
        → AfterNext (meaning_of H.gives H.expires H.notifies H.fence was) start turns others result (record { handler = handler.new; disk = disk.new; link = link }) conn.new.bytes (N.connections door.new) }
    ensures failed_openings { N.failed_openings door.new ≡ N.failed_openings door.old }
    ensures openings { N.openings door.new ≡ N.openings door.old }
    ensures later { N.faults door.old ≤ N.faults door.new }
{
    requests_decide();
    match conn.read_request(alloc, door) {
        Ok(Some(message)) => Ok(answer(alloc, handler, disk, door, message, count, was)),
        Ok(None) => Ok(false),
        Err(refusal) => refuse(door, refusal),
    }
}
