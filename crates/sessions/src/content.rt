//! Whether two requests have the same content.
ghost use Rattle.std.specs.Prelude.{◌≡◌, ◌↔◌, IsTrue};
ghost use Rattle.sessions.specs.Content.{same_content, same_name, same_body, content};

use units::Request;

fn same_name(a: &Request, b: &Request) -> bool
    ensures { result ≡ same_name a.now b.now }
{
    a.operation == b.operation
        && a.consumer == b.consumer
        && a.subscriber == b.subscriber
        && a.charging_id == b.charging_id
        && a.number == b.number
}

fn same_body(a: &Request, b: &Request) -> bool
    ensures { result ≡ same_body a.now b.now }
{
    a.stamp == b.stamp && a.notify == b.notify && a.usage == b.usage && a.triggers == b.triggers
}

/// Whether two requests have the same content: they are the same but for the retransmission indicator (TS 32.290, 5.3.2).
pub fn same_content(a: &Request, b: &Request) -> bool
    ensures value { result ≡ same_content a.now b.now }
    ensures content { IsTrue result ↔ (content a.now ≡ content b.now) }
{
    same_name(a, b) && same_body(a, b)
}
