//! The call that a method and a path are.
ghost use Rattle.std.specs.Prelude.{◌≡◌};
ghost use Rattle.routes.specs.Calls.{by_one, call_at, status_of};

use crate::place::Place;
use units::Operation;

/// A call to a charging function.
#[derive(Clone, Copy, PartialEq, Eq, Debug)]
pub enum Call {
    /// A charging data request (TS 32.291, 5.2.2).
    Charge(Operation),
    /// A subscription to spending limits is made (TS 29.594, 4.2.2.2).
    Subscribe,
    /// A subscription gets another context (TS 29.594, 4.2.2.3).
    Modify(u32),
    /// A subscription ends (TS 29.594, 4.2.3).
    Unsubscribe(u32),
}

/// Why a method and a path are no call.
#[derive(Clone, Copy, PartialEq, Eq, Debug)]
pub enum NoCall {
    /// The path names nothing: 404.
    NoPath,
    /// What the path names does not take the method: 405.
    NoMethod,
}

// A call that one method alone makes.
fn by_one(method: &[u8], own: &[u8], call: Call) -> Option<Call>
    ensures { result ≡ by_one method.now own.now call }
{
    if method == own { Some(call) } else { None }
}

/// The call of a method at a place.
pub fn call_at(method: &[u8], place: Place) -> Option<Call>
    ensures { result ≡ call_at method.now place }
{
    match place {
        Place::Sessions => by_one(method, b"POST", Call::Charge(Operation::Create)),
        Place::Update(reference) => by_one(
            method,
            b"POST",
            Call::Charge(Operation::Update(reference)),
        ),
        Place::Release(reference) => by_one(
            method,
            b"POST",
            Call::Charge(Operation::Release(reference)),
        ),
        Place::Subscriptions => by_one(method, b"POST", Call::Subscribe),
        Place::Subscription(id) => if method == b"PUT".as_slice() {
            Some(Call::Modify(id))
        } else {
            by_one(method, b"DELETE", Call::Unsubscribe(id))
        },
    }
}

/// The status of a response to what is no call (RFC 9110, 15.5.5 and 15.5.6).
pub fn status_of(refusal: NoCall) -> u16
    ensures { result ≡ status_of refusal }
{
    match refusal {
        NoCall::NoPath => 404,
        NoCall::NoMethod => 405,
    }
}
