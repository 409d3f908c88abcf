//! The place that a path names.
ghost use Rattle.std.specs.Prelude.{◌≡◌};
ghost use Rattle.routes.specs.Paths.{number_in, sessions, subscriptions};
ghost use Rattle.routes.specs.Table.{name_after, place_by};

use rows::{number, piece_length};

/// What a path of a charging function names (TS 32.291, 6.1.3.1; TS 29.594, 5.3.1). A name that is no number from 1 to
/// 2^32 - 1 counts as 0, which no session and no subscription has.
#[derive(Clone, Copy, PartialEq, Eq, Debug)]
pub enum Place {
    /// The collection of charging sessions.
    Sessions,
    /// The update of a session.
    Update(u32),
    /// The release of a session.
    Release(u32),
    /// The collection of subscriptions to spending limits.
    Subscriptions,
    /// A subscription.
    Subscription(u32),
}

/// A path of the table, whatever name stands in it.
#[derive(Clone, Copy, PartialEq, Eq, Debug, Drop)]
pub enum Route {
    /// The collection of charging sessions.
    Sessions,
    /// The update of a session.
    Update,
    /// The release of a session.
    Release,
    /// The collection of subscriptions to spending limits.
    Subscriptions,
    /// A subscription.
    Subscription,
}

fn number_in(name: &[u8]) -> u32
    ensures { result ≡ number_in name.now }
{
    match number(u64::from(u32::MAX), name) {
        Some(number) => number as u32,
        None => 0,
    }
}

fn name_after<'a>(collection: &str, path: &'a [u8]) -> &'a [u8]
    ensures { result.now ≡ name_after collection.now path.now }
{
    match path.get(collection.len() + 1..) {
        Some(rest) => &rest[..piece_length(b'/', rest)],
        None => b"",
    }
}

fn session_in(path: &[u8]) -> u32
    ensures { result ≡ number_in (name_after sessions path.now) }
{
    number_in(name_after("/nchf-convergedcharging/v3/chargingdata", path))
}

fn subscription_in(path: &[u8]) -> u32
    ensures { result ≡ number_in (name_after subscriptions path.now) }
{
    number_in(name_after("/nchf-spendinglimitcontrol/v1/subscriptions", path))
}

/// The place that a path of a route names.
pub fn place_by(route: Route, path: &[u8]) -> Place
    ensures { result ≡ place_by route path.now }
{
    match route {
        Route::Sessions => Place::Sessions,
        Route::Update => Place::Update(session_in(path)),
        Route::Release => Place::Release(session_in(path)),
        Route::Subscriptions => Place::Subscriptions,
        Route::Subscription => Place::Subscription(subscription_in(path)),
    }
}
