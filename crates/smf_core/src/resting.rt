//! How long a session rests: up to which moment a tick leaves it as it is.
ghost use Rattle.std.specs.Prelude.{◌≡◌};
ghost use Rattle.smf_model.specs.Resting.{within_range, unsafe_from, rest_end_with, rest_end_in, rest_end};

use crate::rules::limits;
use crate::settle::open_container;
use meter::first_unsafe_hour;
use quotas::earlier;
use smf_model::{Entry, Session, SmfSetup};
use units::{Container, Moment};

fn within_range(seconds: Option<u64>) -> Option<Moment>
    ensures { result ≡ within_range seconds }
{
    match seconds {
        None => None,
        Some(seconds) => Moment::new(seconds),
    }
}

// The first unsafe hour of an open container.
fn unsafe_from(entry: &Entry, container: &Option<Container>) -> Option<Moment>
    ensures { result ≡ unsafe_from entry.now container.now }
{
    match container {
        None => None,
        Some(container) => within_range(first_unsafe_hour(&entry.horizon, container.last)),
    }
}

fn end_with(
    setup: &SmfSetup,
    session: &Session,
    container: &Option<Container>,
    entry: &Entry,
) -> Option<Moment>
    ensures { result ≡ rest_end_with setup.now session.now container.now entry.now }
{
    let limits = limits(setup, session.rules.as_slice(), entry.number);
    let first = Moment::first();
    match entry.quota.due(container.as_ref(), false, first, &limits) {
        Some(_) => Some(first),
        None => earlier(entry.quota.deadline(), unsafe_from(entry, container)),
    }
}

// The moment at which a rating group's rest ends.
fn end_in(setup: &SmfSetup, session: &Session, entry: &Entry) -> Option<Moment>
    ensures { result ≡ rest_end_in setup.now session.now entry.now }
{
    let container = open_container(session.holdings.as_slice(), entry.number);
    end_with(setup, session, &container, entry)
}

/// The moment at which a session's rest ends (TS 32.255, 5.2.1).
pub fn rest_end(setup: &SmfSetup, session: &Session) -> Option<Moment>
    ensures { result ≡ rest_end setup.now session.now }
{
    let mut end = None;
    for entry in session.groups.as_slice() {
        end = earlier(end, end_in(setup, session, entry));
    }
    end
}
