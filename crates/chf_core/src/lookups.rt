//! What is looked up of sessions and requests.
ghost use Rattle.std.specs.Prelude.{◌≡◌, option_copied};
ghost use Rattle.chf_core.specs.Sessions.{by_reference, id_of};
ghost use Rattle.chf_core.specs.Cached.{supi_from};
ghost use Rattle.chf_core.specs.Money.{supi_in};

use crate::session::Session;
use units::{Operation, Request};

/// The charging id of a Create; it is required there, and 0 stands for one that is wanting.
pub fn id_of(id: Option<u32>) -> u32
    ensures { result ≡ id_of id }
{
    match id {
        Some(id) => id,
        None => 0,
    }
}

/// The session with a reference, which counts from 1.
pub fn at_reference(sessions: &[Session], reference: u32) -> Option<&Session>
    ensures { option_copied result ≡ by_reference sessions.now reference }
{
    if reference == 0 {
        return None;
    }
    sessions.get(reference as usize - 1)
}

/// The subscriber whose row bars groups.
pub fn supi_for<'a>(sessions: &'a [Session], request: &'a Request) -> &'a str
    ensures { result.now ≡ supi_from request.now.operation sessions.now request.now }
{
    match request.operation {
        Operation::Create => match &request.subscriber {
            Some(supi) => supi.as_str(),
            None => "",
        },
        Operation::Update(reference) => supi_in(at_reference(sessions, reference)),
        Operation::Release(reference) => supi_in(at_reference(sessions, reference)),
    }
}

fn supi_in(session: Option<&Session>) -> &str
    ensures { result.now ≡ supi_in (option_copied session.entry) }
{
    match session {
        Some(session) => session.supi.as_str(),
        None => "",
    }
}
