//! The request that is kept at a place, found by halves.
ghost use Rattle.std.specs.Prelude.{◌≡◌, ◌==◌, find, option_copied, slice_get};
ghost use Rattle.chf_core.specs.Placed.{AreAscending, if_at};

use crate::kept_request::KeptRequest;

fn request_in(requests: &[KeptRequest], at: usize) -> Option<&KeptRequest>
    ensures { option_copied result ≡ slice_get requests.now at }
{
    requests.get(at)
}

// A request, where it is kept at this place.
fn if_at(place: u32, request: Option<&KeptRequest>) -> Option<&KeptRequest>
    ensures { option_copied result ≡ if_at place (option_copied request.entry) }
{
    match request {
        Some(r) => if r.place == place { Some(r) } else { None },
        None => None,
    }
}

/// The request that is kept at a place, among requests in the order of their places.
pub fn found_at(requests: &[KeptRequest], place: u32) -> Option<&KeptRequest>
    requires { AreAscending 0 requests.now }
    ensures { option_copied result ≡ find (λ r. r.place == place) requests.now }
{
    let at = requests.partition_point(|r| r.place < place);
    if_at(place, request_in(requests, at))
}
