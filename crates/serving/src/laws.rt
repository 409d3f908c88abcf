//! Laws of conversations: public calls that do nothing, whose contracts are the laws.
ghost use Rattle.std.specs.Prelude.{Bool};
ghost use Rattle.serving.specs.Laws.{CountsFaults, SaysTheSame};
ghost use Rattle.serving.specs.Sides.{meaning_of};

use crate::handler::Handler;
use wire::requests_decide;

/// How a stream was cut into reads does not matter.
pub fn cuts_do_not_matter<D, H: Handler<D>>(_handler: &H, _disk: &D)
    ensures { (was : Bool) → SaysTheSame (meaning_of H.gives H.expires H.notifies H.fence was) }
{
    requests_decide();
}

/// Responses of a fault are at most as many as the faults.
pub fn faults_are_counted<D, H: Handler<D>>(_handler: &H, _disk: &D)
    ensures { (was : Bool) → CountsFaults (meaning_of H.gives H.expires H.notifies H.fence was) }
{}
