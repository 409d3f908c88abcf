//! What holds of all lists of what came to a group.
ghost use Rattle.std.specs.Prelude.{◌≡◌, ℕ, Bool, List, Option, Some};
ghost use Rattle.units.specs.declared.report.Container.{Container};
ghost use Rattle.units.specs.declared.trigger.TriggerType.{TriggerType};
ghost use Rattle.quotas.specs.declared.state.Limits.{Limits};
ghost use Rattle.quotas.specs.Quota.{Quota};
ghost use Rattle.quotas.specs.Due.{due_of};
ghost use Rattle.quotas.specs.Deadline.{RestsUntilDeadline};
ghost use Rattle.quotas.specs.declared.step.Step.{Step};
ghost use Rattle.quotas.specs.Steps.{quota_after};
ghost use Rattle.quotas.specs.Laws.{IsOfTheList, StandsByTheList, AsksByTheList, DueByTheList, FitsGranted, IsQuietAfter};

/// A group's quota is what the whole list of what came to it says (TS 32.290, quota management; the law is this product's
/// own): its use is the sum over the reports after the freezing of the request whose answer set it, at most 2^64 - 1; its
/// terms are those of the latest answer with an entry of it; it is asked from a wish to the answer; and what is due and the
/// gate follow from these.
pub fn by_whole_list()
    ensures sums { (steps : List Step) → IsOfTheList steps }
    ensures standing { (steps : List Step) → StandsByTheList steps }
    ensures asked { (steps : List Step) → AsksByTheList steps }
    ensures due { (steps : List Step) → FitsGranted (quota_after steps).standing → DueByTheList steps }
{}

/// After a trigger fired and the group's open container was closed none is due at the same moment, so settling a group twice
/// is settling it once (this product's own).
pub fn fires_once()
    ensures { (q : Quota) (open_container : Option Container) (unsafe_hour : Bool) (now : ℕ)
        (limits : Limits) (trigger : TriggerType)
        → due_of q open_container unsafe_hour now limits ≡ Some trigger
        → IsQuietAfter q now limits trigger }
{}

/// Where no trigger of a group is due at the first moment, none is due before its deadline while no unsafe hour comes; so a
/// group in which nothing is due is left alone until then (this product's own).
pub fn rests_until_deadline()
    ensures { (q : Quota) → RestsUntilDeadline q }
{}
