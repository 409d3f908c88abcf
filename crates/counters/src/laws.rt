//! What holds of all tables of policy counters.
ghost use Rattle.counters.specs.Watching.{ChangesAscend, StatusesAscend};

/// A law of all tables of policy counters; it does nothing. The counters of statuses ascend by the bytes of their names, each once,
/// whatever is named and spent; so do those of which the status changed (this product's own).
pub fn statuses_ascend()
    ensures statuses { StatusesAscend }
    ensures changes { ChangesAscend }
{}
