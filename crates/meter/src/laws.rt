//! What holds of all cuts.
ghost use Rattle.meter.specs.Laws.{ReportsKeepCuts};

/// A law of cuts; it does nothing. The containers of a group stay a cut of its reports as a report comes, under any whole hours as switches
/// of which none lies strictly within the group's horizon: as a session takes the report, as the report joins a container by the rule for
/// joining, and as it opens the next one (TS 32.255, 5.2.1).
pub fn reports_keep_cuts()
    ensures { ReportsKeepCuts }
{}
