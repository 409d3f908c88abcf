//! One container and one report: whether it joins, and what comes of it.
ghost use Rattle.std.specs.Prelude.{◌≡◌, ◌≤◌, ◌<◌, ◌+◌, ◌^◌};
ghost use Rattle.meter.specs.Meter.{is_too_large, may_join, trigger_of, extended, opened};

use crate::horizon::{Horizon, is_split};
use units::{Container, Report, TriggerType};

/// Whether a report passes the limits of one report: 2^40 octets up or down, 86,400 seconds (this product's own).
pub fn is_large(report: &Report) -> bool
    ensures { result ≡ is_too_large report.now }
{
    report.up > 1 << 40 || report.down > 1 << 40 || report.seconds > 86_400
}

/// Whether a report may join an open container: no unsafe hour lies between, and the seconds fit (TS 32.255, 5.2.1).
pub fn joins(horizon: &Option<Horizon>, container: &Container, report: &Report) -> bool
    ensures { result ≡ may_join horizon.now container.now report.now }
{
    !is_split(horizon, container.last, report.moment)
        && container.seconds.checked_add(report.seconds).is_some()
}

/// What closes an open container before a report that may not join it (TS 32.255, 5.2.1).
pub fn trigger_before(
    horizon: &Option<Horizon>,
    container: &Container,
    report: &Report,
) -> TriggerType
    ensures { result ≡ trigger_of horizon.now container.now report.now }
{
    if is_split(horizon, container.last, report.moment) {
        TriggerType::TariffTimeChange
    } else {
        TriggerType::TimeLimit
    }
}

/// A container with a report more, whose sums fit their types.
pub fn with_report(container: &Container, report: &Report) -> Container
    requires up { container.now.up + report.now.up < 2 ^ 64 }
    requires down { container.now.down + report.now.down < 2 ^ 64 }
    requires seconds { container.now.seconds + report.now.seconds < 2 ^ 32 }
    requires reports { container.now.reports + 1 < 2 ^ 32 }
    ensures { result ≡ extended container.now report.now }
{
    Container {
        up: container.up + report.up,
        down: container.down + report.down,
        seconds: container.seconds + report.seconds,
        last: report.moment,
        reports: container.reports + 1,
        ..*container
    }
}

/// The container of this number that a report opens.
pub fn first_of(lsn: u32, report: &Report) -> Container
    ensures { result ≡ opened lsn report.now }
{
    Container {
        lsn,
        group: report.group,
        up: report.up,
        down: report.down,
        seconds: report.seconds,
        first: report.moment,
        last: report.moment,
        reports: 1,
    }
}
