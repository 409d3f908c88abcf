//! Turns of use and of what is due in one rating group.
use crate::draws::Draws;
use quotas::{Group, Limits};
use std::alloc::Global;
use units::{Amount, Code, Container, List, Moment, UnitInfo};

// A group with a large grant, a threshold, a validity and a holding time.
fn granted(alloc: Global) -> Group {
    let info = UnitInfo {
        group: 10,
        code: Code::Success,
        grant: Some(Amount::Volume(1 << 60)),
        switch: None,
        validity: Some(604_800),
        holding: Some(604_800),
        volume_threshold: Some(1000),
        time_threshold: None,
        last_units: None,
        triggers: List::new(alloc),
    };
    let mut group = Group::new();
    group.ask();
    group.freeze();
    group.answer(Moment::first().plus(1_767_323_045), Some(&info));
    group
}

/// Makes that many turns of a report and a look at what is due, and counts the turns in which something is.
pub fn turns_of_use(alloc: Global, turns: u64) -> u64 {
    let mut group = granted(alloc);
    let limits = Limits {
        volume: 0,
        seconds: 0,
    };
    let container = Container {
        lsn: 1,
        group: 10,
        up: 1000,
        down: 1000,
        seconds: 60,
        first: Moment::first().plus(1_767_323_045),
        last: Moment::first().plus(1_767_323_045),
        reports: 1,
    };
    let mut draws = Draws::new(1);
    let mut count = 0u64;
    for _ in 0..turns {
        let octets = draws.next() % 1000;
        group.used(octets, 1, Moment::first().plus(1_767_323_050));
        let due = group.due(
            Some(&container),
            false,
            Moment::first().plus(1_767_323_060),
            &limits,
        );
        count = count.wrapping_add(u64::from(due.is_some()));
    }
    count
}
