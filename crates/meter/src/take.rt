//! A report that is taken, in all that is kept of a session.
ghost use Rattle.std.specs.Prelude.{◌≡◌, ◌≤◌, ◌<◌, ◌+◌, ◌-◌, ◌^◌, ◌++◌, ◌∷◌, [], length, Some, None, vec_len, vec_capacity, slice_set};
ghost use Rattle.meter.specs.Caches.{AreKept, Admitted};
ghost use Rattle.meter.specs.Meter.{last_in, extended, opened};

use crate::close::Close;
use crate::container::{first_of, with_report};
use crate::counts::{GroupCount, count_on};
use units::{Container, Moment, Report};

// The report joins the last container of its group.
pub fn grow(
    containers: &mut Vec<Container>,
    counts: &mut Vec<GroupCount>,
    last: Moment,
    total: u32,
    container: &Container,
    report: &Report,
)
    requires kept { AreKept containers.old.items counts.old.items last total }
    requires new { Admitted containers.old.items report.now }
    requires room { vec_len counts.old < vec_capacity counts.old }
    requires last { last_in report.now.group containers.old.items ≡ Some container.now }
    requires seconds { container.now.seconds + report.now.seconds < 2 ^ 32 }
    ensures kept { AreKept containers.new.items counts.new.items report.now.moment (total + 1) }
    ensures places { vec_capacity containers.new ≡ vec_capacity containers.old }
    ensures counts_places { vec_capacity counts.new ≡ vec_capacity counts.old }
    ensures counts_more { vec_len counts.old ≤ vec_len counts.new }
    ensures joined { containers.new.items ≡ slice_set containers.old.items (container.now.lsn - 1) (extended container.now report.now) }
{
    containers[(container.lsn - 1) as usize] = with_report(container, report);
    count_on(counts, report.group, container.lsn);
}

// The report opens the next container.
pub fn open_next(
    containers: &mut Vec<Container>,
    closes: &mut Vec<Option<Close>>,
    counts: &mut Vec<GroupCount>,
    last: Moment,
    total: u32,
    report: &Report,
)
    requires kept { AreKept containers.old.items counts.old.items last total }
    requires new { Admitted containers.old.items report.now }
    requires place { vec_len containers.old < vec_capacity containers.old }
    requires close_place { vec_len closes.old < vec_capacity closes.old }
    requires room { vec_len counts.old < vec_capacity counts.old }
    ensures kept { AreKept containers.new.items counts.new.items report.now.moment (total + 1) }
    ensures places { vec_capacity containers.new ≡ vec_capacity containers.old }
    ensures close_places { vec_capacity closes.new ≡ vec_capacity closes.old }
    ensures counts_places { vec_capacity counts.new ≡ vec_capacity counts.old }
    ensures counts_more { vec_len counts.old ≤ vec_len counts.new }
    ensures opened { containers.new.items ≡ containers.old.items ++ opened (length containers.old.items + 1) report.now ∷ [] }
    ensures not_closed { closes.new.items ≡ closes.old.items ++ None ∷ [] }
{
    let lsn = containers.len() as u32 + 1;
    containers.push_reserved(first_of(lsn, report));
    closes.push_reserved(None);
    count_on(counts, report.group, lsn);
}
