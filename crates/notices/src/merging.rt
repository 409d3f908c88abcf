//! Two lists of notices in order made one.
ghost use Rattle.std.specs.Prelude.{◌≡◌, ◌+◌, ◌-◌, ◌≤◌, ◌++◌, [], take, drop, reverse, vec_len, vec_capacity};
ghost use Rattle.std.specs.List.Sorted.{IsNonDecreasingBy};
ghost use Rattle.notices.specs.InOrder.{all_put};
ghost use Rattle.notices.specs.Places.{IsCut};

use crate::notice::Notice;

// From where on the notices are of later subscriptions.
fn later_from(notices: &[Notice], id: u32) -> usize
    requires { IsNonDecreasingBy (λ n. n.id) notices.now }
    ensures { IsCut (λ n. n.id) id notices.now result }
{
    notices.partition_point(|one| one.id <= id)
}

// Moves what stands from a place on to the end of another list, the last one first.
fn move_from(notices: &mut Vec<Notice>, at: usize, into: &mut Vec<Notice>)
    requires within { at ≤ vec_len notices.old }
    requires room { vec_len into.old + (vec_len notices.old - at) ≤ vec_capacity into.old }
    ensures kept { notices.new.items ≡ take at notices.old.items }
    ensures moved { into.new.items ≡ into.old.items ++ reverse (drop at notices.old.items) }
    ensures capacity { vec_capacity into.new ≡ vec_capacity into.old }
{
    while notices.len() > at {
        if let Some(notice) = notices.pop() {
            into.push_reserved(notice);
        }
    }
}

/// Puts notices, each after those of its subscription, among notices in order; all of them are moved into a list that
/// is empty, where they stand in order.
pub fn merge(notices: &mut Vec<Notice>, mut more: Vec<Notice>, into: &mut Vec<Notice>)
    requires order { IsNonDecreasingBy (λ n. n.id) notices.old.items }
    requires more { IsNonDecreasingBy (λ n. n.id) more.items }
    requires empty { into.old.items ≡ [] }
    requires room { vec_len notices.old + vec_len more ≤ vec_capacity into.old }
    ensures gone { notices.new.items ≡ [] }
    ensures merged { into.new.items ≡ all_put (λ n. n.id) notices.old.items more.items }
{
    while let Some(notice) = more.pop() {
        let at = later_from(notices, notice.id);
        move_from(notices, at, into);
        into.push_reserved(notice);
    }
    move_from(notices, 0, into);
    into.reverse();
}
