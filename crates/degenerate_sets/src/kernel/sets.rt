// Degenerate sets of an id list, walked with no list of sets. That ids are 64 at most bounds the products of a matrix: a clause where that is needed,
// since a type of short lists would be made anew in each caller.
ghost use Rattle.std.specs.Prelude.{◌≡◌, ◌≤◌, ◌<◌, ◌-◌, length};
ghost use Rattle.std.specs.Iterator.{at_most};
ghost use Rattle.degenerate_sets.specs.Sets.{starts_at, end_of};
ghost use Rattle.degenerate_sets.specs.Walks.{Steps, places_left};

use numbers::kernel::is_nat;
use std::ops::Range;

// The place after the last of the set of b.
pub fn set_end(ids: &[i64], b: usize) -> usize
    requires ids_len { length ids.now ≤ 64 }
    requires b_in { b < length ids.now }
    ensures { result ≡ end_of (starts_at ids.now) (length ids.now) b }
{
    (b + 1..ids.len())
        .find(|&e| is_nat(ids[e], e))
        .unwrap_or(ids.len())
}

// The sets of an id list that start at `start` or later, in order.
#[derive(Drop)]
pub struct Sets<'a> {
    ids: &'a [i64],
    start: usize,
}

// All sets of an id list.
pub fn sets_of(ids: &[i64]) -> Sets<'_>
    requires { length ids.now ≤ 64 }
    ensures { (result.ids.now ≡ ids.now) × (result.start ≡ 0) }
{
    Sets { ids, start: 0 }
}

impl<'a> Iterator for Sets<'a> {
    type Item = Range<usize>;

    ghost can_next = { λ s. length s.ids.now ≤ 64 };

    ghost next_gives = { Steps };

    ghost remaining = { λ s. at_most (places_left s) };

    fn next(&mut self) -> Option<Range<usize>> {
        let start = self.start;
        if start < self.ids.len() {
            let end = set_end(self.ids, start);
            self.start = end;
            return Some(start..end);
        }
        None
    }
}
