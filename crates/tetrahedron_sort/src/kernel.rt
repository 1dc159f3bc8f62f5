// The sort by five comparisons, for the crates above.
ghost use Rattle.std.specs.Prelude.{◌≡◌};
ghost use Rattle.std.specs.Float.Ieee.{lt};
ghost use Rattle.tetrahedron_sort.specs.Sort.{low2, high2, place_by, sort_of};

use crate::SortedOmegas;

// Two values in order, and whether they had to change places; no Option, since both are there either way.
#[derive(Clone, Copy)]
struct OrderedPair {
    low: f64,
    high: f64,
    swapped: bool,
}

fn ordered(a: f64, b: f64) -> OrderedPair
    ensures { (result.low ≡ low2 a b) × (result.high ≡ high2 a b) × (result.swapped ≡ lt b a) }
{
    if a > b {
        OrderedPair {
            low: b,
            high: a,
            swapped: true,
        }
    } else {
        OrderedPair {
            low: a,
            high: b,
            swapped: false,
        }
    }
}

// Where the first value lands, by which pairs changed places.
fn place_of_first(first: bool, lower: bool, upper: bool, middle: bool) -> usize
    ensures { result ≡ place_by first lower upper middle }
{
    if first {
        if upper {
            3
        } else if middle {
            1
        } else {
            2
        }
    } else if lower {
        if middle { 2 } else { 1 }
    } else {
        0
    }
}

// First each half is put in order, then the two lower values, the two upper ones, and the middle.
#[tactic(auto, unfolding(crate::specs::Sort::sorted_of, crate::specs::Sort::place_of))]
pub fn sort_omegas(v: [f64; 4]) -> SortedOmegas
    ensures { result ≡ sort_of v }
{
    let first = ordered(v[0], v[1]);
    let second = ordered(v[2], v[3]);
    let lower = ordered(first.low, second.low);
    let upper = ordered(first.high, second.high);
    let middle = ordered(lower.high, upper.low);
    let place = place_of_first(first.swapped, lower.swapped, upper.swapped, middle.swapped);
    SortedOmegas {
        omegas: [lower.low, middle.low, middle.high, upper.high],
        place,
    }
}
