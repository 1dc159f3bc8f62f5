// What a buffer holds before a call, so that a refused call is seen to leave it as it was. Whole numbers and floats by functions of their own: one for
// both would take a trait, two impls and a law for each, in place of four loops of one line. The loops go by index: each entry is what its place gives.
ghost use Rattle.std.specs.Prelude.{◌≡◌, length};
ghost use Rattle.list_laws.specs.Lists.{tabulate};
ghost use Rattle.replay_input.specs.Stamps.{stamp_at, is_stamped, mark_at, is_marked};

use replay_compare::kernel::Compared;

// No grid point's number and no component of a table here is so large.
fn stamp_at(place: usize) -> i64
    ensures { result ≡ stamp_at place }
{
    (5000000 + place % 1000) as i64
}

// Fills whole numbers.
pub fn stamp(out: &mut [i64])
    ensures { out.new ≡ tabulate (length out.old) stamp_at }
{
    for i in 0..out.len() {
        out[i] = stamp_at(i);
    }
}

// Whether they are as they were.
pub fn is_stamped(out: &[i64]) -> bool
    ensures { result ≡ is_stamped out.now }
{
    let mut ok = true;
    for i in 0..out.len() {
        ok &= numbers::kernel::equal_at(out, i, stamp_at(i));
    }
    ok
}

// No weight is so large.
fn mark_at(place: usize) -> f64
    ensures { result ≡ mark_at place }
{
    if place % 2 == 0 { 1.5e300 } else { 2.5e300 }
}

// Fills floats.
pub fn mark(out: &mut [f64])
    ensures { out.new ≡ tabulate (length out.old) mark_at }
{
    for i in 0..out.len() {
        out[i] = mark_at(i);
    }
}

// Whether they are as they were.
pub fn is_marked(out: &[f64]) -> bool
    ensures { result ≡ is_marked out.now }
{
    let mut ok = true;
    for i in 0..out.len() {
        ok &= out[i].agrees(mark_at(i));
    }
    ok
}
