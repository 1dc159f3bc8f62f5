// Corner values of a band pair, in work areas of 384 floats, and their boxes.
ghost use Rattle.std.specs.Prelude.{◌≡◌, length};
ghost use Rattle.triplet_values.specs.Values.{clamped, corner_frequency, corner_frequencies, number_of, combined, channel_values, Held, Begun, lesser, greater, box_of};

use crate::{Band, Combination, CornerCount, ValueBox};
use triplet_types::TpType;

// A value below 0 replaced by 0. Not std's `max`: that gives 0 for a NaN, and may give either of two zeros.
fn clamp(f: f64) -> f64
    ensures { result ≡ clamped f }
{
    if f < 0.0 { 0.0 } else { f }
}

// A corner's frequency: types 2 and 3 replace a value below 0 by 0, type 4 keeps it.
#[tactic(auto, unfolding(crate::specs::Values::corner_frequency))]
fn corner_frequency(tp: TpType, f: f64) -> f64
    ensures { result ≡ corner_frequency tp f }
{
    match tp {
        TpType::Type2 => clamp(f),
        TpType::Type3 => clamp(f),
        TpType::Type4 => f,
    }
}

// The frequencies of one band at the first corners of one point of a triplet, in front of a work area. `Held` ties the corner numbers to a
// list of frequencies and a band: a type for it would hold all three. grid_point_weights has its own loop, without the clamp.
pub fn fill_frequencies(
    a: &mut [f64; 384],
    tp: TpType,
    numbers: &[usize; 384],
    n: CornerCount,
    band: Band,
)
    requires { Held numbers.now n.count (length band.frequencies.now) band.bands band.band }
    ensures { Begun n.count a.new (corner_frequencies tp numbers.now n.count band.entry.frequencies.now band.entry.bands band.entry.band) }
{
    for i in 0..n.count {
        let k = numbers[i] * band.bands + band.band;
        a[i] = corner_frequency(tp, band.frequencies[k]);
    }
}

// The value of a channel at a corner.
#[tactic(auto, unfolding(crate::specs::Values::combined))]
fn combine(channel: Combination, f1: f64, f2: f64) -> f64
    ensures { result ≡ combined (number_of channel) f1 f2 }
{
    match channel {
        Combination::SecondLessFirst => -f1 + f2,
        Combination::FirstLessSecond => f1 - f2,
        Combination::Sum => f1 + f2,
    }
}

// The values of a channel at the first corners, in front of a work area.
pub fn fill_channel(
    a: &mut [f64; 384],
    channel: Combination,
    f1: &[f64; 384],
    f2: &[f64; 384],
    n: CornerCount,
)
    ensures { Begun n.count a.new (channel_values (number_of channel) f1.now f2.now n.count) }
{
    for i in 0..n.count {
        a[i] = combine(channel, f1[i], f2[i]);
    }
}

// The lesser of two values. Not std's `min`: that gives v where fmin is a NaN, and may give either of two zeros.
fn lesser_of(fmin: f64, v: f64) -> f64
    ensures { result ≡ lesser fmin v }
{
    if fmin > v { v } else { fmin }
}

// The greater of two values. Not std's `max`, as above.
fn greater_of(fmax: f64, v: f64) -> f64
    ensures { result ≡ greater fmax v }
{
    if fmax < v { v } else { fmax }
}

// The least and the greatest of the values at the first corners.
#[tactic(auto, unfolding(crate::specs::Values::least_of, crate::specs::Values::greatest_of, crate::specs::Values::box_of))]
pub fn box_of(a: &[f64; 384], n: CornerCount) -> ValueBox
    ensures { result ≡ box_of a.now n.count }
{
    let mut fmin = a[0];
    let mut fmax = a[0];
    for i in 0..n.count {
        fmin = lesser_of(fmin, a[i]);
        fmax = greater_of(fmax, a[i]);
    }
    ValueBox { fmin, fmax }
}
