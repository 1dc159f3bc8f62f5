// Test frequencies that anyone can make again.
ghost use Rattle.std.specs.Prelude.{◌≡◌, ◌+◌, length};
ghost use Rattle.test_load.specs.Load.{frequencies_from};

// Test frequencies from a 32-bit start: the first frequency record, then the second, then the points, one chain over all three. Any lengths;
// nothing is asked and nothing refused.
#[unsafe(no_mangle)]
pub extern "C" fn pelmetsavory_fill_frequencies(
    start: u32,
    frequencies1: &mut [f64],
    frequencies2: &mut [f64],
    frequency_points: &mut [f64],
)
    ensures frequencies1_after { frequencies1.new ≡ frequencies_from start 0 (length frequencies1.old) }
    ensures frequencies2_after { frequencies2.new ≡ frequencies_from start (length frequencies1.old) (length frequencies2.old) }
    ensures frequency_points_after { frequency_points.new ≡ frequencies_from start (length frequencies1.old + length frequencies2.old) (length frequency_points.old) }
{
    test_load::fill_frequencies(start, frequencies1, frequencies2, frequency_points);
}
