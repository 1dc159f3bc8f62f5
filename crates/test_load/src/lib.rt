// Test frequencies that anyone can make again from one number: request 1.

#![tactic(auto)]

ghost use Rattle.std.specs.Prelude.{◌≡◌, ◌+◌, length};
ghost use Rattle.test_load.specs.Load.{frequencies_from};

pub mod kernel;

// Fills the first frequency record, then the second, then the points, with one chain of numbers. Any start, any lengths; nothing is asked.
pub fn fill_frequencies(
    start: u32,
    frequencies1: &mut [f64],
    frequencies2: &mut [f64],
    frequency_points: &mut [f64],
)
    ensures frequencies1_after { frequencies1.new ≡ frequencies_from start 0 (length frequencies1.old) }
    ensures frequencies2_after { frequencies2.new ≡ frequencies_from start (length frequencies1.old) (length frequencies2.old) }
    ensures frequency_points_after { frequency_points.new ≡ frequencies_from start (length frequencies1.old + length frequencies2.old) (length frequency_points.old) }
{
    let first = kernel::fill(frequencies1, start);
    let second = kernel::fill(frequencies2, first);
    kernel::fill(frequency_points, second);
}
