// Question 11: the ranges of frequencies, of frequency points and of vertices.
ghost use Rattle.std.specs.Prelude.{◌≡◌};
ghost use Rattle.question_values.specs.Frequencies.{in_range, are_in_range, are_frequencies, are_points, is_point};

// 2^-600 and 2^30
const LEAST_FREQUENCY: f64 = 2.409919865102884e-181;

const GREATEST_FREQUENCY: f64 = 1073741824.0;

// 2^-660 and 2^31
const LEAST_POINT: f64 = 2.0902722826084166e-199;

const GREATEST_POINT: f64 = 2147483648.0;

// Zero, or of a magnitude from low to high. No branch on the sign: energies around a Fermi level have either.
pub fn in_range(low: f64, high: f64, x: f64) -> bool
    ensures { result ≡ in_range low high x }
{
    let magnitude = numbers::kernel::abs(x);
    (x == 0.0) | ((low <= magnitude) & (magnitude <= high))
}

// Each of a list is. The tests are joined by `&`, with no branch between them.
#[tactic(auto, using(list_laws::proofs::BelowLaws::below_none, list_laws::proofs::BelowLaws::below_next), unfolding(crate::specs::Frequencies::are_in_range))]
pub fn all_in_range(low: f64, high: f64, xs: &[f64]) -> bool
    ensures { result ≡ are_in_range low high xs.now }
{
    let mut ok = true;
    for x in xs {
        ok &= in_range(low, high, *x);
    }
    ok
}

// Question 11, of frequencies.
pub fn frequencies_ok(frequencies: &[f64]) -> bool
    ensures { result ≡ are_frequencies frequencies.now }
{
    all_in_range(LEAST_FREQUENCY, GREATEST_FREQUENCY, frequencies)
}

// Question 11, of frequency points and of directly given vertices.
pub fn points_ok(points: &[f64]) -> bool
    ensures { result ≡ are_points points.now }
{
    all_in_range(LEAST_POINT, GREATEST_POINT, points)
}

// Question 11, of one point.
pub fn point_ok(x: f64) -> bool
    ensures { result ≡ is_point x }
{
    in_range(LEAST_POINT, GREATEST_POINT, x)
}
