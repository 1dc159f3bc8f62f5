// The quotients that every formula is made of, the guard of a denominator, and the branch of omega, for the crates above.
ghost use Rattle.std.specs.Prelude.{◌≡◌};
ghost use Rattle.tetrahedron_fractions.specs.Branch.{branch_of};
ghost use Rattle.tetrahedron_fractions.specs.Fraction.{is_small, fraction, guarded};

const THM_EPSILON: f64 = 1e-10;

const MINUS_THM_EPSILON: f64 = -1e-10;

// Under 1e-10 in magnitude, by two comparisons: most often the first one tells.
#[tactic(auto, using(crate::proofs::FractionLaws::small_is))]
fn is_small(delta: f64) -> bool
    ensures { result ≡ is_small delta }
{
    if delta < THM_EPSILON {
        MINUS_THM_EPSILON < delta
    } else {
        false
    }
}

// (omega - m) / (n - m), or 0 where the difference is under 1e-10 in magnitude.
#[tactic(auto, unfolding(tetrahedron_paper::specs::Paper::fraction))]
pub fn _f(omega: f64, n: f64, m: f64) -> f64
    ensures { result ≡ fraction omega n m }
{
    let delta = n - m;
    if is_small(delta) {
        return 0.0;
    }
    (omega - m) / delta
}

// The value, or 0 where its denominator is under 1e-10.
pub fn guard(denominator: f64, value: f64) -> f64
    ensures { result ≡ guarded denominator value }
{
    if denominator < THM_EPSILON {
        0.0
    } else {
        value
    }
}

// The branch of omega among four sorted values. At a vertex it is the branch above. A number and no enum: the definitions and the theorems on the paper
// number the ranges, and each contract would turn an enum into that number.
#[tactic(auto, unfolding(crate::specs::Branch::branch_of))]
pub fn branch(omega: f64, v: [f64; 4]) -> usize
    ensures { result ≡ branch_of omega v }
{
    let [a, b, c, d] = v;
    if omega < a {
        0
    } else if omega < b {
        1
    } else if omega < c {
        2
    } else if omega < d {
        3
    } else {
        4
    }
}
