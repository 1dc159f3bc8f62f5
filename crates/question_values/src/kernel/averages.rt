// Questions 17 and 19, which only the averaging asks.
ghost use Rattle.std.specs.Prelude.{◌≡◌, ◌<◌, length};
ghost use Rattle.ieee_laws.specs.Zeros.{is_negative_zero};
ghost use Rattle.question_values.specs.Averages.{is_degenerate_id, are_degenerate_ids, is_weight, are_weights};

use numbers::kernel;

// Whether the id at k is k or the id before it: the place is part of the test, and the first has no id before it.
fn id_ok(ids: &[i64], k: usize) -> bool
    requires { k < length ids.now }
    ensures { result ≡ is_degenerate_id ids.now k }
{
    if k == 0 {
        return kernel::is_nat(ids[0], 0);
    }
    kernel::is_nat(ids[k], k) | (ids[k] == ids[k - 1])
}

// Question 17, of one list.
#[tactic(auto, unfolding(crate::specs::Averages::are_degenerate_ids))]
pub fn degenerate_ids_ok(bands: usize, ids: &[i64]) -> bool
    ensures { result ≡ are_degenerate_ids bands ids.now }
{
    ids.len() == bands && (0..bands).all(|k| id_ok(ids, k))
}

// Whether x is -0.0: it equals zero, and its inverse lies below zero.
fn is_negative_zero(x: f64) -> bool
    ensures { result ≡ is_negative_zero x }
{
    (x == 0.0) & (1.0 / x < 0.0)
}

// Question 19, of one weight.
#[tactic(auto, unfolding(crate::specs::Averages::is_weight))]
fn weight_ok(x: f64) -> bool
    ensures { result ≡ is_weight x }
{
    (kernel::abs(x) <= 1152921504606846976.0) & !is_negative_zero(x)
}

// Question 19.
pub fn weights_ok(w: &[f64]) -> bool
    ensures { result ≡ are_weights w.now }
{
    w.iter().all(|&x| weight_ok(x))
}
