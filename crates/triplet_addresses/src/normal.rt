// The sum of three tested addresses.
ghost use Rattle.std.specs.Prelude.{◌≡◌, true, ◌+◌, ◌*◌, ◌<◌, length};
ghost use Rattle.question_grids.specs.Grids.{triples_in};
ghost use Rattle.triplet_addresses.specs.Normal.{is_on_grid, component_sum, is_normal};

use numbers::kernel::{is_nat, magnitude};
use question_grids::Triples;
use question_grids::kernel::steps::grid_points_ok;

// Question 10, of one triplet.
pub fn on_grid(triplet: [i64; 3], p: usize) -> bool
    ensures { result ≡ is_on_grid p triplet }
{
    grid_points_ok(p, &triplet)
}

// Component i of the addresses of three points, added. They stay in the flat list that C lends.
fn component_sum(addresses: Triples, a: usize, b: usize, c: usize, i: usize) -> i64
    requires { (3 * a + i < length addresses.numbers.now) × ((3 * b + i < length addresses.numbers.now) × (3 * c + i < length addresses.numbers.now)) }
    ensures { result ≡ component_sum addresses.entry.numbers.now a b c i }
{
    addresses.numbers[3 * a + i] + addresses.numbers[3 * b + i] + addresses.numbers[3 * c + i]
}

// Whether the three addresses of a triplet add to zero in each component.
pub fn is_normal(triplet: [i64; 3], addresses: Triples) -> bool
    requires { is_on_grid (triples_in addresses.numbers.now) triplet ≡ true }
    ensures { result ≡ is_normal triplet addresses.entry.numbers.now }
{
    let a = magnitude(triplet[0]);
    let b = magnitude(triplet[1]);
    let c = magnitude(triplet[2]);
    (is_nat(component_sum(addresses, a, b, c, 0), 0)
        & is_nat(component_sum(addresses, a, b, c, 1), 0))
        & is_nat(component_sum(addresses, a, b, c, 2), 0)
}
