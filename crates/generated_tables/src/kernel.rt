// The numbers of the tables, each from its tetrahedron: the way numbered tetrahedron % 6 along the diagonal numbered tetrahedron / 6.
ghost use Rattle.std.specs.Prelude.{◌≡◌, [], ◌<◌, get_or, length};
ghost use Rattle.cell_tetrahedra.specs.Ways.{ways};
ghost use Rattle.generated_tables.specs.Numbers.{edge_along, place_of, number_of};

use relative_grid_address::kernel::main_diagonal;

// Which edge of a way goes along an axis: ways 0, 2 and 4 begin with axis way / 2 and take the others forwards, 1, 3 and 5 backwards.
#[tactic(auto, using(crate::proofs::NumberLaws::edge_forwards, crate::proofs::NumberLaws::edge_backwards))]
fn edge_along(way: usize, axis: usize) -> usize
    requires { (way < 6) × (axis < 3) }
    ensures { result ≡ edge_along (get_or ways way []) axis }
{
    if way % 2 == 0 {
        return (axis + 3 - way / 2) % 3;
    }
    (way / 2 + 3 - axis) % 3
}

// Component k of the place that is reached after n edges, 0 or 1: it changes with the edge along axis k, and begins with 1 where the
// diagonal falls.
fn place(tetrahedron: usize, n: usize, k: usize) -> i64
    requires { (tetrahedron < 24) × ((n < 4) × (k < 3)) }
    ensures { result ≡ place_of tetrahedron n k }
{
    let changed = edge_along(tetrahedron % 6, k) < n;
    let falls = main_diagonal(tetrahedron / 6)[k] < 0;
    i64::from(changed ^ falls)
}

// Number i of the tables.
#[tactic(auto, using(crate::proofs::NumberLaws::number_fits), unfolding(crate::specs::Numbers::number_of))]
pub fn number(i: usize) -> i64
    requires { i < 1152 }
    ensures { result ≡ number_of i }
{
    let tetrahedron = i / 48;
    let zero = i / 12 % 4;
    let corner = (zero + i / 3 % 4) % 4;
    place(tetrahedron, corner, i % 3) - place(tetrahedron, zero, i % 3)
}
