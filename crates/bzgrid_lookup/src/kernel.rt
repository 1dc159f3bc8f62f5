// Neighbours on a tested grid.
ghost use Rattle.std.specs.Prelude.{◌≡◌, true, ◌+◌, ◌-◌, ◌*◌, ◌≤◌, ◌<◌, length};
ghost use Rattle.list_laws.specs.Lists.{first_at};
ghost use Rattle.numbers.specs.Mesh.{MeshWithin, count_of};
ghost use Rattle.question_grids.specs.Grids.{are_triples, triples_in, is_dense_map};
ghost use Rattle.bzgrid_lookup.specs.Neighbours.{grid_of, kind_of, is_address, sparse_neighbour, in_group, dense_neighbour, moved, wanted_address, neighbour_of, SoundGrid};

use crate::{BzGrid, GridKind};
use numbers::{Address, Mesh};
use question_grids::Triples;

pub mod tested;

// The kind that a tested number names; a `TryFrom` would add a refusal that cannot come.
#[tactic(auto, unfolding(crate::specs::Neighbours::kind_of))]
fn kind_of(bz_grid_type: i64) -> GridKind
    ensures { result ≡ kind_of bz_grid_type }
{
    if numbers::kernel::is_nat(bz_grid_type, 1) {
        GridKind::Sparse
    } else {
        GridKind::Dense
    }
}

// The grid of numbers that have passed questions 3 and 4.
#[tactic(auto, unfolding(crate::specs::Neighbours::grid_of))]
pub fn grid_of(bz_grid_type: i64, d_diag: [i64; 3]) -> BzGrid
    ensures { result ≡ grid_of bz_grid_type d_diag }
{
    BzGrid {
        kind: kind_of(bz_grid_type),
        mesh: numbers::kernel::mesh_of(d_diag),
    }
}

// Whether address number j is the wanted one. A derived equality would be no plainer: it needs an `Address` made of the three numbers first.
#[tactic(auto, unfolding(crate::specs::Neighbours::is_address))]
fn same_address(addresses: &[i64], j: usize, w: Address) -> bool
    requires { 3 * j + 2 < length addresses.now }
    ensures { result ≡ is_address addresses.now w j }
{
    (addresses[3 * j] == w.x) & (addresses[3 * j + 1] == w.y) & (addresses[3 * j + 2] == w.z)
}

// The first address from lo up to hi that is the wanted one, else lo. Both number addresses of the whole list, as the answer does: within a part of the
// list in their place the answer would count from the part's front, and lo be added again.
fn first_address(addresses: &[i64], lo: usize, hi: usize, w: Address) -> usize
    requires { 3 * hi ≤ length addresses.now }
    ensures { result ≡ first_at (is_address addresses.now w) lo (hi - lo) lo }
{
    (lo..hi)
        .find(|&k| same_address(addresses, k, w))
        .unwrap_or(lo)
}

// Kind 1: look up the address in the map on the doubled mesh; where it is missing, the grid index. The bound of the mesh: `mesh_count` says why.
#[tactic(auto, using(crate::proofs::NeighbourLaws::neighbour_laws), unfolding(crate::specs::Neighbours::sparse_neighbour, crate::specs::Neighbours::map_on_doubled))]
fn sparse_neighbour(m: Mesh, gp_map: &[i64], w: Address) -> usize
    requires { MeshWithin 128 m × (8 * count_of m ≤ length gp_map.now) }
    ensures { result ≡ sparse_neighbour m gp_map.now w }
{
    let bzmesh = Mesh {
        d0: 2 * m.d0,
        d1: 2 * m.d1,
        d2: 2 * m.d2,
    };
    let v = numbers::kernel::magnitude_at(gp_map, grgrid::kernel::grid_index(w, bzmesh));
    if v == 8 * numbers::kernel::mesh_count(m) {
        grgrid::kernel::grid_index(w, m)
    } else {
        v
    }
}

// Kind 2, of the group from lo up to hi: two numbers, as for `first_address`.
#[tactic(auto, unfolding(crate::specs::Neighbours::in_group))]
fn in_group(addresses: &[i64], w: Address, lo: usize, hi: usize) -> usize
    requires { (lo ≤ hi) × (3 * hi ≤ length addresses.now) }
    ensures { result ≡ in_group addresses.now w lo hi }
{
    if 1 < hi - lo {
        first_address(addresses, lo, hi, w)
    } else {
        lo
    }
}

// Kind 2: the group of the grid index. The bound of the mesh: `mesh_count` says why.
#[tactic(auto, unfolding(crate::specs::Neighbours::dense_neighbour))]
fn dense_neighbour(m: Mesh, addresses: &[i64], gp_map: &[i64], w: Address) -> usize
    requires { MeshWithin 128 m × (is_dense_map (count_of m) (triples_in addresses.now) gp_map.now ≡ true) }
    ensures { result ≡ dense_neighbour m addresses.now gp_map.now w }
{
    let g = grgrid::kernel::grid_index(w, m);
    let lo = numbers::kernel::magnitude_at(gp_map, g);
    let hi = numbers::kernel::magnitude_at(gp_map, g + 1);
    in_group(addresses, w, lo, hi)
}

// Component i of the address of point g, moved by step j.
fn moved_by(addresses: Triples, steps: Triples, g: usize, j: usize, i: usize) -> i64
    requires { (3 * g + i < length addresses.numbers.now) × (3 * j + i < length steps.numbers.now) }
    ensures { result ≡ moved addresses.entry.numbers.now steps.entry.numbers.now g j i }
{
    addresses.numbers[3 * g + i] + steps.numbers[3 * j + i]
}

// The address of point g, moved by step j.
#[tactic(auto, unfolding(crate::specs::Neighbours::wanted_address))]
fn wanted_address(addresses: Triples, steps: Triples, g: usize, j: usize) -> Address
    requires { (g < triples_in addresses.numbers.now) × (j < triples_in steps.numbers.now) }
    ensures { result ≡ wanted_address addresses.entry.numbers.now steps.entry.numbers.now g j }
{
    let x = moved_by(addresses, steps, g, j, 0);
    let y = moved_by(addresses, steps, g, j, 1);
    let z = moved_by(addresses, steps, g, j, 2);
    Address { x, y, z }
}

// The number of the grid point with the wanted address.
#[tactic(auto, using(question_grids::proofs::GridLaws::grid_laws), unfolding(crate::specs::Neighbours::neighbour_of))]
fn find_neighbour(grid: BzGrid, addresses: &[i64], gp_map: &[i64], w: Address) -> usize
    requires { SoundGrid grid addresses.now gp_map.now }
    ensures { result ≡ neighbour_of grid addresses.now gp_map.now w }
{
    let mesh = grid.mesh;
    match grid.kind {
        GridKind::Sparse => sparse_neighbour(mesh, gp_map, w),
        GridKind::Dense => dense_neighbour(mesh, addresses, gp_map, w),
    }
}

// The number of the neighbour of point g at step j.
#[tactic(auto, using(question_grids::proofs::GridLaws::grid_laws))]
pub fn neighbour(
    grid: BzGrid,
    addresses: &[i64],
    gp_map: &[i64],
    steps: &[i64],
    g: usize,
    j: usize,
) -> usize
    requires { SoundGrid grid addresses.now gp_map.now × ((are_triples steps.now ≡ true) × ((g < triples_in addresses.now) × (j < triples_in steps.now))) }
    ensures { result ≡ neighbour_of grid addresses.now gp_map.now (wanted_address addresses.now steps.now g j) }
{
    let w = wanted_address(
        Triples { numbers: addresses },
        Triples { numbers: steps },
        g,
        j,
    );
    find_neighbour(grid, addresses, gp_map, w)
}
