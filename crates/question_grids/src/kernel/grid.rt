// Questions 3 to 6: the grid kind, the mesh, the addresses and the map.
ghost use Rattle.std.specs.Prelude.{◌≡◌, ◌+◌, ◌<◌, length, ◌-◌};
ghost use Rattle.std.specs.Int.Signed.{lt_z};
ghost use Rattle.list_laws.specs.Lists.{all_below, at};
ghost use Rattle.list_laws.specs.Signed.{within};
ghost use Rattle.ask.specs.Ask.{first_no};
ghost use Rattle.ask.specs.Refusals.{answer_of};
ghost use Rattle.question_grids.specs.Grids.{is_grid_kind, is_mesh, are_triples, are_addresses, is_place, is_sparse_map, is_dense_map, is_map, grid_questions, questions_on};

use crate::Grid;
use ask::Refusal;
use numbers::kernel;

// Question 3.
#[tactic(auto, unfolding(crate::specs::Grids::is_grid_kind))]
pub fn grid_kind_ok(bz_grid_type: i64) -> bool
    ensures { result ≡ is_grid_kind bz_grid_type }
{
    kernel::is_nat(bz_grid_type, 1) | kernel::is_nat(bz_grid_type, 2)
}

// Question 4: each mesh number from 1 to `top`.
#[tactic(auto, unfolding(crate::specs::Grids::is_mesh))]
pub fn mesh_ok(top: usize, d_diag: [i64; 3]) -> bool
    ensures { result ≡ is_mesh top d_diag }
{
    kernel::is_between(1, top, d_diag[0])
        & kernel::is_between(1, top, d_diag[1])
        & kernel::is_between(1, top, d_diag[2])
}

// The tests of a whole list are joined by `&`, with no branch between them: `all`, which stops at the first no, costs half as much again where the answer is yes.
// Each has its own loop: of one that is handed its test, a contract would have to name the test a second time.

// Components within ±4,096.
#[tactic(auto, using(list_laws::proofs::BelowLaws::below_none, list_laws::proofs::BelowLaws::below_next))]
fn all_small(xs: &[i64]) -> bool
    ensures { result ≡ all_below (length xs.now) (λ k. within 4096 (at xs.now k)) }
{
    let mut ok = true;
    for x in xs {
        ok &= kernel::is_within(4096, *x);
    }
    ok
}

// Whole triples with components within ±4,096.
#[tactic(auto, unfolding(crate::specs::Grids::are_triples))]
pub fn triples_ok(xs: &[i64]) -> bool
    ensures { result ≡ are_triples xs.now }
{
    (xs.len() % 3 == 0) & all_small(xs)
}

// Question 5, of a mesh of `n` points: p at most 8 n, said by a division, since 8 n could be too large.
#[tactic(auto, using(crate::proofs::GridLaws::eighths), unfolding(crate::specs::Grids::are_addresses))]
pub fn addresses_ok(n: usize, addresses: &[i64]) -> bool
    ensures { result ≡ are_addresses n addresses.now }
{
    let p = addresses.len() / 3;
    triples_ok(addresses) & (n <= p) & ((p + 7) / 8 <= n)
}

// A value of the map of kind 1, of `p` addresses: one of them, or `missing`.
#[tactic(auto, unfolding(crate::specs::Grids::is_place))]
fn place_ok(p: usize, missing: usize, v: i64) -> bool
    ensures { result ≡ is_place p missing v }
{
    kernel::is_below(v, p) | kernel::is_nat(v, missing)
}

// Each is such a value.
#[tactic(auto, using(list_laws::proofs::BelowLaws::below_none, list_laws::proofs::BelowLaws::below_next))]
fn all_places(p: usize, missing: usize, values: &[i64]) -> bool
    ensures { result ≡ all_below (length values.now) (λ k. is_place p missing (at values.now k)) }
{
    let mut ok = true;
    for v in values {
        ok &= place_ok(p, missing, *v);
    }
    ok
}

// Question 6, kind 1.
#[tactic(auto, unfolding(crate::specs::Grids::is_sparse_map))]
fn sparse_map_ok(n: usize, p: usize, gp_map: &[i64]) -> bool
    ensures { result ≡ is_sparse_map n p gp_map.now }
{
    n <= gp_map.len() / 8 && all_places(p, 8 * n, &gp_map[..8 * n])
}

// Each value but the last is below the next.
#[tactic(auto, using(list_laws::proofs::BelowLaws::below_none, list_laws::proofs::BelowLaws::below_next))]
fn all_rising(xs: &[i64]) -> bool
    requires { 0 < length xs.now }
    ensures { result ≡ all_below (length xs.now - 1) (λ k. lt_z (at xs.now k) (at xs.now (k + 1))) }
{
    let mut ok = true;
    for k in 0..xs.len() - 1 {
        ok &= xs[k] < xs[k + 1];
    }
    ok
}

// Question 6, kind 2.
fn dense_map_ok(n: usize, p: usize, gp_map: &[i64]) -> bool
    ensures { result ≡ is_dense_map n p gp_map.now }
{
    n < gp_map.len()
        && kernel::is_nat(gp_map[0], 0)
            & kernel::is_nat(gp_map[n], p)
            & all_rising(&gp_map[..n + 1])
}

// Question 6.
#[tactic(auto, unfolding(crate::specs::Grids::is_map))]
pub fn map_ok(bz_grid_type: i64, n: usize, p: usize, gp_map: &[i64]) -> bool
    ensures { result ≡ is_map bz_grid_type n p gp_map.now }
{
    if kernel::is_nat(bz_grid_type, 1) {
        sparse_map_ok(n, p, gp_map)
    } else {
        dense_map_ok(n, p, gp_map)
    }
}

// Questions 3 to 6, of every call on a grid.
#[tactic(auto, using(crate::proofs::GridLaws::mesh_laws), unfolding(ask::specs::Ask::first_no))]
pub fn ask_grid(grid: Grid) -> Result<(), Refusal>
    ensures { result ≡ answer_of (first_no (questions_on grid.entry)) tt }
{
    if !grid_kind_ok(grid.bz_grid_type) {
        return Err(Refusal::GridKind);
    }
    let d_diag = grid.d_diag;
    if !mesh_ok(128, d_diag) {
        return Err(Refusal::Mesh);
    }
    let n = kernel::mesh_count(kernel::mesh_of(d_diag));
    if !addresses_ok(n, grid.addresses) {
        return Err(Refusal::Addresses);
    }
    if !map_ok(grid.bz_grid_type, n, grid.addresses.len() / 3, grid.gp_map) {
        return Err(Refusal::Map);
    }
    Ok(())
}
