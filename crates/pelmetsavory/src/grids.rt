// What the Rust has in bzgrid.rs, grgrid.rs and common.rs.
ghost use Rattle.std.specs.Prelude.{◌≡◌, pos};
ghost use Rattle.common.specs.Matrix.{matvec_of, matvec_questions};
ghost use Rattle.numbers.specs.Mesh.{mesh_of};
ghost use Rattle.grgrid.specs.Index.{address_of, grid_index};
ghost use Rattle.ask.specs.Ask.{first_no, after_call};
ghost use Rattle.bzgrid.specs.Calls.{around_in};
ghost use Rattle.statuses.specs.Statuses.{index_questions};
ghost use Rattle.pelmetsavory.specs.Calls.{lent_grid, CalledFind, CalledFindAll};

use crate::{Grid, Triple};
use ask::kernel::status_of;

// A grid as the calls of a grid take it.
pub(crate) fn lent<'a>(
    grid: Grid,
    addresses: &'a [i64],
    gp_map: &'a [i64],
) -> question_grids::Grid<'a>
    ensures { result ≡ lent_grid grid addresses.entry gp_map.entry }
{
    let d_diag = grid.d_diag;
    question_grids::Grid {
        bz_grid_type: grid.bz_grid_type,
        d_diag,
        addresses,
        gp_map,
    }
}

// The neighbours of one grid point. Questions 3 to 7, 10, 12.
#[unsafe(no_mangle)]
pub extern "C" fn pelmetsavory_fill_neighboring_grid_points(
    out: &mut [i64],
    grid_point: i64,
    relative_grid_address: &[i64],
    grid: Grid,
    addresses: &[i64],
    gp_map: &[i64],
) -> u64
    ensures { CalledFind (around_in grid.bz_grid_type grid.d_diag addresses gp_map relative_grid_address) grid_point result out.old out.new }
{
    let grid = lent(grid, addresses, gp_map);
    status_of(bzgrid::fill_neighboring_grid_points(out, grid_point, relative_grid_address, grid))
}

// The neighbours of many grid points, those of each in turn. Questions 3 to 7, 9, 10, 12.
#[unsafe(no_mangle)]
pub extern "C" fn pelmetsavory_neighboring_grid_points_many(
    out: &mut [i64],
    grid_points: &[i64],
    relative_grid_address: &[i64],
    grid: Grid,
    addresses: &[i64],
    gp_map: &[i64],
) -> u64
    ensures { CalledFindAll (around_in grid.bz_grid_type grid.d_diag addresses gp_map relative_grid_address) grid_points.now result out.old out.new }
{
    let grid = lent(grid, addresses, gp_map);
    status_of(bzgrid::neighboring_grid_points_many(out, grid_points, relative_grid_address, grid))
}

// The grid index of an address, behind `index`. Question 4, with mesh numbers from 1 to 256.
#[unsafe(no_mangle)]
pub extern "C" fn pelmetsavory_grid_index_from_address(
    address: Triple,
    d_diag: Triple,
    index: &mut i64,
) -> u64
    ensures value { result ≡ first_no (index_questions d_diag.numbers) }
    ensures index_after { index.new ≡ after_call (first_no (index_questions d_diag.numbers))
        (pos (grid_index (address_of address.numbers) (mesh_of d_diag.numbers))) index.old }
{
    let address = address.numbers;
    let d_diag = d_diag.numbers;
    statuses::grids::grid_index_from_address(address, d_diag, index)
}

// A lattice times a whole vector, behind `product`. Questions 2, 7.
#[unsafe(no_mangle)]
pub extern "C" fn pelmetsavory_matvec_di(
    a: &[[f64; 3]; 3],
    b: Triple,
    product: &mut [f64; 3],
) -> u64
    ensures value { result ≡ first_no (matvec_questions a.now b.numbers) }
    ensures product_after { product.new ≡ after_call (first_no (matvec_questions a.now b.numbers)) (matvec_of a.now b.numbers) product.old }
{
    let vector = b.numbers;
    statuses::grids::matvec_di(a, vector, product)
}
