// What the Rust has in tetrahedron_method.rs.
ghost use Rattle.std.specs.Prelude.{◌≡◌, ◌/◌, length};
ghost use Rattle.tetrahedron_tables.specs.Tables.{table_of, flat};
ghost use Rattle.relative_grid_address.specs.Diagonal.{main_diagonal_of};
ghost use Rattle.relative_grid_address.specs.Answer.{all_tables, lattice_questions};
ghost use Rattle.cell_tetrahedra.specs.Rows.{generated_tables};
ghost use Rattle.tetrahedron_method.specs.Answer.{weight_questions};
ghost use Rattle.tetrahedron_method.specs.Weight.{weight_of};
ghost use Rattle.ask.specs.Ask.{first_no, after_call};
ghost use Rattle.grid_point_weights.specs.Calls.{call_in};
ghost use Rattle.table_rules.specs.Questions.{table_questions};
ghost use Rattle.statuses.specs.Statuses.{function_of};
ghost use Rattle.pelmetsavory.specs.Calls.{CalledWeigh, CalledWeighChecked};

use crate::Grid;
use crate::grids::lent;
use ask::kernel::status_of;
use grid_point_weights::GridPointStudy;

// The parameters of the next two functions are the C interface: a struct in their place would be another version of it.

// The weights of each band at each frequency point, for each grid point; `letter` 'I' (73) asks for the density's weight, any other byte for
// that of the number of states, J. Questions 3 to 7, 9 to 12.
#[unsafe(no_mangle)]
pub extern "C" fn pelmetsavory_integration_weights_at_grid_points(
    iw: &mut [f64],
    frequency_points: &[f64],
    relative_grid_address: &[i64],
    grid_points: &[i64],
    frequencies: &[f64],
    num_band: i64,
    num_ir: i64,
    grid: Grid,
    addresses: &[i64],
    gp_map: &[i64],
    gp2irgp_map: &[i64],
    letter: u8,
) -> u64
    ensures { CalledWeigh (call_in frequency_points relative_grid_address grid_points frequencies num_band num_ir
        grid.bz_grid_type grid.d_diag addresses gp_map gp2irgp_map (function_of letter)) result iw.old iw.new }
{
    let study = GridPointStudy {
        grid: lent(grid, addresses, gp_map),
        relative_grid_address,
        gp2irgp_map,
        num_ir,
        num_band,
        frequencies,
        frequency_points,
        function: statuses::choice::function_of(letter),
    };
    status_of(grid_point_weights::integration_weights_at_grid_points(study, grid_points, iw))
}

// The weights at grid points as above under a table of the caller's, which must be one that `pelmetsavory_check_relative_grid_address`
// accepts. Questions 3 to 7, 23 to 25, 9 to 12.
#[unsafe(no_mangle)]
pub extern "C" fn pelmetsavory_checked_integration_weights_at_grid_points(
    iw: &mut [f64],
    frequency_points: &[f64],
    relative_grid_address: &[i64],
    grid_points: &[i64],
    frequencies: &[f64],
    num_band: i64,
    num_ir: i64,
    grid: Grid,
    addresses: &[i64],
    gp_map: &[i64],
    gp2irgp_map: &[i64],
    letter: u8,
) -> u64
    ensures { CalledWeighChecked (call_in frequency_points relative_grid_address grid_points frequencies num_band num_ir
        grid.bz_grid_type grid.d_diag addresses gp_map gp2irgp_map (function_of letter)) result iw.old iw.new }
{
    let study = GridPointStudy {
        grid: lent(grid, addresses, gp_map),
        relative_grid_address,
        gp2irgp_map,
        num_ir,
        num_band,
        frequencies,
        frequency_points,
        function: statuses::choice::function_of(letter),
    };
    status_of(customer_tables::checked_integration_weights_at_grid_points(study, grid_points, iw))
}

// Whether a table of the caller's is accepted: 24 rows of four corners of three small whole numbers, which close around the point without gap
// or overlap. Questions 7, 23, 24, 25.
#[unsafe(no_mangle)]
pub extern "C" fn pelmetsavory_check_relative_grid_address(relative_grid_address: &[i64]) -> u64
    ensures { result ≡ first_no (table_questions relative_grid_address.now) }
{
    status_of(customer_tables::check_relative_grid_address(relative_grid_address))
}

// The table whose main diagonal is shortest, the first on a tie, and its number behind `index`. The columns of `rec_lattice` are the edges of
// one cell of the mesh: column j is reciprocal basis vector j divided by mesh number j, as phono3py has it. A diagonal is `rec_lattice`
// times 1,1,1 or -1,1,1 or 1,-1,1 or 1,1,-1: the three columns added, none or one of them negated. Question 2.
#[unsafe(no_mangle)]
pub extern "C" fn pelmetsavory_relative_grid_address(
    rec_lattice: &[[f64; 3]; 3],
    table: &mut [i64; 288],
    index: &mut usize,
) -> u64
    ensures value { result ≡ first_no (lattice_questions rec_lattice.now) }
    ensures table_after { table.new ≡ after_call (first_no (lattice_questions rec_lattice.now))
        (flat (table_of (main_diagonal_of rec_lattice.now))) table.old }
    ensures index_after { index.new ≡ after_call (first_no (lattice_questions rec_lattice.now)) (main_diagonal_of rec_lattice.now) index.old }
{
    statuses::tetrahedra::relative_grid_address(rec_lattice, table, index)
}

// All four tables, one after the other.
#[unsafe(no_mangle)]
pub extern "C" fn pelmetsavory_all_relative_grid_address(all: &mut [i64; 1152])
    ensures { all.new ≡ all_tables }
{
    *all = relative_grid_address::all_relative_grid_address();
}

// All four tables, made from the main diagonals: the rows of those above, in an order of their own.
#[unsafe(no_mangle)]
pub extern "C" fn pelmetsavory_generated_relative_grid_address(all: &mut [i64; 1152])
    ensures { all.new ≡ generated_tables }
{
    *all = generated_tables::generated_relative_grid_address();
}

// One weight over directly given vertices, behind `weight`; `letter` 'I' (73) asks for the density's weight, any other byte for that of the
// number of states, J. Questions 7, 11.
#[unsafe(no_mangle)]
pub extern "C" fn pelmetsavory_tetrahedra_integration_weight(
    omega: f64,
    tetrahedra_omegas: &[f64],
    letter: u8,
    weight: &mut f64,
) -> u64
    ensures value { result ≡ first_no (weight_questions omega tetrahedra_omegas.now) }
    ensures weight_after { weight.new ≡ after_call (first_no (weight_questions omega tetrahedra_omegas.now))
        (weight_of (function_of letter) omega tetrahedra_omegas.now (length tetrahedra_omegas.now / 4)) weight.old }
{
    statuses::tetrahedra::integration_weight(omega, tetrahedra_omegas, letter, weight)
}
