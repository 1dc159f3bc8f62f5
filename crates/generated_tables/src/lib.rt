// The four neighbour tables made from the four main diagonals of the cell.

#![tactic(auto)]

ghost use Rattle.std.specs.Prelude.{◌≡◌};
ghost use Rattle.cell_tetrahedra.specs.Rows.{generated_tables};

mod kernel;

// All four tables, one after the other: 24 rows for each main diagonal, in the order of the ways and of the places that lie at zero.
pub fn generated_relative_grid_address() -> [i64; 1152]
    ensures { result ≡ generated_tables }
{
    std::array::from_fn(|i| kernel::number(i))
}
