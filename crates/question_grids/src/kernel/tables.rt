// Question 7: the neighbour table.
ghost use Rattle.std.specs.Prelude.{◌≡◌};
ghost use Rattle.question_grids.specs.Tables.{is_table};

// Question 7, of a flat table: four corners of three numbers to a row.
#[tactic(auto, unfolding(crate::specs::Tables::is_table))]
pub fn table_ok(relative_grid_address: &[i64]) -> bool
    ensures { result ≡ is_table relative_grid_address.now }
{
    question_values::kernel::rows::rows_ok::<12>(relative_grid_address.len())
        & crate::kernel::grid::triples_ok(relative_grid_address)
}
