// Neighbour tables of the customer: whether one is accepted, and the weights at grid points under an accepted one.

#![tactic(auto)]

ghost use Rattle.std.specs.Prelude.{◌≡◌, length};
ghost use Rattle.ask.specs.Ask.{first_no};
ghost use Rattle.ask.specs.Refusals.{answer_of};
ghost use Rattle.grid_point_weights.specs.Calls.{call_of};
ghost use Rattle.table_rules.specs.Questions.{table_questions};
ghost use Rattle.customer_tables.specs.Calls.{checked_questions, DidWeighChecked};

pub use ask::Refusal;
use grid_point_weights::GridPointStudy;
use table_rules::kernel::rows::SmallTable;

// Whether a neighbour table is accepted. Questions 7, 23, 24, 25.
#[tactic(auto, unfolding(ask::specs::Ask::first_no))]
pub fn check_relative_grid_address(relative_grid_address: &[i64]) -> Result<(), Refusal>
    ensures { result ≡ answer_of (first_no (table_questions relative_grid_address.now)) tt }
{
    if !question_grids::kernel::tables::table_ok(relative_grid_address) {
        return Err(Refusal::Table);
    }
    if !table_rules::kernel::rows::unit_rows_ok(relative_grid_address) {
        return Err(Refusal::TableRows);
    }
    let table = SmallTable {
        numbers: relative_grid_address,
    };
    if !table_rules::kernel::faces::faces_ok(table) {
        return Err(Refusal::Faces);
    }
    if !table_rules::kernel::cones::cones_ok(table) {
        return Err(Refusal::Cones);
    }
    Ok(())
}

// Questions 3 to 7, 23 to 25 and 9 to 12.
fn ask_checked(study: GridPointStudy, grid_points: &[i64], iw: &[f64]) -> Result<(), Refusal>
    ensures { result ≡ answer_of (first_no (checked_questions (call_of study.entry grid_points.now) (length iw.now))) tt }
{
    question_grids::kernel::grid::ask_grid(study.grid)?;
    check_relative_grid_address(study.relative_grid_address)?;
    grid_point_weights::kernel::ask_rest(study, grid_points, iw)
}

// The integration weights at grid points under a table that is accepted. Questions 3, 4, 5, 6, 7, 23, 24, 25, 9, 10, 11, 12.
pub fn checked_integration_weights_at_grid_points(
    study: GridPointStudy,
    grid_points: &[i64],
    iw: &mut [f64],
) -> Result<(), Refusal>
    ensures { DidWeighChecked (call_of study.entry grid_points.now) result iw.old iw.new }
{
    ask_checked(study, grid_points, iw)?;
    grid_point_weights::kernel::weigh(study, grid_points, iw);
    Ok(())
}
