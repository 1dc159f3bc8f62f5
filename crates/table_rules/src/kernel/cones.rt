// Question 25: the cones of a table's rows.
ghost use Rattle.std.specs.Prelude.{◌≡◌};
ghost use Rattle.table_rules.specs.Rows.{rows_of};
ghost use Rattle.table_rules.specs.Corners.{corners_of};
ghost use Rattle.table_rules.specs.Cones.{is_one_sign, is_inside, is_in_one};

use crate::kernel::corners::{Corner, spanned};
use crate::kernel::rows::{Row, SmallTable};

// Both above 0, or both below.
#[tactic(auto, unfolding(crate::specs::Cones::is_one_sign))]
fn is_one_sign(a: i64, b: i64) -> bool
    ensures { result ≡ is_one_sign a b }
{
    ((0 < a) & (0 < b)) | ((a < 0) & (b < 0))
}

// The direction lies strictly inside the cone of a row.
fn is_inside(row: Row) -> bool
    ensures { result ≡ is_inside (corners_of row) }
{
    let direction = Corner {
        numbers: [1, 100, 10000],
    };
    let det = spanned(row.first, row.second, row.third);
    is_one_sign(det, spanned(direction, row.second, row.third))
        & (is_one_sign(det, spanned(row.first, direction, row.third))
            & is_one_sign(det, spanned(row.first, row.second, direction)))
}

// Question 25.
pub fn cones_ok(table: SmallTable) -> bool
    ensures { result ≡ is_in_one (rows_of table.entry.numbers.now) }
{
    let mut inside = 0;
    for r in 0..24 {
        inside += usize::from(is_inside(table.row(r)));
    }
    inside == 1
}
