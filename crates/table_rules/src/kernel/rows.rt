// Question 23: the rows of a table.
ghost use Rattle.std.specs.Prelude.{◌≡◌, true, ◌<◌, length};
ghost use Rattle.list_laws.specs.Lists.{all_below, at};
ghost use Rattle.list_laws.specs.Signed.{within};
ghost use Rattle.tetrahedron_tables.specs.Tables.{row_ok};
ghost use Rattle.table_rules.specs.Rows.{corner_at, row_at, are_small, are_unit_rows};
ghost use Rattle.table_rules.specs.Corners.{corners_of};

use crate::kernel::corners::{Corner, spanned};

// The four corners of a row.
#[derive(Clone, Copy)]
pub struct Row {
    pub zero: Corner,
    pub first: Corner,
    pub second: Corner,
    pub third: Corner,
}

// A table of 24 rows with components within ±2.
#[derive(Clone, Copy)]
pub struct SmallTable<'a> {
    pub numbers: &'a [i64],
    pub ghost sized: { length numbers.now ≡ 288 },
    pub ghost small: { are_small numbers.now ≡ true },
}

impl<'a> SmallTable<'a> {
    // Corner j, counted through all rows.
    fn corner(self, j: usize) -> Corner
        requires { j < 96 }
        ensures { result.numbers ≡ corner_at self.entry.numbers.now j }
    {
        let table = self.numbers;
        Corner {
            numbers: [table[j * 3], table[j * 3 + 1], table[j * 3 + 2]],
        }
    }

    // Row r.
    pub fn row(self, r: usize) -> Row
        requires { r < 24 }
        ensures { corners_of result ≡ row_at self.entry.numbers.now r }
    {
        Row {
            zero: self.corner(r * 4),
            first: self.corner(r * 4 + 1),
            second: self.corner(r * 4 + 2),
            third: self.corner(r * 4 + 3),
        }
    }
}

// Components within ±2.
#[tactic(auto, using(list_laws::proofs::BelowLaws::below_none, list_laws::proofs::BelowLaws::below_next))]
fn are_small(table: &[i64]) -> bool
    ensures { result ≡ all_below (length table.now) (λ k. within 2 (at table.now k)) }
{
    let mut ok = true;
    for x in table {
        ok &= numbers::kernel::is_within(2, *x);
    }
    ok
}

// The rule of a row.
fn row_ok(row: Row) -> bool
    ensures { result ≡ row_ok (corners_of row) }
{
    let zero = row.zero;
    let det = spanned(row.first, row.second, row.third);
    (zero.component(0) == 0)
        & ((zero.component(1) == 0) & (zero.component(2) == 0))
        & ((det == 1) | (det == -1))
}

// The rule of each row.
fn rows_ok(table: SmallTable) -> bool
    ensures { result ≡ all_below 24 (λ r. row_ok (row_at table.entry.numbers.now r)) }
{
    let mut ok = true;
    for r in 0..24 {
        ok &= row_ok(table.row(r));
    }
    ok
}

// Question 23. The components come first: with any others a determinant could be too large.
pub fn unit_rows_ok(table: &[i64]) -> bool
    ensures { result ≡ are_unit_rows table.now }
{
    if table.len() != 288 {
        return false;
    }
    if !are_small(table) {
        return false;
    }
    rows_ok(SmallTable { numbers: table })
}
