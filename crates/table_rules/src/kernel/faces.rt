// Question 24: the faces of a table's rows.
ghost use Rattle.std.specs.Prelude.{◌≡◌};
ghost use Rattle.table_rules.specs.Rows.{rows_of};
ghost use Rattle.table_rules.specs.Corners.{corners_of};
ghost use Rattle.table_rules.specs.Faces.{is_face, side, has_face, lies_above, lies_below, is_paired, is_row_paired, are_paired};

use crate::kernel::corners::{Corner, spanned};
use crate::kernel::rows::{Row, SmallTable};

// Corners p and q make the face a, b.
#[tactic(auto, unfolding(crate::specs::Faces::is_face))]
fn is_face(p: Corner, q: Corner, a: Corner, b: Corner) -> bool
    ensures { result ≡ is_face p.numbers q.numbers a.numbers b.numbers }
{
    (p.is_same(a) & q.is_same(b)) | (p.is_same(b) & q.is_same(a))
}

// The side of the face a, b on which a row lies, where it has this face.
fn side(row: Row, a: Corner, b: Corner) -> Option<i64>
    ensures { result ≡ side (corners_of row) a.numbers b.numbers }
{
    if is_face(row.first, row.second, a, b) {
        return Some(spanned(a, b, row.third));
    }
    if is_face(row.second, row.third, a, b) {
        return Some(spanned(a, b, row.first));
    }
    if is_face(row.third, row.first, a, b) {
        return Some(spanned(a, b, row.second));
    }
    None
}

// The row has the face, whose side is told.
fn has_face(side: Option<i64>) -> bool
    ensures { result ≡ has_face side }
{
    side.is_some()
}

// And lies on the one side of it.
fn lies_above(side: Option<i64>) -> bool
    ensures { result ≡ lies_above side }
{
    match side {
        None => false,
        Some(det) => 0 < det,
    }
}

// Or on the other.
fn lies_below(side: Option<i64>) -> bool
    ensures { result ≡ lies_below side }
{
    match side {
        None => false,
        Some(det) => det < 0,
    }
}

// Two rows have the face a, b, one on either side.
fn is_paired(table: SmallTable, a: Corner, b: Corner) -> bool
    ensures { result ≡ is_paired (rows_of table.entry.numbers.now) a.numbers b.numbers }
{
    let (mut having, mut above, mut below) = (0, 0, 0);
    for s in 0..24 {
        let side = side(table.row(s), a, b);
        having += usize::from(has_face(side));
        above += usize::from(lies_above(side));
        below += usize::from(lies_below(side));
    }
    (having == 2) & ((above == 1) & (below == 1))
}

// The same of the three faces of a row.
fn is_row_paired(table: SmallTable, row: Row) -> bool
    ensures { result ≡ is_row_paired (rows_of table.entry.numbers.now) (corners_of row) }
{
    is_paired(table, row.first, row.second)
        & (is_paired(table, row.second, row.third) & is_paired(table, row.third, row.first))
}

// Question 24.
pub fn faces_ok(table: SmallTable) -> bool
    ensures { result ≡ are_paired (rows_of table.entry.numbers.now) }
{
    let mut ok = true;
    for r in 0..24 {
        ok &= is_row_paired(table, table.row(r));
    }
    ok
}
