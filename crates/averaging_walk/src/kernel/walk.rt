// The averaging of matrices of flags or of weights in place, block by block.
ghost use Rattle.std.specs.Prelude.{◌≡◌, map, replicate, ◌*◌, ◌≤◌, length};
ghost use Rattle.list_laws.specs.Matrix.{Replaced, InBlock};
ghost use Rattle.degenerate_sets.specs.Blocks.{degenerate_set, sets_of, product};
ghost use Rattle.degenerate_sets.specs.Turns.{on_block, in_turn};
ghost use Rattle.degenerate_sets.specs.Averages.{blocks_in_turn, points_by};
ghost use Rattle.averaging_walk.specs.Parts.{IsSamePlace, part_of};

use crate::kernel::block::{Averaged, Block};
use degenerate_sets::kernel::sets::sets_of;
use std::ops::Range;

// Stores a value at each entry. A loop: tried as `fill`, and the proof did not close, since nothing says that the clone of an `E` cannot fail.
fn fill_row<E: Averaged>(row: &mut [E], value: E)
    ensures { row.new ≡ replicate (length row.old) value }
{
    for entry in row {
        *entry = value;
    }
}

impl<'a, E: Averaged> Block<'a, E> {
    // Stores a value at each entry.
    fn fill(&mut self, value: E)
        ensures place { IsSamePlace self.old self.new }
        ensures content { Replaced E.past_end self.old.n (InBlock (part_of self.old)) (λ r c. value) self.old.matrix.now self.new.matrix.now }
    {
        for r in self.top..self.bottom {
            let start = r * self.n;
            fill_row(
                &mut self.matrix[start + self.left..start + self.right],
                value,
            );
        }
    }

    // Averages the block.
    fn average(&mut self)
        ensures place { IsSamePlace self.old self.new }
        ensures content { self.new.matrix.now ≡ on_block self.old.n (E.rule self.old.n) self.old.matrix.now (part_of self.old) }
    {
        if let Some(value) = E::block_value(self) {
            self.fill(value);
        }
    }
}

// Averages the blocks of one set of rows, one set of columns after another.
fn average_rows<E: Averaged>(m: &mut [E], ids2: &[i64], rows: &Range<usize>)
    requires m_len { (length m.old ≡ length ids2.now * length ids2.now) × (length ids2.now ≤ 64) }
    requires rows_in { (rows.now.start ≤ rows.now.end) × (rows.now.end ≤ length ids2.now) }
    ensures { let n = length ids2.now in m.new
        ≡ in_turn n (E.rule n) (map (product (degenerate_set rows.now.start rows.now.end)) (sets_of n ids2.now)) m.old }
{
    for columns in sets_of(ids2) {
        let mut block = Block {
            matrix: &mut *m,
            n: ids2.len(),
            top: rows.start,
            bottom: rows.end,
            left: columns.start,
            right: columns.end,
        };
        block.average();
    }
}

// Averages a square matrix over the blocks of two id lists. They are two parameters, here and above: the library takes them so, and each is asked and
// read by itself.
fn average_matrix<E: Averaged>(m: &mut [E], ids1: &[i64], ids2: &[i64])
    requires m_len { (length m.old ≡ length ids1.now * length ids1.now) × (length ids1.now ≤ 64) }
    requires ids_len { length ids2.now ≡ length ids1.now }
    ensures { m.new ≡ blocks_in_turn E.rule (length ids1.now) ids1.now ids2.now m.old }
{
    for rows in sets_of(ids1) {
        average_rows(m, ids2, &rows);
    }
}

// Averages each of `points` matrices of bands by bands, over the blocks of two id lists. Parts by their index: behind a chunk that is lent, a proof
// knows its length alone. `bands` stands beside the lists: the callers' counts have it, and their contracts count with it.
pub fn average_points<E: Averaged>(
    m: &mut [E],
    ids1: &[i64],
    ids2: &[i64],
    bands: usize,
    points: usize,
)
    requires m_len { (length m.old ≡ points * (bands * bands)) × (bands ≤ 64) }
    requires ids1_len { (length ids1.now ≡ bands) × (length ids2.now ≡ bands) }
    ensures { m.new ≡ points_by E.rule bands ids1.now ids2.now points m.old }
{
    let size = bands * bands;
    for k in 0..points {
        let start = k * size;
        average_matrix(&mut m[start..start + size], ids1, ids2);
    }
}
