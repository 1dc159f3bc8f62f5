// Weights: the mean of each block of more than one entry.
ghost use Rattle.std.specs.Prelude.{◌≡◌, length};
ghost use Rattle.std.specs.Float.{nan};
ghost use Rattle.ieee_laws.specs.Zeros.{plus_zero};
ghost use Rattle.averaging_blocks.specs.Weights.{row_sum, averaged_in};
ghost use Rattle.averaging_blocks.proofs.WeightLaws.{averaged-local};
ghost use Rattle.averaging_walk.specs.Parts.{part_sum};

use crate::kernel::block::{Averaged, Block};

// The sum of a row's weights, left to right.
fn row_sum(row: &[f64]) -> f64
    ensures { result ≡ row_sum plus_zero row.now 0 (length row.now) }
{
    let mut sum = 0.0;
    for weight in row {
        sum = sum + *weight;
    }
    sum
}

// The sum of the row sums of a block.
fn block_sum(block: &Block<'_, f64>) -> f64
    ensures { result ≡ part_sum block.now }
{
    let mut sum = 0.0;
    for r in block.top..block.bottom {
        sum = sum + row_sum(block.row(r));
    }
    sum
}

impl Averaged for f64 {
    ghost past_end = { nan };

    ghost rule = { averaged_in plus_zero };

    ghost local = { averaged-local plus_zero };

    fn block_value(block: &Block<'_, f64>) -> Option<f64> {
        let count = (block.bottom - block.top) * (block.right - block.left);
        if 1 < count {
            return Some(block_sum(block) / (count as f64));
        }
        None
    }
}
