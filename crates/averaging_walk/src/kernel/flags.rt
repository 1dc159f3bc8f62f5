// Flags: a block with any flag 0 becomes all 0.
ghost use Rattle.std.specs.Prelude.{◌≡◌, length, pos};
ghost use Rattle.averaging_flags.specs.Flags.{row_has_zero, flag_in};
ghost use Rattle.averaging_flags.proofs.FlagLaws.{flag-local};
ghost use Rattle.averaging_walk.specs.Parts.{part_has_zero};

use crate::kernel::block::{Averaged, Block};

// Whether one of a row's flags is 0.
fn row_has_zero(row: &[i8]) -> bool
    ensures { result ≡ row_has_zero row.now 0 (length row.now) }
{
    row.contains(&0)
}

// Whether one of a block's flags is 0. A loop: tried as `any`, and the proof did not close.
fn block_has_zero(block: &Block<'_, i8>) -> bool
    ensures { result ≡ part_has_zero block.now }
{
    for r in block.top..block.bottom {
        if row_has_zero(block.row(r)) {
            return true;
        }
    }
    false
}

impl Averaged for i8 {
    ghost past_end = { pos 0 };

    ghost rule = { flag_in };

    ghost local = { flag-local };

    fn block_value(block: &Block<'_, i8>) -> Option<i8> {
        if block_has_zero(block) {
            return Some(0);
        }
        None
    }
}
