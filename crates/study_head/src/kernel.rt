// Reading the lines that stand once, and the end of a text.
ghost use Rattle.std.specs.Prelude.{◌≡◌};
ghost use Rattle.sections.specs.Left.{left};
ghost use Rattle.study_head.specs.Heads.{ends_line, head_from, head_part};
ghost use Rattle.study_head.specs.Told.{told_head};

use crate::Head;
use sections::kernel::Lines;

// The head that its four lines' numbers make.
fn head_of(grid: &[i64; 4], diag: &[i64; 1], tp_type: &[i64; 1], bands: &[i64; 2]) -> Head
    ensures { result ≡ head_from grid.now diag.now tp_type.now bands.now }
{
    Head {
        bz_grid_type: grid[0],
        d0: grid[1],
        d1: grid[2],
        d2: grid[3],
        diag: diag[0],
        tp_type: tp_type[0],
        num_band1: bands[0],
        num_band2: bands[1],
    }
}

// The lines that stand once, which come next in a text.
#[tactic(auto, unfolding(crate::specs::Heads::head_part))]
pub fn parse_head(lines: &mut Lines) -> Option<Head>
    ensures head { head_part (left lines.old) ≡ told_head result (left lines.new) }
    ensures same { lines.new.text ≡ lines.old.text }
{
    let mut grid = [0i64; 4];
    let mut diag = [0i64; 1];
    let mut tp_type = [0i64; 1];
    let mut bands = [0i64; 2];
    lines.one(b"grid", &mut grid)?;
    lines.one(b"diag", &mut diag)?;
    lines.one(b"type", &mut tp_type)?;
    lines.one(b"bands", &mut bands)?;
    if !numbers::kernel::is_between(0, 3, diag[0]) {
        return None;
    }
    Some(head_of(&grid, &diag, &tp_type, &bands))
}

// Whether a text ends with a newline.
#[tactic(auto, unfolding(crate::specs::Heads::ends_line))]
pub fn ends_line(text: &[u8]) -> bool
    ensures { result ≡ ends_line text.now }
{
    matches!(text, [.., b'\n'])
}
