// Reading a study, part by part.
ghost use Rattle.std.specs.Prelude.{◌+◌, ◌≤◌, ◌≡◌, length, IfSome};
ghost use Rattle.sections.specs.Left.{left};
ghost use Rattle.study.specs.Rooms.{HasRoom};
ghost use Rattle.study.specs.Studies.{floats_part, grid_part, study_in};
ghost use Rattle.study.specs.Told.{floats_within, grid_within, told_floats, told_floats_filled, told_grid, told_grid_filled, told_study, told_study_filled};

use crate::{
    FloatsBuffers, FloatsCounts, FloatsText, GridBuffers, GridCounts, GridText, HeldStudy,
    StudyBuffers, StudyCounts,
};
use sections::kernel::Lines;
use study_head::kernel::{ends_line, parse_head};

// The sections `addr` and `map`, which come next in a text: how many numbers, which are then at the starts of the buffers.
#[tactic(auto, using(crate::proofs::StudyLaws::grid_laws))]
pub fn fill_grid(lines: &mut Lines, addresses: &mut [i64], gp_map: &mut [i64]) -> Option<GridCounts>
    requires { (length lines.old.text.now + 3 ≤ length addresses.old) × (length lines.old.text.now + 1 ≤ length gp_map.old) }
    ensures grid { grid_part (left lines.old) ≡ told_grid_filled result addresses.new gp_map.new (left lines.new) }
    ensures within { IfSome result (λ c. grid_within c addresses.new gp_map.new) }
    ensures same { lines.new.text ≡ lines.old.text }
{
    let addresses = lines.fill_rows(b"addr", 3, addresses)?;
    let gp_map = lines.fill_rows(b"map", 1, gp_map)?;
    Some(GridCounts { addresses, gp_map })
}

// The same sections themselves, where they are then in the buffers.
pub fn parse_grid<'b>(lines: &mut Lines, buffers: GridBuffers<'b>) -> Option<GridText<'b>>
    requires { (length lines.old.text.now + 3 ≤ length buffers.addresses.now) × (length lines.old.text.now + 1 ≤ length buffers.gp_map.now) }
    ensures grid { grid_part (left lines.old) ≡ told_grid result (left lines.new) }
    ensures same { lines.new.text ≡ lines.old.text }
{
    let GridBuffers { addresses, gp_map } = buffers;
    let counts = fill_grid(lines, addresses, gp_map)?;
    Some(counts.cut(addresses, gp_map))
}

// The sections `f1`, `f2` and `point`, which come next in a text: how many floats, whose bits are then at the starts of the buffers.
#[tactic(auto, using(crate::proofs::StudyLaws::floats_laws))]
pub fn fill_floats(
    lines: &mut Lines,
    f1: &mut [u64],
    f2: &mut [u64],
    points: &mut [u64],
) -> Option<FloatsCounts>
    requires { (length lines.old.text.now + 1 ≤ length f1.old) × (length lines.old.text.now + 1 ≤ length f2.old) × (length lines.old.text.now + 1 ≤ length points.old) }
    ensures floats { floats_part (left lines.old) ≡ told_floats_filled result f1.new f2.new points.new (left lines.new) }
    ensures within { IfSome result (λ c. floats_within c f1.new f2.new points.new) }
    ensures same { lines.new.text ≡ lines.old.text }
{
    let f1 = lines.fill_rows(b"f1", 1, f1)?;
    let f2 = lines.fill_rows(b"f2", 1, f2)?;
    let points = lines.fill_rows(b"point", 1, points)?;
    Some(FloatsCounts { f1, f2, points })
}

// The same sections themselves, where they are then in the buffers.
pub fn parse_floats<'b>(lines: &mut Lines, buffers: FloatsBuffers<'b>) -> Option<FloatsText<'b>>
    requires { (length lines.old.text.now + 1 ≤ length buffers.f1.now) × (length lines.old.text.now + 1 ≤ length buffers.f2.now) × (length lines.old.text.now + 1 ≤ length buffers.points.now) }
    ensures floats { floats_part (left lines.old) ≡ told_floats result (left lines.new) }
    ensures same { lines.new.text ≡ lines.old.text }
{
    let FloatsBuffers { f1, f2, points } = buffers;
    let counts = fill_floats(lines, f1, f2, points)?;
    Some(counts.cut(f1, f2, points))
}

// The study that a text holds: its head and how many numbers each section has, which are then at the starts of the buffers.
#[tactic(auto, using(crate::proofs::StudyLaws::study_laws, list_laws::proofs::BoolLaws::yes_of, list_laws::proofs::BoolLaws::no_of))]
pub fn fill_study(
    text: &[u8],
    addresses: &mut [i64],
    gp_map: &mut [i64],
    f1: &mut [u64],
    f2: &mut [u64],
    points: &mut [u64],
    triplets: &mut [i64],
) -> Option<StudyCounts>
    requires { HasRoom (length addresses.old) (length gp_map.old) (length f1.old) (length f2.old) (length points.old) (length triplets.old) }
    ensures study { study_in text.now ≡ told_study_filled result addresses.new gp_map.new f1.new f2.new points.new triplets.new }
    ensures within { IfSome result (λ c. grid_within c.grid addresses.new gp_map.new × floats_within c.floats f1.new f2.new points.new × (c.triplets ≤ length triplets.new)) }
{
    if 16384 < text.len() || !ends_line(text) {
        return None;
    }
    let mut lines = Lines::new(text);
    let head = parse_head(&mut lines)?;
    let grid = fill_grid(&mut lines, addresses, gp_map)?;
    let floats = fill_floats(&mut lines, f1, f2, points)?;
    let triplets = lines.fill_rows(b"triplet", 3, triplets)?;
    if !lines.is_empty() {
        return None;
    }
    Some(StudyCounts {
        head,
        grid,
        floats,
        triplets,
    })
}

// The study itself, where its numbers are then in the buffers.
pub fn read_study<'b>(text: &[u8], buffers: StudyBuffers<'b>) -> Option<HeldStudy<'b>>
    ensures { study_in text.now ≡ told_study result }
{
    let StudyBuffers {
        grid,
        floats,
        triplets,
    } = buffers;
    let GridBuffers { addresses, gp_map } = grid;
    let FloatsBuffers { f1, f2, points } = floats;
    let counts = fill_study(text, addresses, gp_map, f1, f2, points, triplets)?;
    Some(HeldStudy {
        head: counts.head,
        grid: counts.grid.cut(addresses, gp_map),
        floats: counts.floats.cut(f1, f2, points),
        triplets: &triplets[..counts.triplets],
    })
}
