// For the crates above, on a tested study.
ghost use Rattle.std.specs.Prelude.{◌≡◌, ◌+◌, ◌*◌, ◌<◌, length};
ghost use Rattle.triplet_study.specs.Lent.{study_of};
ghost use Rattle.triplet_corners.specs.Corners.{second_steps};
ghost use Rattle.triplet_study.specs.Tested.{Counted, Fitting};
ghost use Rattle.triplet_piece.specs.Layout.{channel_of, cell_weights, WritesPiece};
ghost use Rattle.triplet_piece.specs.Weights.{outputs_of_sorted};
ghost use Rattle.triplet_piece.specs.Pieces.{AreCornersOf, IsPiece, IsHeld, number_of, outputs_of_piece};

use crate::{Corners, Piece, WorkAreas};
use question_grids::Triples;
use tetrahedron_sort::Rows;
use triplet_channels::Channels;
use triplet_channels::kernel::{further_rows, prepare_channel};
use triplet_corners::kernel::fill_corner_numbers;
use triplet_outputs::Outputs;
use triplet_study::{CountedStudy, TestedSteps, TestedStudy};
use triplet_values::kernel::fill_frequencies;
use triplet_values::{Band, Combination, CornerCount};

// Looks up the corners of triplet `t`, whose number is a clause (triplet_iw says why); `second` is the second copy of the steps, beside
// the study for the reason in triplet_iw's `fill_tested`.
#[tactic(auto, using(crate::proofs::CornersLaws::point_in, crate::proofs::CornersLaws::copy_triples, crate::proofs::CornersLaws::copy_few))]
pub fn fill_corners(corners: &mut Corners, tested: &TestedStudy, second: &[i64], t: usize)
    requires copied { second.now ≡ second_steps tested.now.sizes.tp tested.now.study.relative_grid_address.now }
    requires t_in_bounds { t < tested.now.sizes.triplets }
    ensures { AreCornersOf (study_of tested.now.study) t corners.new }
{
    let triplets = tested.study.triplets;
    let g1 = numbers::kernel::magnitude_at(triplets, 3 * t + 1);
    let g2 = numbers::kernel::magnitude_at(triplets, 3 * t + 2);
    let grid = tested.grid();
    let copy = TestedSteps {
        triples: Triples { numbers: second },
    };
    fill_corner_numbers(&mut corners.first, grid, tested.steps(), g1);
    fill_corner_numbers(&mut corners.second, grid, copy, g2);
}

// The weight of an output channel. No index: `Outputs` names its weights as the definitions do, and an array there would number them for
// this one reader.
#[tactic(auto, unfolding(crate::specs::Layout::channel_of))]
fn channel_of(o: Outputs, c: usize) -> f64
    ensures { result ≡ channel_of o c }
{
    if c == 0 {
        return o.w0;
    }
    if c == 1 {
        return o.w1;
    }
    o.w2
}

// The weights of a cell, in every channel. The counts stand beside the slice: a type of all three would serve this one call.
fn put_weights(weights: &mut [f64], cells: usize, channels: usize, cell: usize, o: Outputs)
    requires { (cell < cells) × (length weights.old ≡ channels * cells) }
    ensures { weights.new ≡ cell_weights cells cell o weights.old }
{
    for c in 0..channels {
        weights[c * cells + cell] = channel_of(o, c);
    }
}

// The outputs of the band pair `pair` of triplet `t` at every point, of channels that are ready. Why `Fitting` is a clause: see
// `fill_piece`; why `t` is: see triplet_iw.
fn fill_points(
    weights: &mut [f64],
    flags: &mut [i8],
    study: &CountedStudy,
    t: usize,
    pair: usize,
    channels: &Channels,
)
    requires fits { Fitting study.now.sizes (length study.now.frequency_points.now) (length weights.old) (length flags.old) }
    requires on_study { (t < study.now.sizes.triplets) × (pair < study.now.sizes.pairs) }
    ensures { WritesPiece study.now.sizes (t * study.now.sizes.pairs + pair)
        (outputs_of_sorted study.now.sizes study.now.frequency_points.now channels.now)
        weights flags }
{
    let z = study.sizes;
    let points = study.frequency_points;
    let rows = Rows { count: z.rows };
    for x in 0..z.points {
        let cell = (t * z.points + x) * z.pairs + pair;
        let o = triplet_channels::kernel::outputs_at(z.tp, points[x], channels, rows);
        put_weights(weights, z.cells, z.channels, cell, o);
        let flag = o.flag;
        flags[cell] = flag;
    }
}

// The frequencies of the piece's bands at the corners, and its channels made ready: each row is put in order once, and type 4
// makes the first channel alone.
fn prepare(areas: &mut WorkAreas, study: &CountedStudy, corners: &Corners, piece: Piece)
    requires held { IsHeld study.now.sizes study.now.frequencies1.now study.now.frequencies2.now corners.now piece }
    ensures { (x : _) → outputs_of_sorted study.now.sizes study.now.frequency_points.now areas.new.channels x ≡ outputs_of_piece study.now.sizes study.now.frequencies1.now study.now.frequencies2.now study.now.frequency_points.now corners.now piece x }
{
    let tp = study.sizes.tp;
    let rows = Rows {
        count: study.sizes.rows,
    };
    let band1 = Band {
        frequencies: study.frequencies1,
        bands: study.sizes.bands1,
        band: piece.b1,
    };
    let band2 = Band {
        frequencies: study.frequencies2,
        bands: study.sizes.bands2,
        band: piece.b2,
    };
    let n = CornerCount {
        count: rows.corners(),
    };
    fill_frequencies(&mut areas.frequencies1, tp, &corners.first, n, band1);
    fill_frequencies(&mut areas.frequencies2, tp, &corners.second, n, band2);
    let f1 = &areas.frequencies1;
    let f2 = &areas.frequencies2;
    let further = Rows {
        count: further_rows(tp, rows.count),
    };
    prepare_channel(
        &mut areas.channels.first,
        Combination::SecondLessFirst,
        f1,
        f2,
        rows,
    );
    prepare_channel(
        &mut areas.channels.second,
        Combination::FirstLessSecond,
        f1,
        f2,
        further,
    );
    prepare_channel(&mut areas.channels.third, Combination::Sum, f1, f2, further);
}

// Writes a piece: its weights in every channel and its flag, at every point. Its corners and the work areas are lent.
// `Fitting` is a clause: the counts, the points and the lent buffers come from three places, and a type of all would be made for each call.
pub fn fill_piece(
    areas: &mut WorkAreas,
    weights: &mut [f64],
    flags: &mut [i8],
    study: &CountedStudy,
    corners: &Corners,
    piece: Piece,
)
    requires fits { Fitting study.now.sizes (length study.now.frequency_points.now) (length weights.old) (length flags.old) }
    requires on_study { IsPiece study.now.sizes piece }
    requires held { IsHeld study.now.sizes study.now.frequencies1.now study.now.frequencies2.now corners.now piece }
    ensures { WritesPiece study.now.sizes (number_of study.now.sizes piece) (outputs_of_piece study.now.sizes study.now.frequencies1.now study.now.frequencies2.now study.now.frequency_points.now corners.now piece) weights flags }
{
    prepare(areas, study, corners, piece);
    let pair = piece.b1 * study.sizes.bands2 + piece.b2;
    fill_points(weights, flags, study, piece.triplet, pair, &areas.channels);
}
