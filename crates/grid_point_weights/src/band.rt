// The weights of one band around one grid point.
ghost use Rattle.std.specs.Prelude.{◌≡◌, ◌*◌, ◌<◌, length};
ghost use Rattle.std.specs.Float.{nan, binary64};
ghost use Rattle.std.specs.Float.Ieee.{of_bits};
ghost use Rattle.list_laws.specs.Lists.{area};
ghost use Rattle.list_laws.specs.Columns.{InColumn};
ghost use Rattle.list_laws.specs.Matrix.{Replaced};
ghost use Rattle.grid_point_weights.specs.Weights.{corner_frequency, Held, corner_weight};

use crate::tested::TestedStudy;
use tetrahedron_method::kernel::sorted;

// The frequencies of a band at the corners, at the start of a work area. `Held`, here and in `fill_band`, ties the corners to the
// study's frequencies and a band: a type for it would hold all three. triplet_values defines it too: that crate stands beside this one, not below.
// Its `fill_frequencies` is another loop: it clamps by a triplet's type, which grid points do not have.
fn vertex_frequencies(study: &TestedStudy, corners: &[usize; 384], band: usize) -> [f64; 384]
    requires { Held corners.now (study.now.rows.count * 4) (length study.now.lent.frequencies.now) study.now.bands band }
    ensures { result ≡ area 384 (study.now.rows.count * 4) (corner_frequency corners.now study.now.lent.frequencies.now study.now.bands band) (of_bits binary64 0) }
{
    let frequencies = study.lent.frequencies;
    let bands = study.bands;
    let mut vertices = [0.0; 384];
    for j in 0..study.rows.corners() {
        vertices[j] = frequencies[corners[j] * bands + band];
    }
    vertices
}

// The weights of a band at every frequency point: its column of the rows of bands.
pub fn fill_band(study: &TestedStudy, corners: &[usize; 384], band: usize, iw: &mut [f64])
    requires { (band < study.now.bands) × (Held corners.now (study.now.rows.count * 4) (length study.now.lent.frequencies.now) study.now.bands band × (length iw.old ≡ length study.now.lent.frequency_points.now * study.now.bands)) }
    ensures { Replaced nan study.now.bands (InColumn (length study.now.lent.frequency_points.now) band) (λ x b. corner_weight corners.now study.now.rows.count study.now.lent.frequencies.now study.now.bands study.now.lent.frequency_points.now study.now.lent.function x b) iw.old iw.new }
{
    let mut vertices = vertex_frequencies(study, corners, band);
    let rows = study.rows;
    let mut places = [0usize; 96];
    sorted::sort_rows(&mut vertices, &mut places, rows);
    let points = study.lent.frequency_points;
    let function = study.lent.function;
    let bands = study.bands;
    for x in 0..points.len() {
        let w = sorted::sorted_weight(function, points[x], &vertices, &places, rows);
        iw[x * bands + band] = w;
    }
}
