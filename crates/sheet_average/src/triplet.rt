// A triplet that is averaged.
ghost use Rattle.std.specs.Prelude.{◌≡◌, ◌<◌, length};

use triplet_study::CountedSizes;

// What a triplet is averaged by: the counts of its sheet, its number, and the degenerate ids of both lists of bands.
#[derive(Clone, Copy)]
pub struct TripletAverage<'a> {
    pub counts: CountedSizes,
    pub triplet: usize,
    pub degenerate_ids1: &'a [i64],
    pub degenerate_ids2: &'a [i64],
    // one of the sheet's, which has as many bands of the second point as of the third
    pub ghost on_sheet: { (triplet < counts.sizes.triplets) × (counts.sizes.bands1 ≡ counts.sizes.bands2) },
    // an id for each band
    pub ghost listed: { (length degenerate_ids1.now ≡ counts.sizes.bands1) × (length degenerate_ids2.now ≡ counts.sizes.bands1) },
}
