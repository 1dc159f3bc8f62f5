// A sheet as it is listed.
ghost use Rattle.listing.specs.Listings.{IsListable};

// Its counts, its weights, by channel and then as the flags, and its flags.
#[derive(Clone, Copy)]
pub struct Sheet<'a> {
    pub points: usize,
    pub bands1: usize,
    pub bands2: usize,
    pub channels: usize,
    pub weights: &'a [f64],
    pub flags: &'a [i8],
    // each line has its numbers and its weights
    pub ghost listable: { IsListable points bands1 bands2 channels weights.now flags.now },
}
