// Questions 9 and 12: counts, and lengths of lent buffers.
ghost use Rattle.std.specs.Prelude.{◌≡◌, ◌<◌, pos};
ghost use Rattle.question_values.specs.Counts.{is_band_count, is_point_count, is_triplet_count, are_counts, is_product};

use numbers::kernel;

// Question 9, of a band count.
#[tactic(auto, unfolding(crate::specs::Counts::is_band_count))]
pub fn band_count_ok(num_band: i64) -> bool
    ensures { result ≡ is_band_count num_band }
{
    kernel::is_between(1, 64, num_band)
}

// Question 9, of the count of frequency points.
pub fn point_count_ok(n: usize) -> bool
    ensures { result ≡ is_point_count n }
{
    (1 <= n) & (n <= 1024)
}

// Question 9, of the count of triplets or grid points.
pub fn triplet_count_ok(n: usize) -> bool
    ensures { result ≡ is_triplet_count n }
{
    n <= 65536
}

// Question 9, of all its counts: the last two are lengths.
#[tactic(auto, unfolding(crate::specs::Counts::are_counts))]
pub fn counts_ok(num_band1: i64, num_band2: i64, points: usize, many: usize) -> bool
    ensures { result ≡ are_counts num_band1 num_band2 (pos points) (pos many) }
{
    band_count_ok(num_band1)
        & band_count_ok(num_band2)
        & point_count_ok(points)
        & triplet_count_ok(many)
}

// The same, of any numbers.
pub fn signed_counts_ok(num_band1: i64, num_band2: i64, points: i64, many: i64) -> bool
    ensures { result ≡ are_counts num_band1 num_band2 points many }
{
    let n = kernel::magnitude(points);
    let m = kernel::magnitude(many);
    (0 <= points) & (0 <= many) & counts_ok(num_band1, num_band2, n, m)
}

// Question 12: `total` is `count` times `size`. The product itself could be too large.
#[tactic(auto, using(list_laws::proofs::ProductLaws::product_is), unfolding(crate::specs::Counts::is_product))]
pub fn length_ok(count: usize, size: usize, total: usize) -> bool
    requires { 0 < size }
    ensures { result ≡ is_product count size total }
{
    (total % size == 0) & (total / size == count)
}
