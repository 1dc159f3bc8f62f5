// The count of a study's weights.
ghost use Rattle.std.specs.Prelude.{◌≡◌};
ghost use Rattle.study_counts.specs.Counts.{few_weights};

use triplet_types::TpType;

// Question 1, the count of weights.
#[tactic(auto, using(triplet_types::proofs::TypeLaws::given_laws), unfolding(crate::specs::Counts::few_weights))]
pub fn weight_count_ok(
    tp_type: i64,
    num_band1: i64,
    num_band2: i64,
    points: usize,
    triplets: usize,
) -> bool
    ensures { result ≡ few_weights tp_type num_band1 num_band2 points triplets }
{
    let Ok(tp) = TpType::try_from(tp_type) else {
        return true;
    };
    if !question_values::kernel::counts::counts_ok(num_band1, num_band2, points, triplets) {
        return true;
    }
    let channels = tp.num_channels();
    let bands = numbers::kernel::magnitude(num_band1) * numbers::kernel::magnitude(num_band2);
    channels * triplets * points * bands <= 4096
}
