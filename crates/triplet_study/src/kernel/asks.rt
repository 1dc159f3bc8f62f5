// Questions 8 to 11 of a study.
ghost use Rattle.std.specs.Prelude.{◌≡◌, ◌<◌};
ghost use Rattle.ask.specs.Ask.{first_no};
ghost use Rattle.ask.specs.Refusals.{answer_of};
ghost use Rattle.triplet_study.specs.Lent.{study_of};
ghost use Rattle.triplet_study.specs.Questions.{are_triplets, hold_frequencies, are_study_frequencies, value_questions, values_asked};

use crate::Study;
use ask::Refusal;
use numbers::kernel::magnitude;
use question_grids::kernel::steps;
use question_values::kernel::{counts, frequencies};
use triplet_types::TpType;

// Question 10: whole triplets, of grid points among `p`.
fn triplets_ok(p: usize, triplets: &[i64]) -> bool
    ensures { result ≡ are_triplets p triplets.now }
{
    (triplets.len() % 3 == 0) & steps::grid_points_ok(p, triplets)
}

// Question 11, of frequencies: so many grid points times bands.
fn held_frequencies_ok(p: usize, bands: usize, frequencies: &[f64]) -> bool
    requires { 0 < bands }
    ensures { result ≡ hold_frequencies p bands frequencies.now }
{
    counts::length_ok(p, bands, frequencies.len()) & frequencies::frequencies_ok(frequencies)
}

// Question 11, of both lists of frequencies and the points.
fn study_frequencies_ok(
    p: usize,
    bands1: usize,
    bands2: usize,
    frequencies1: &[f64],
    frequencies2: &[f64],
    frequency_points: &[f64],
) -> bool
    requires { (0 < bands1) × (0 < bands2) }
    ensures { result ≡ are_study_frequencies p bands1 bands2 frequencies1.now frequencies2.now frequency_points.now }
{
    held_frequencies_ok(p, bands1, frequencies1)
        & held_frequencies_ok(p, bands2, frequencies2)
        & frequencies::points_ok(frequency_points)
}

// Questions 8 to 11 of a study's lists, on a grid of `p` addresses.
#[tactic(auto, using(crate::proofs::StudyLaws::counts_laws), unfolding(ask::specs::Ask::first_no))]
pub fn ask_values(study: Study, p: usize) -> Result<(), Refusal>
    ensures { result ≡ answer_of (first_no (values_asked p (study_of study.entry))) tt }
{
    let num_band1 = study.shape.num_band1;
    let num_band2 = study.shape.num_band2;
    TpType::try_from(study.shape.tp_type)?;
    let count = (study.triplets.len() + 2) / 3;
    if !counts::counts_ok(num_band1, num_band2, study.frequency_points.len(), count) {
        return Err(Refusal::Counts);
    }
    if !triplets_ok(p, study.triplets) {
        return Err(Refusal::GridPoints);
    }
    if !study_frequencies_ok(
        p,
        magnitude(num_band1),
        magnitude(num_band2),
        study.frequencies1,
        study.frequencies2,
        study.frequency_points,
    ) {
        return Err(Refusal::Frequencies);
    }
    Ok(())
}
