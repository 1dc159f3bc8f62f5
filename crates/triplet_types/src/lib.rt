// The type of a triplet: question 8, and how many output channels it has.

#![tactic(auto)]

ghost use Rattle.std.specs.Prelude.{◌≡◌};
ghost use Rattle.triplet_types.specs.Types.{tp_type_answer, channel_count};

use ask::Refusal;

pub mod kernel;

// What the weights are for.
#[derive(Clone, Copy, PartialEq, Eq, Debug)]
pub enum TpType {
    Type2,
    Type3,
    Type4,
}

impl TryFrom<i64> for TpType {
    type Error = Refusal;

    ghost try_from_gives = { λ tp_type r. r ≡ tp_type_answer tp_type };

    // The type that a number names. Question 8.
    #[tactic(auto, using(crate::proofs::TypeLaws::answer_laws))]
    fn try_from(tp_type: i64) -> Result<TpType, Refusal> {
        match tp_type {
            2 => Ok(TpType::Type2),
            3 => Ok(TpType::Type3),
            4 => Ok(TpType::Type4),
            _ => Err(Refusal::TpType),
        }
    }
}

impl TpType {
    // How many weights a triplet of the type has at a point of a band pair.
    pub fn num_channels(self) -> usize
        ensures { result ≡ channel_count self }
    {
        match self {
            TpType::Type2 => 2,
            TpType::Type3 => 3,
            TpType::Type4 => 1,
        }
    }
}
