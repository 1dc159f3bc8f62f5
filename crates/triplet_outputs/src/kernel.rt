// Whether a channel is open, and the outputs of three channels.
ghost use Rattle.std.specs.Prelude.{◌≡◌};
ghost use Rattle.triplet_outputs.specs.Outputs.{holds, flag_of, outputs_by};

use crate::Outputs;
use triplet_types::TpType;
use triplet_values::ValueBox;

// Whether a point lies in a box, ends included.
pub fn is_open(b: ValueBox, f0: f64) -> bool
    ensures { result ≡ holds b f0 }
{
    (b.fmin <= f0) & (f0 <= b.fmax)
}

// The flag is 1 when all channels are closed.
#[tactic(auto, using(crate::proofs::OptionLaws::closed_is, crate::proofs::OptionLaws::byte_is), unfolding(crate::specs::Outputs::flag_of))]
fn flag_of(c0: Option<f64>, c1: Option<f64>, c2: Option<f64>) -> i8
    ensures { result ≡ flag_of c0 c1 c2 }
{
    i8::from(c0.is_none() & c1.is_none() & c2.is_none())
}

// The outputs of three channels, by the type. A channel is closed, `None`, or open with its weight.
#[tactic(auto, using(crate::proofs::OptionLaws::value_is), unfolding(crate::specs::Outputs::outputs_by))]
pub fn combine_outputs(tp: TpType, c0: Option<f64>, c1: Option<f64>, c2: Option<f64>) -> Outputs
    ensures { result ≡ outputs_by tp c0 c1 c2 }
{
    let flag = flag_of(c0, c1, c2);
    let g0 = c0.unwrap_or(0.0);
    let g1 = c1.unwrap_or(0.0);
    let g2 = c2.unwrap_or(0.0);
    match tp {
        TpType::Type2 => Outputs {
            w0: g2,
            w1: g0 - g1,
            w2: 0.0,
            flag,
        },
        TpType::Type3 => Outputs {
            w0: g2,
            w1: g0 - g1,
            w2: (g0 + g1) + g2,
            flag,
        },
        TpType::Type4 => Outputs {
            w0: g0,
            w1: 0.0,
            w2: 0.0,
            flag,
        },
    }
}
