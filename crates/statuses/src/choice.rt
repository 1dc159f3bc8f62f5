// What a letter of a foreign caller stands for.
ghost use Rattle.std.specs.Prelude.{◌≡◌};
ghost use Rattle.statuses.specs.Statuses.{function_of};

use tetrahedron_method::WeightFunction;

// The weight that a letter names: I, or J by any other byte, so that there is nothing to refuse.
#[tactic(auto, unfolding(crate::specs::Statuses::function_of))]
pub fn function_of(letter: u8) -> WeightFunction
    ensures { result ≡ function_of letter }
{
    if letter == b'I' {
        WeightFunction::I
    } else {
        WeightFunction::J
    }
}
