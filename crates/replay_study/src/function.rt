// Which weight a record asks for.
ghost use Rattle.std.specs.Prelude.{◌≡◌, cond, eqb};
ghost use Rattle.tetrahedron_method.specs.declared.WeightFunction.TheVariants.{I, J};

use tetrahedron_method::WeightFunction;

// The weight that a stored number names: I by 0, J by any other. No From: the numbers are the records', not the type's own.
pub fn function_of(number: u64) -> WeightFunction
    ensures { result ≡ cond (eqb number 0) I J }
{
    match number {
        0 => WeightFunction::I,
        _ => WeightFunction::J,
    }
}
