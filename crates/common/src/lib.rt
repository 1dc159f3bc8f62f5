// A lattice, question 2, and its product with a whole vector.

#![tactic(auto)]

ghost use Rattle.std.specs.Prelude.{◌≡◌};
ghost use Rattle.common.specs.Matrix.{matvec_answer};

pub use ask::Refusal;

pub mod kernel;

// Float matrix times integer vector. Questions 2, 7.
#[tactic(auto, unfolding(crate::specs::Matrix::matvec_answer, ask::specs::Ask::first_no))]
pub fn matvec_di(a: [[f64; 3]; 3], b: [i64; 3]) -> Result<[f64; 3], Refusal>
    ensures { result ≡ matvec_answer a b }
{
    if !kernel::lattice_ok(a) {
        return Err(Refusal::Lattice);
    }
    if !kernel::vector_ok(b) {
        return Err(Refusal::Table);
    }
    Ok(kernel::matvec(a, b))
}
