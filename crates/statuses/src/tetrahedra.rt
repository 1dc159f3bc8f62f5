// What the Rust has in tetrahedron_method.rs.
ghost use Rattle.std.specs.Prelude.{◌≡◌, ◌/◌, length};
ghost use Rattle.ask.specs.Ask.{first_no, after_call};
ghost use Rattle.tetrahedron_tables.specs.Tables.{table_of, flat};
ghost use Rattle.relative_grid_address.specs.Diagonal.{main_diagonal_of};
ghost use Rattle.relative_grid_address.specs.Answer.{lattice_questions};
ghost use Rattle.tetrahedron_method.specs.Answer.{weight_questions};
ghost use Rattle.tetrahedron_method.specs.Weight.{weight_of};
ghost use Rattle.statuses.specs.Statuses.{function_of};

use crate::choice;
use crate::store::store;

// The table whose main diagonal is shortest, the first on a tie, and its number behind `index`. The columns of `rec_lattice` are the edges of
// one cell of the mesh: column j is reciprocal basis vector j divided by mesh number j, as phono3py has it. A diagonal is `rec_lattice`
// times 1,1,1 or -1,1,1 or 1,-1,1 or 1,1,-1: the three columns added, none or one of them negated. Question 2.
pub fn relative_grid_address(
    rec_lattice: &[[f64; 3]; 3],
    table: &mut [i64; 288],
    index: &mut usize,
) -> u64
    ensures value { result ≡ first_no (lattice_questions rec_lattice.now) }
    ensures table_after { table.new ≡ after_call (first_no (lattice_questions rec_lattice.now))
        (flat (table_of (main_diagonal_of rec_lattice.now))) table.old }
    ensures index_after { index.new ≡ after_call (first_no (lattice_questions rec_lattice.now)) (main_diagonal_of rec_lattice.now) index.old }
{
    let lattice = *rec_lattice;
    // written out: the answer goes behind two references, and `store` has one
    match relative_grid_address::relative_grid_address(lattice) {
        Ok(chosen) => {
            let numbers = chosen.numbers;
            *table = numbers;
            *index = chosen.index;
            0
        }
        Err(why) => why.number(),
    }
}

// One weight over directly given vertices, behind `weight`; `letter` 'I' (73) asks for the density's weight, any other byte for that of the
// number of states, J. Questions 7, 11.
pub fn integration_weight(
    omega: f64,
    tetrahedra_omegas: &[f64],
    letter: u8,
    weight: &mut f64,
) -> u64
    ensures value { result ≡ first_no (weight_questions omega tetrahedra_omegas.now) }
    ensures weight_after { weight.new ≡ after_call (first_no (weight_questions omega tetrahedra_omegas.now))
        (weight_of (function_of letter) omega tetrahedra_omegas.now (length tetrahedra_omegas.now / 4)) weight.old }
{
    let function = choice::function_of(letter);
    store(
        tetrahedron_method::integration_weight(omega, tetrahedra_omegas, function),
        weight,
    )
}
