// The main diagonals and their lengths.
ghost use Rattle.std.specs.Prelude.{◌≡◌, ◌<◌, get_or, []};
ghost use Rattle.relative_grid_address.specs.Diagonal.{main_diagonals, norm_squared, length_of, main_diagonal_of};

const MAIN_DIAGONALS: [[i64; 3]; 4] = [[1, 1, 1], [-1, 1, 1], [1, -1, 1], [1, 1, -1]];

#[tactic(auto, unfolding(crate::specs::Diagonal::main_diagonals))]
pub fn main_diagonal(i: usize) -> [i64; 3]
    requires { i < 4 }
    ensures { result ≡ get_or main_diagonals i [] }
{
    MAIN_DIAGONALS[i]
}

#[tactic(auto, unfolding(crate::specs::Diagonal::norm_squared))]
fn norm_squared(a: [f64; 3]) -> f64
    ensures { result ≡ norm_squared a }
{
    a[0] * a[0] + a[1] * a[1] + a[2] * a[2]
}

// The squared length of main diagonal i.
#[tactic(auto, unfolding(crate::specs::Diagonal::length_of))]
fn length_of(rec_lattice: [[f64; 3]; 3], i: usize) -> f64
    requires { i < 4 }
    ensures { result ≡ length_of rec_lattice i }
{
    norm_squared(common::kernel::matvec(rec_lattice, main_diagonal(i)))
}

// The shortest main diagonal, the first on a tie.
pub fn get_main_diagonal(rec_lattice: [[f64; 3]; 3]) -> usize
    ensures { result ≡ main_diagonal_of rec_lattice }
{
    let mut shortest = 0;
    let mut min_length = length_of(rec_lattice, 0);
    for i in 1..4 {
        let length = length_of(rec_lattice, i);
        if min_length > length {
            min_length = length;
            shortest = i;
        }
    }
    shortest
}
