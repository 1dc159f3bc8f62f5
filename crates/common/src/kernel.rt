// The tests of a lattice and of a vector, and their product.
ghost use Rattle.std.specs.Prelude.{◌≡◌, true, ◌<◌};
ghost use Rattle.std.specs.Float.Ieee.{of_int};
ghost use Rattle.std.specs.Float.{binary64};
ghost use Rattle.list_laws.specs.Lists.{at};
ghost use Rattle.common.specs.Matrix.{is_lattice_entry, is_lattice_row, is_lattice, is_vector, row_times, matvec_of};

use numbers::kernel::{abs, is_within};

// Finite, and of magnitude at most 2^30.
#[tactic(auto, unfolding(crate::specs::Matrix::is_lattice_entry))]
fn lattice_entry_ok(x: f64) -> bool
    ensures { result ≡ is_lattice_entry x }
{
    abs(x) <= 1073741824.0
}

#[tactic(auto, unfolding(crate::specs::Matrix::is_lattice_row))]
fn lattice_row_ok(row: [f64; 3]) -> bool
    ensures { result ≡ is_lattice_row row }
{
    lattice_entry_ok(row[0]) & lattice_entry_ok(row[1]) & lattice_entry_ok(row[2])
}

// Question 2.
#[tactic(auto, unfolding(crate::specs::Matrix::is_lattice))]
pub fn lattice_ok(a: [[f64; 3]; 3]) -> bool
    ensures { result ≡ is_lattice a }
{
    lattice_row_ok(a[0]) & lattice_row_ok(a[1]) & lattice_row_ok(a[2])
}

// Question 7, of a vector.
#[tactic(auto, unfolding(crate::specs::Matrix::is_vector))]
pub fn vector_ok(b: [i64; 3]) -> bool
    ensures { result ≡ is_vector b }
{
    is_within(4096, b[0]) & is_within(4096, b[1]) & is_within(4096, b[2])
}

// One row of the lattice times a tested vector.
#[tactic(auto, unfolding(crate::specs::Matrix::row_times))]
fn row_times(row: [f64; 3], b: [i64; 3]) -> f64
    requires { is_vector b ≡ true }
    ensures { result ≡ row_times row b }
{
    row[0] * b[0] as f64 + row[1] * b[1] as f64 + row[2] * b[2] as f64
}

// Float matrix times a tested integer vector.
#[tactic(auto, unfolding(crate::specs::Matrix::matvec_of))]
pub fn matvec(a: [[f64; 3]; 3], b: [i64; 3]) -> [f64; 3]
    requires { is_vector b ≡ true }
    ensures { result ≡ matvec_of a b }
{
    [row_times(a[0], b), row_times(a[1], b), row_times(a[2], b)]
}
