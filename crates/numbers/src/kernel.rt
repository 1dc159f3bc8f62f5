// Helpers for the crates above.
ghost use Rattle.std.specs.Prelude.{◌≡◌, ◌<◌, length};
ghost use Rattle.std.specs.Int.Signed.{mag};
ghost use Rattle.list_laws.specs.Lists.{at};
ghost use Rattle.list_laws.specs.Signed.{eq_z, is_nat, is_below, is_between, within, rem_euclid};
ghost use Rattle.ieee_laws.specs.Magnitude.{absolute};
ghost use Rattle.numbers.specs.Mesh.{mesh_of, count_of, MeshWithin};

use crate::Mesh;

// ---- signed numbers

// The magnitude of `z` where it is not negative, and one less than its magnitude where it is, as `mag` of the definitions: std's `unsigned_abs` gives one more at each negative number.
pub fn magnitude(z: i64) -> usize
    ensures { result ≡ mag z }
{
    if 0 <= z {
        z as usize
    } else {
        (-1 - z) as usize
    }
}

pub fn is_nat(z: i64, n: usize) -> bool
    ensures { result ≡ is_nat z n }
{
    let k = magnitude(z);
    (0 <= z) & (k == n)
}

pub fn is_below(z: i64, n: usize) -> bool
    ensures { result ≡ is_below z n }
{
    let k = magnitude(z);
    (0 <= z) & (k < n)
}

pub fn is_between(low: usize, high: usize, z: i64) -> bool
    ensures { result ≡ is_between low high z }
{
    let k = magnitude(z);
    (0 <= z) & (low <= k) & (k <= high)
}

pub fn is_within(n: usize, z: i64) -> bool
    ensures { result ≡ within n z }
{
    z.unsigned_abs() <= n as u64
}

// The remainder of `a` by `m` that is never negative, by an unsigned division: std's `rem_euclid` divides signed numbers, and takes no `usize`.
pub fn rem_euclid(a: i64, m: usize) -> usize
    requires { 0 < m }
    ensures { result ≡ rem_euclid a m }
{
    let k = magnitude(a);
    if 0 <= a { k % m } else { (m - 1) - k % m }
}

// ---- an element of a slice

// An element that is read is a number of the machine: here it is shown once to be the number of the list, and not by each of the callers.
pub fn magnitude_at(xs: &[i64], k: usize) -> usize
    requires { k < length xs.now }
    ensures { result ≡ mag (at xs.now k) }
{
    magnitude(xs[k])
}

// Whether an element is z. That `==` of two numbers of the machine is `eq_z` of the list's number is shown here, apart from the loop that asks it.
pub fn equal_at(xs: &[i64], k: usize, z: i64) -> bool
    requires { k < length xs.now }
    ensures { result ≡ eq_z (at xs.now k) z }
{
    xs[k] == z
}

// ---- the mesh numbers

// The mesh numbers as unsigned numbers.
pub fn mesh_of(d_diag: [i64; 3]) -> Mesh
    ensures { result ≡ mesh_of d_diag }
{
    Mesh {
        d0: magnitude(d_diag[0]),
        d1: magnitude(d_diag[1]),
        d2: magnitude(d_diag[2]),
    }
}

// N, the product of the mesh numbers. Their bound is no field of `Mesh`: it is 256 or 128 by the use, and the definitions make a mesh of numbers that no
// question has passed.
pub fn mesh_count(m: Mesh) -> usize
    requires { MeshWithin 256 m }
    ensures { result ≡ count_of m }
{
    m.d2 * (m.d0 * m.d1)
}

// ---- floats

// The magnitude of x. std's promises a float with its sign cleared: that this is `absolute` of the definitions is proved once here, and not by each caller.
pub fn abs(x: f64) -> f64
    ensures { result ≡ absolute x }
{
    x.abs()
}
