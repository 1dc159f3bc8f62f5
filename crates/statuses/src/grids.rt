// What the Rust has in grgrid.rs and common.rs.
ghost use Rattle.std.specs.Prelude.{◌≡◌, pos};
ghost use Rattle.ask.specs.Ask.{first_no, after_call};
ghost use Rattle.numbers.specs.Mesh.{mesh_of};
ghost use Rattle.common.specs.Matrix.{matvec_of, matvec_questions};
ghost use Rattle.grgrid.specs.Index.{address_of, grid_index};
ghost use Rattle.statuses.specs.Statuses.{index_questions};

use crate::store::store;

// The grid index of an address, behind `index`. Question 4, with mesh numbers from 1 to 256.
pub fn grid_index_from_address(address: [i64; 3], d_diag: [i64; 3], index: &mut i64) -> u64
    ensures value { result ≡ first_no (index_questions d_diag) }
    ensures index_after { index.new ≡ after_call (first_no (index_questions d_diag))
        (pos (grid_index (address_of address) (mesh_of d_diag))) index.old }
{
    store(grgrid::grid_index_from_address(address, d_diag), index)
}

// A lattice times a whole vector, behind `product`. Questions 2, 7.
pub fn matvec_di(a: &[[f64; 3]; 3], b: [i64; 3], product: &mut [f64; 3]) -> u64
    ensures value { result ≡ first_no (matvec_questions a.now b) }
    ensures product_after { product.new ≡ after_call (first_no (matvec_questions a.now b)) (matvec_of a.now b) product.old }
{
    let matrix = *a;
    store(common::matvec_di(matrix, b), product)
}
