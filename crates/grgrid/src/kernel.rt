// The grid index, for mesh numbers that are tested.
ghost use Rattle.std.specs.Prelude.{◌≡◌};
ghost use Rattle.numbers.specs.Mesh.{MeshWithin};
ghost use Rattle.grgrid.specs.Index.{grid_index};

use numbers::kernel::rem_euclid;
use numbers::{Address, Mesh};

// The grid index of an address. The bound of the mesh: `mesh_count` says why.
#[tactic(auto, using(crate::proofs::IndexLaws::index_laws), unfolding(crate::specs::Index::grid_index, numbers::specs::Mesh::count_of))]
pub fn grid_index(a: Address, m: Mesh) -> usize
    requires { MeshWithin 256 m }
    ensures { result ≡ grid_index a m }
{
    let r0 = rem_euclid(a.x, m.d0);
    let r1 = rem_euclid(a.y, m.d1);
    let r2 = rem_euclid(a.z, m.d2);
    r2 * (m.d0 * m.d1) + r1 * m.d0 + r0
}
