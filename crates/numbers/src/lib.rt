// The leaves that turn a signed number into a bool or an unsigned number once, and the mesh numbers.

#![tactic(auto)]

ghost use Rattle.std.specs.Prelude.{◌≡◌};
ghost use Rattle.list_laws.specs.Lists.{at};

pub mod kernel;

// Three mesh numbers, tested.
#[derive(Clone, Copy)]
pub struct Mesh {
    pub d0: usize,
    pub d1: usize,
    pub d2: usize,
}

// A grid address.
#[derive(Clone, Copy)]
pub struct Address {
    pub x: i64,
    pub y: i64,
    pub z: i64,
}

impl From<[i64; 3]> for Address {
    ghost from_gives = { λ a address. (address.x ≡ at a 0) × ((address.y ≡ at a 1) × (address.z ≡ at a 2)) };

    fn from(components: [i64; 3]) -> Self {
        Address {
            x: components[0],
            y: components[1],
            z: components[2],
        }
    }
}
