// A block of a square matrix, and the entries that averaging knows.
ghost use Rattle.std.specs.Prelude.{◌≡◌, ℕ, ◌+◌, ◌-◌, ◌*◌, ◌≤◌, ◌<◌, length};
ghost use Rattle.list_laws.specs.Lists.{part};
ghost use Rattle.degenerate_sets.specs.Averages.{Rule};
ghost use Rattle.degenerate_sets.specs.Turns.{Local};

// Rows `top` up to below `bottom`, columns `left` up to below `right` of a lent matrix of n rows of n entries.
#[derive(Drop)]
pub struct Block<'a, E> {
    pub matrix: &'a mut [E],
    pub n: usize,
    pub top: usize,
    pub bottom: usize,
    pub left: usize,
    pub right: usize,
    pub ghost square: { (length matrix.now ≡ n * n) × (n ≤ 64) },
    pub ghost rows: { (top ≤ bottom) × (bottom ≤ n) },
    pub ghost columns: { (left ≤ right) × (right ≤ n) },
}

impl<'a, E> Block<'a, E> {
    // The entries of its row r.
    pub fn row(&self, r: usize) -> &[E]
        requires { (self.now.top ≤ r) × (r < self.now.bottom) }
        ensures width { length result.now ≡ self.now.right - self.now.left }
        ensures entries { result.now ≡ part (r * self.now.n + self.now.left) (self.now.right - self.now.left) self.now.matrix.now }
    {
        let start = r * self.n;
        &self.matrix[start + self.left..start + self.right]
    }
}

// An entry of a matrix whose blocks are averaged.
pub trait Averaged: Copy {
    ghost use Rattle.averaging_walk.specs.Parts.{Becomes};

    // what is read past the end of a matrix
    ghost past_end: { Self };

    // what becomes of an entry, in its block
    ghost rule: { Rule Self };

    // What each entry of a block becomes, or none where each stays.
    fn block_value(block: &Block<'_, Self>) -> Option<Self>
        ensures { Becomes past_end (rule block.now.n) block.now result };

    // The rule looks at no entry outside the block.
    ghost local: { (n : ℕ) → Local past_end n (rule n) };
}
