// Marks, read through one accessor and written through one setter.
ghost use Rattle.std.specs.Prelude.{◌≡◌, ◌+◌, ◌*◌, ◌≤◌, ◌<◌, eqb};
ghost use Rattle.marks.specs.Bytes.{mark_at, patch_marks, places_in, bytes_for, IsMark, FewPieces, Holds};
ghost use Rattle.marks.specs.Marks.{is_mark_beside, are_marks, is_not_averaged, are_computed, open_pieces, averaged_marks};

// Numbers and no enum: marks lie in a lent sheet of bytes, which other languages read and write.

// The mark of an open piece.
pub const OPEN: u8 = 0;

// The mark of a computed piece.
pub const COMPUTED: u8 = 1;

// The mark of an averaged piece.
pub const AVERAGED: u8 = 2;

// How many bytes hold the marks of so many pieces.
pub fn bytes_for(pieces: usize) -> usize
    requires { FewPieces pieces }
    ensures { result ≡ bytes_for pieces }
{
    pieces
}

// The mark of piece `q`.
pub fn mark_at(marks: &[u8], q: usize) -> u8
    requires { q < places_in marks.now }
    ensures { result ≡ mark_at marks.now q }
{
    marks[q]
}

// Sets the mark of piece `q`.
pub fn set_mark(marks: &mut [u8], q: usize, mark: u8)
    requires { (q < places_in marks.old) × IsMark mark }
    ensures { marks.new ≡ patch_marks (λ p. eqb p q) (λ p. mark) marks.old }
{
    marks[q] = mark;
}

// Question 13, of a mark and of the first mark of its triplet.
fn mark_ok(mark: u8, first: u8) -> bool
    ensures { result ≡ is_mark_beside mark first }
{
    let averaged = mark == AVERAGED;
    let first_averaged = first == AVERAGED;
    (mark < 3) & ((averaged & first_averaged) | (!averaged & !first_averaged))
}

// Question 13. `pieces` stands beside the marks, and that they are those of so many pieces is a clause, here and above: they lie in bytes that other
// languages lend, how many bytes a mark takes is known in this crate alone, and a type of both would be made anew for each call.
pub fn marks_ok(pairs: usize, pieces: usize, marks: &[u8]) -> bool
    requires { (0 < pairs) × Holds pieces marks.now }
    ensures { result ≡ are_marks pairs pieces marks.now }
{
    let mut ok = true;
    for q in 0..pieces {
        let first = q / pairs * pairs;
        ok = ok & mark_ok(mark_at(marks, q), mark_at(marks, first));
    }
    ok
}

// Question 15.
pub fn not_averaged(pairs: usize, marks: &[u8], t: usize) -> bool
    requires { t * pairs < places_in marks.now }
    ensures { result ≡ is_not_averaged pairs marks.now t }
{
    mark_at(marks, t * pairs) != AVERAGED
}

// Question 18. Loops here and below, which go on to the end: as `all` of a chain this took many times as long where all are computed, and `filter` with
// `count` where open pieces and others are mixed.
pub fn all_computed(pairs: usize, marks: &[u8], t: usize) -> bool
    requires { t * pairs + pairs ≤ places_in marks.now }
    ensures { result ≡ are_computed pairs marks.now t }
{
    let base = t * pairs;
    let mut ok = true;
    for k in 0..pairs {
        ok = ok & (mark_at(marks, base + k) == COMPUTED);
    }
    ok
}

// How many pieces are open: so many beside the marks, as for question 13.
pub fn open_pieces(pieces: usize, marks: &[u8]) -> u64
    requires { Holds pieces marks.now }
    ensures { result ≡ open_pieces pieces marks.now }
{
    let mut count: u64 = 0;
    for q in 0..pieces {
        count = count + u64::from(mark_at(marks, q) == OPEN);
    }
    count
}

// A triplet's marks become 2.
pub fn average_marks(pairs: usize, marks: &mut [u8], t: usize)
    requires { (0 < pairs) × (t * pairs + pairs ≤ places_in marks.old) }
    ensures { marks.new ≡ averaged_marks pairs t marks.old }
{
    let base = t * pairs;
    for k in 0..pairs {
        set_mark(marks, base + k, AVERAGED);
    }
}
