// A call from its six numbers. The id lists of an averaging are parts of the ids, each by its start and its end.
ghost use Rattle.std.specs.Prelude.{◌≡◌, length};
ghost use Rattle.sheet_calls.specs.Calls.{is_part, ids_from, call_of};
ghost use Rattle.list_laws.specs.Lists.{at};
ghost use Rattle.sheet_calls.specs.Named.{call_named};

use crate::Call;
use numbers::kernel::is_nat;
use sheet_step::NamedPiece;

// Whether the ids have a part from `start` to `end`.
fn part_ok(ids: &[i64], start: i64, end: i64) -> bool
    ensures { result ≡ is_part ids.now start end }
{
    let s = numbers::kernel::magnitude(start);
    let e = numbers::kernel::magnitude(end);
    (0 <= start) & (0 <= end) & (s <= e) & (e <= ids.len())
}

// The ids from `start` to `end`, or none.
pub fn ids_from<'a>(ids: &'a [i64], start: i64, end: i64) -> &'a [i64]
    ensures { result.now ≡ ids_from ids.now start end }
{
    if part_ok(ids, start, end) {
        let s = numbers::kernel::magnitude(start);
        let e = numbers::kernel::magnitude(end);
        return &ids[s..e];
    }
    &ids[0..0]
}

// The call that six numbers encode.
pub fn call_of<'a>(numbers: &[i64], ids: &'a [i64]) -> Call<'a>
    requires { length numbers.now ≡ 6 }
    ensures { call_named result ≡ call_of ids.now (at numbers.now 0) (at numbers.now 1) (at numbers.now 2) (at numbers.now 3) (at numbers.now 4) (at numbers.now 5) }
{
    let kind = numbers[0];
    let a = numbers[1];
    let b = numbers[2];
    let c = numbers[3];
    let d = numbers[4];
    let e = numbers[5];
    if is_nat(kind, 0) {
        let piece = NamedPiece {
            triplet: b,
            b1: c,
            b2: d,
        };
        return Call::Run { worker: a, piece };
    }
    if is_nat(kind, 1) {
        return Call::CarryOn { worker: a };
    }
    Call::Average {
        triplet: a,
        ids1: ids_from(ids, b, c),
        ids2: ids_from(ids, d, e),
    }
}
