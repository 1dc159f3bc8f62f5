// The type that a tested number names.
ghost use Rattle.std.specs.Prelude.{◌≡◌};
ghost use Rattle.triplet_types.specs.Types.{tp_type_of};

use crate::TpType;

// The type of a number that has passed question 8; `try_from` would add a refusal that cannot come.
#[tactic(auto, using(crate::proofs::TypeLaws::type_laws))]
pub fn tp_type_of(tp_type: i64) -> TpType
    ensures { result ≡ tp_type_of tp_type }
{
    match tp_type {
        2 => TpType::Type2,
        3 => TpType::Type3,
        _ => TpType::Type4,
    }
}
