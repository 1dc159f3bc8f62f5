// The fields of a line by the type of their value.
ghost use Rattle.std.specs.Prelude.{◌≡◌, List, Option, ℕ};
ghost use Rattle.text.specs.Fields.{bits, whole};

use crate::kernel;

// A value that a field spells.
pub trait Field: Copy {
    // the value that a field's bytes spell, if they spell one
    ghost spelled: { List ℕ → Option Self };

    fn parse(field: &[u8]) -> Option<Self>
        ensures { result ≡ spelled field.now };
}

// A whole number in decimal.
impl Field for i64 {
    ghost spelled = { whole };

    fn parse(field: &[u8]) -> Option<i64> {
        kernel::parse_whole(field)
    }
}

// A float by its bits.
impl Field for u64 {
    ghost spelled = { bits };

    fn parse(field: &[u8]) -> Option<u64> {
        kernel::parse_bits(field)
    }
}
