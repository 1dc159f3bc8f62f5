// The numbers of kinds in the input. Each program has an enum of its records, their numbers as a table, and counts by name: an array of counts would be
// named by numbers.
ghost use Rattle.std.specs.Prelude.{◌≡◌, Some, None, IfOk, IfErr};
ghost use Rattle.replay_report.specs.Report.{kind_of};

use thiserror::Error;

// A record whose kind is none of the program's.
#[derive(Clone, Copy, Debug, PartialEq, Eq, Drop, Error)]
#[error("no record is of kind {0}")]
pub struct UnknownRecord(pub u64);

// The kind that a number names in a table of numbers and kinds.
pub fn kind_of<K: Copy>(kinds: &[(u64, K)], number: u64) -> Option<K>
    ensures { result ≡ kind_of kinds.now number }
{
    kinds
        .iter()
        .find(|pair| pair.0 == number)
        .map(|pair| pair.1)
}

// The same of a record.
pub fn record_of<K: Copy>(kinds: &[(u64, K)], number: u64) -> Result<K, UnknownRecord>
    ensures named { IfOk result (λ kind. kind_of kinds.now number ≡ Some kind) }
    ensures unknown { IfErr result (λ no. (kind_of kinds.now number ≡ None) × (no.0 ≡ number)) }
{
    kind_of(kinds, number).ok_or(UnknownRecord(number))
}
