// What is counted and printed: the answers by kind of call, and the differences.
ghost use Rattle.std.specs.Prelude.{◌≡◌, cond, replicate};
ghost use Rattle.replay_report.specs.Report.{one_more};
ghost use Rattle.replay_sheet.specs.Counted.{counted};
ghost use Rattle.replay_sheet.specs.Kinds.{call_kind};

use replay_report::cases::one_more;
use replay_report::kinds::kind_of;
use std::fmt;
use thiserror::Error;

#[derive(Clone, Copy, Debug, PartialEq, Eq)]
pub enum CallKind {
    RunPiece,
    CarryOn,
    Average,
    OpenCount,
    Play,
}

// In the order in which they are printed.
const KINDS: [CallKind; 5] = [
    CallKind::RunPiece,
    CallKind::CarryOn,
    CallKind::Average,
    CallKind::OpenCount,
    CallKind::Play,
];

// A call whose kind is none of a list's.
#[derive(Clone, Copy, Debug, PartialEq, Eq, Drop, Error)]
#[error("no call is of kind {0}")]
pub struct UnknownCall(pub u64);

// The calls of a list; an open count is none of them.
const CALLS: [(u64, CallKind); 4] = [
    (1, CallKind::RunPiece),
    (2, CallKind::CarryOn),
    (3, CallKind::Average),
    (5, CallKind::Play),
];

impl TryFrom<u64> for CallKind {
    type Error = UnknownCall;

    ghost use Rattle.std.specs.Prelude.{Some, None, IfOk, IfErr};
    ghost use Rattle.replay_report.specs.Report.{kind_of};
    ghost use Rattle.replay_sheet.specs.declared.counts.TheConstants.{CALLS};

    ghost try_from_gives = { λ number r. IfOk r (λ kind. kind_of CALLS number ≡ Some kind) × IfErr r (λ no. (kind_of CALLS number ≡ None) × (no.0 ≡ number)) };

    fn try_from(number: u64) -> Result<Self, UnknownCall> {
        kind_of(&CALLS, number).ok_or(UnknownCall(number))
    }
}

impl CallKind {
    // The kind of a call of a list, whatever its number: that of an averaging where none of theirs has it; 4 is counted with the open counts.
    pub fn told(number: u64) -> CallKind
        ensures { result ≡ call_kind number }
    {
        if number == 4 {
            return CallKind::OpenCount;
        }
        kind_of(&CALLS, number).unwrap_or(CallKind::Average)
    }
}

impl fmt::Display for CallKind {
    fn fmt<W: fmt::Write>(&self, f: &mut fmt::Formatter<W>) -> fmt::Result {
        f.write_str(match self {
            CallKind::RunPiece => "run of a piece",
            CallKind::CarryOn => "carry on",
            CallKind::Average => "average of a triplet",
            CallKind::OpenCount => "open count",
            CallKind::Play => "list of calls",
        })
    }
}

// The answers of each kind of call by number, 0 where it is done, and how many differ from the stored ones.
#[derive(Clone, Copy, Debug)]
pub struct AnswerCounts {
    by_kind: [[u64; 30]; 5],
    pub differences: u64,
}

impl AnswerCounts {
    pub fn new() -> AnswerCounts
        ensures { (counted result ≡ replicate 5 (replicate 30 0)) × (result.differences ≡ 0) }
    {
        AnswerCounts {
            by_kind: [[0; 30]; 5],
            differences: 0,
        }
    }

    // One difference more, of an answer that has no place among the counted ones.
    pub fn add_difference(&mut self)
        ensures { self.new ≡ record self.old { differences = one_more self.old.differences } }
    {
        let more = one_more(self.differences);
        self.differences = more;
    }

    // One answer more; none where its own answers are not the stored ones, so that it differs. What becomes of by_kind the contract
    // does not say: an element that get_mut lent is not known to a proof afterwards.
    pub fn add(&mut self, kind: CallKind, number: Option<u64>, agrees: bool)
        ensures { self.new.differences ≡ cond agrees self.old.differences (one_more self.old.differences) }
    {
        if let Some(number) = number {
            if let Some(count) = self.by_kind[kind as usize].get_mut(number as usize) {
                *count = one_more(*count);
            }
        }
        if !agrees {
            self.differences = one_more(self.differences);
        }
    }
}

// The answers of a kind that occur.
fn write_kind<W: fmt::Write>(
    f: &mut fmt::Formatter<W>,
    kind: CallKind,
    counts: &[u64; 30],
) -> fmt::Result {
    for (number, count) in counts.iter().enumerate() {
        if *count == 0 {
            continue;
        }
        if number == 0 {
            writeln!(f, "{kind}\tdone\t{count}")?;
        } else {
            writeln!(f, "{kind}\trefused {number}\t{count}")?;
        }
    }
    Ok(())
}

// A line for each kind of call and answer, and the differences.
impl fmt::Display for AnswerCounts {
    fn fmt<W: fmt::Write>(&self, f: &mut fmt::Formatter<W>) -> fmt::Result {
        for (kind, counts) in KINDS.iter().zip(&self.by_kind) {
            write_kind(f, *kind, counts)?;
        }
        let differences = self.differences;
        write!(f, "differences\t{differences}")
    }
}
