// The calls on a sheet.
ghost use Rattle.std.specs.Prelude.{◌≡◌, ◌/◌, min, length, IfOk};
ghost use Rattle.replay_input.specs.Fields.{count_at, after_count};
ghost use Rattle.ask.specs.Refusals.{number_of};
ghost use Rattle.sheet_tally.specs.Tallies.{runs_after};
ghost use Rattle.triplet_study.specs.Lent.{study_of};
ghost use Rattle.sheet_step.specs.Lent.{sheet_of, SameBuffers};
ghost use Rattle.sheet_play.specs.Outcomes.{outcome};
ghost use Rattle.replay_calls.specs.Calls.{IsAverage, IsPlayWithin, IsRun, IsCall, IsCallWithin, SaysSame, Makes, answers_of, wholes_at, after_wholes};

use replay_input::kernel::at_most;
use replay_input::reader::{Reader, length_within};
use replay_sheet::content::Sheet;
use replay_sheet::counts::CallKind;
use replay_study::owned::next_list;
use sheet::{NamedPiece, Refusal, SheetMut, Study, Tally};
use sheet_list::Calls;
use std::alloc::{AllocError, Global};

// A call, what it names, and the lists that it lends; a kind more than the calls of a list have, and lists that can be its own. A list of calls has its numbers, the lists of ids, and how many answers it has.
#[derive(Clone, Copy, Drop)]
pub enum Call<L> {
    RunPiece { worker: i64, piece: NamedPiece },
    CarryOn { worker: i64 },
    Average { triplet: i64, ids1: L, ids2: L },
    Play { list: L, ids: L, answers: usize },
}

#[tactic(auto, unfolding(crate::specs::Calls::IsRun))]
fn next_run<L: Drop>(reader: &mut Reader<'_>) -> Call<L>
    ensures same_text { reader.new.text ≡ reader.old.text }
    ensures run { IsRun reader.old.text.now reader.old.at result reader.new.at }
{
    let worker = reader.next_whole();
    let triplet = reader.next_whole();
    let b1 = reader.next_whole();
    let b2 = reader.next_whole();
    let piece = NamedPiece { triplet, b1, b2 };
    Call::RunPiece { worker, piece }
}

#[tactic(auto, unfolding(crate::specs::Calls::IsAverage, replay_study::specs::Records::list_at))]
fn next_average(reader: &mut Reader<'_>, alloc: Global) -> Result<Call<Vec<i64>>, AllocError>
    ensures same_text { reader.new.text ≡ reader.old.text }
    ensures average { IfOk result (λ call. IsAverage (λ ids. ids.items) (λ ids. ids.items) (length reader.old.text.now) (length reader.old.text.now) reader.old.text.now reader.old.at call reader.new.at) }
{
    let triplet = reader.next_whole();
    let ids1 = next_list(reader, alloc)?;
    let ids2 = next_list(reader, alloc)?;
    Ok(Call::Average {
        triplet,
        ids1,
        ids2,
    })
}

// The most answers of a list of calls that a text has room for: each has sixteen counts and a number in it.
fn answers_of_text(reader: &Reader<'_>) -> usize
    ensures { result ≡ length reader.now.text.now / 16 }
{
    reader.text.len() / 16
}

#[tactic(auto, unfolding(crate::specs::Calls::IsPlayWithin, replay_study::specs::Records::list_at))]
fn next_played(reader: &mut Reader<'_>, alloc: Global) -> Result<Call<Vec<i64>>, AllocError>
    ensures same_text { reader.new.text ≡ reader.old.text }
    ensures play { IfOk result (λ call. IsPlayWithin (λ list. list.items) (λ ids. ids.items) (length reader.old.text.now) (length reader.old.text.now) (length reader.old.text.now / 16) reader.old.text.now reader.old.at call reader.new.at) }
{
    let most_answers = answers_of_text(reader);
    let list = next_list(reader, alloc)?;
    let ids = next_list(reader, alloc)?;
    let answers = at_most(reader.next_count(), most_answers);
    Ok(Call::Play { list, ids, answers })
}

// A list to the start of a lent room, cut to it.
// Beside `fill_list`, which gives the count: a call lends the part that is filled.
#[tactic(auto, unfolding(replay_study::specs::Records::after_list))]
fn list_in<'b>(reader: &mut Reader<'_>, room: &'b mut [i64]) -> &'b [i64]
    ensures text { reader.new ≡ record reader.old { at = after_wholes reader.old.text.now (length room.old) reader.old.at } }
    ensures list { result.now ≡ wholes_at reader.old.text.now (length room.old) reader.old.at }
{
    let count = length_within(reader.next_count(), room);
    let part = &mut room[..count];
    reader.fill(part);
    part
}

// What a call names: worker, triplet and bands of a run, the worker of a carry-on, the triplet of an averaging; then its lists, each to the
// start of a lent room and cut to it, and no more answers of a list of calls than its caller has room for.
// Beside `next_call`, which takes memory and can fail for want of it: this one cannot.
#[tactic(auto, unfolding(crate::specs::Calls::IsCallWithin, crate::specs::Calls::IsCarryOn, crate::specs::Calls::IsAverage, crate::specs::Calls::IsPlayWithin))]
pub fn read_call_within<'b>(
    reader: &mut Reader<'_>,
    kind: CallKind,
    first: &'b mut [i64],
    second: &'b mut [i64],
    most_answers: usize,
) -> Call<&'b [i64]>
    ensures same_text { reader.new.text ≡ reader.old.text }
    ensures call { IsCallWithin (λ list. list.now) (λ ids. ids.now) (length first.old) (length second.old) most_answers kind reader.old.text.now reader.old.at result reader.new.at }
{
    // kind is an enum: CallKind::told gives one for every number
    match kind {
        CallKind::RunPiece => next_run(reader),
        CallKind::CarryOn => Call::CarryOn {
            worker: reader.next_whole(),
        },
        CallKind::Play => {
            let list = list_in(reader, first);
            let ids = list_in(reader, second);
            let answers = at_most(reader.next_count(), most_answers);
            Call::Play { list, ids, answers }
        }
        CallKind::Average | CallKind::OpenCount => {
            let triplet = reader.next_whole();
            let ids1 = list_in(reader, first);
            let ids2 = list_in(reader, second);
            Call::Average {
                triplet,
                ids1,
                ids2,
            }
        }
    }
}

// The same with no more answers than the text has room for.
pub fn read_call<'b>(
    reader: &mut Reader<'_>,
    kind: CallKind,
    first: &'b mut [i64],
    second: &'b mut [i64],
) -> Call<&'b [i64]>
    ensures same_text { reader.new.text ≡ reader.old.text }
    ensures call { IsCall (λ list. list.now) (λ ids. ids.now) (length first.old) (length second.old) kind reader.old.text.now reader.old.at result reader.new.at }
{
    let most_answers = answers_of_text(reader);
    read_call_within(reader, kind, first, second, most_answers)
}

// The same with lists as long as the record has them.
#[tactic(auto, unfolding(crate::specs::Calls::IsCallWithin, crate::specs::Calls::IsCarryOn))]
pub fn next_call(
    reader: &mut Reader<'_>,
    alloc: Global,
    kind: CallKind,
) -> Result<Call<Vec<i64>>, AllocError>
    ensures same_text { reader.new.text ≡ reader.old.text }
    ensures call { IfOk result (λ call. IsCall (λ list. list.items) (λ ids. ids.items) (length reader.old.text.now) (length reader.old.text.now) kind reader.old.text.now reader.old.at call reader.new.at) }
{
    // kind is an enum here too
    match kind {
        CallKind::RunPiece => Ok(next_run(reader)),
        CallKind::CarryOn => Ok(Call::CarryOn {
            worker: reader.next_whole(),
        }),
        CallKind::Play => next_played(reader, alloc),
        CallKind::Average | CallKind::OpenCount => next_average(reader, alloc),
    }
}

// The number of an answer, 0 where the call is done; the sheet holds the tally that the caller then holds.
pub fn answered(sheet: &mut Sheet, answer: Result<Tally, Refusal>) -> u64
    ensures number { result ≡ number_of answer }
    ensures tally { sheet.new.tally.runs ≡ runs_after answer sheet.old.tally.runs }
    ensures rest { sheet.new ≡ record sheet.old { tally = sheet.new.tally } }
{
    sheet.tally.settle(answer)
}

impl<L> Call<L> {
    // How many answers it is to give: those of a list of calls.
    pub fn answers(&self) -> usize
        ensures { result ≡ answers_of self.now }
    {
        match self {
            Call::Play { answers, .. } => *answers,
            _ => 0,
        }
    }
}

impl Call<Vec<i64>> {
    // The call as it is lent, variant by variant: no derive lends the lists of an enum.
    pub fn lent(&self) -> Call<&[i64]>
        ensures { SaysSame (λ list. list.items) (λ list. list.now) self.now result }
    {
        match self {
            Call::RunPiece { worker, piece } => Call::RunPiece {
                worker: *worker,
                piece: *piece,
            },
            Call::CarryOn { worker } => Call::CarryOn { worker: *worker },
            Call::Average {
                triplet,
                ids1,
                ids2,
            } => Call::Average {
                triplet: *triplet,
                ids1: ids1.as_slice(),
                ids2: ids2.as_slice(),
            },
            Call::Play { list, ids, answers } => Call::Play {
                list: list.as_slice(),
                ids: ids.as_slice(),
                answers: *answers,
            },
        }
    }
}

impl<'a> Call<&'a [i64]> {
    // Makes the call on a study's sheet. A list of calls gives its answers and the tallies after them into the rooms for both.
    pub fn make(
        self,
        study: Study<'_>,
        sheet: &mut SheetMut<'_>,
        tally: Tally,
        answers: &mut [u64],
        tallies: &mut [u64],
    ) -> Result<Tally, Refusal>
        ensures made { Makes (λ list. list.now) (study_of study.entry) (sheet_of sheet.old tally.runs) self.entry answers.old tallies.old result (outcome (sheet_of sheet.new (runs_after result tally.runs)) answers.new tallies.new) }
        ensures same { SameBuffers sheet.old sheet.new }
    {
        match self {
            Call::RunPiece { worker, piece } => {
                sheet::run_piece(study, sheet, tally, worker, piece)
            }
            Call::CarryOn { worker } => sheet::carry_on(study, sheet, tally, worker),
            Call::Average {
                triplet,
                ids1,
                ids2,
            } => sheet::average_triplet(study, sheet, tally, triplet, ids1, ids2),
            Call::Play { list, ids, .. } => {
                let calls = Calls { list, ids };
                sheet_list::play(study, sheet, tally, calls, answers, tallies)
            }
        }
    }
}
