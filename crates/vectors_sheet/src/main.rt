// Replays lists of calls on small run sheets. Answers and contents are those of an independent model (compare/sheet). A record starts
// with its kind and how many bytes come after these two fields:
//
//   1  grid, for the lists after it: kind, mesh, list of addresses, list of the map
//   2  table, for the lists after it: list of its numbers
//   3  study, for the lists after it: type, both band counts, lists of both frequencies, list of points, list of triplets
//   4  list of calls: lengths of weights, flags and marks, their content at the start, the sixteen counts, how many calls, and the calls
//   5  open count: type, triplets, points, both band counts, list of the weights, named triplet, then refusal and count
//
// A call is its kind (1 run of a piece: worker, triplet, b1, b2; 2 carry on: worker; 3 averaging: triplet, both lists of ids; 5 a whole
// list through `play`: list of its numbers, list of ids, how many answers, the answers, and the sixteen counts after each), then what it is
// to give: refusal, the sixteen counts, and 1 with the content of weights, flags and marks, or 0 where that is the content before the call.
//
// Refusal 0 is an accepted call. All counts are hexadecimal. Each block has its own grids, tables and studies. A list's sheet goes
// from call to call, and after each call all of it is compared, weights by bits; of a NaN only that it is one, since a proved program
// can make and read no other.

#![tactic(auto)]

use anyhow::Result;
use replay_calls::calls::read_call_within;
use replay_input::kernel::at_most;
use replay_input::reader::Reader;
use replay_report::blocks::{Replay, replay_blocks};
use replay_report::kinds::record_of;
use replay_sheet::content::{Lengths, next_tally, read_sheet, same_sheet};
use replay_sheet::counts::{AnswerCounts, CallKind};
use replay_sheet::open::open_case;
use replay_study::records::{GridRecord, ValuesRecord, read_grid, read_values};
use sheet::{Shape, SheetMut, Study, Tally};
use std::alloc::Global;

#[derive(Clone, Copy, Debug, PartialEq, Eq)]
enum Record {
    Grid,
    Table,
    Study,
    List,
    OpenCount,
}

const RECORDS: [(u64, Record); 5] = [
    (1, Record::Grid),
    (2, Record::Table),
    (3, Record::Study),
    (4, Record::List),
    (5, Record::OpenCount),
];

// ---- the calls

// More numbers than any list of a grid, a table, a study's triplets or a call has.
const MOST: usize = 1500;

// More values than any list of a study has.
const VALUES: usize = 1100;

// More weights, flags, marks or answers than any list of calls has.
const ROOM: usize = 256;

// Sixteen counts for each answer.
const TALLIES: usize = 4096;

// The number of an answer whose own answers are not the stored ones: no refusal has it.
const NO_NUMBER: u64 = 30;

// Counts an answer; none where its own answers are not the stored ones, which is a difference more. So is the answer of a kind behind the last, and
// an accepted one of kind 0; the others of kind 0 have no line.
fn count(counts: &mut AnswerCounts, kind: u64, number: Option<u64>, agrees: bool) {
    let no_place = match kind {
        0 => number == Some(0),
        1..=5 => number.is_none(),
        _ => true,
    };
    if no_place {
        counts.add_difference();
    }
    let told = if 1 <= kind && kind <= 5 { number } else { None };
    counts.add(CallKind::told(kind), told, agrees);
}

// How many weights, flags and marks come next.
fn next_lengths(reader: &mut Reader<'_>) -> Lengths {
    Lengths {
        weights: at_most(reader.next_count(), ROOM),
        flags: at_most(reader.next_count(), ROOM),
        marks: at_most(reader.next_count(), ROOM),
    }
}

// The sheet of a list of calls, in rooms of its own.
#[derive(Drop)]
struct OwnSheet {
    lengths: Lengths,
    weights: [f64; ROOM],
    flags: [i8; ROOM],
    marks: [u8; ROOM],
}

impl OwnSheet {
    // A sheet of such lengths.
    fn next(reader: &mut Reader<'_>, lengths: Lengths) -> OwnSheet {
        let mut weights = [0.0; ROOM];
        let mut flags = [0; ROOM];
        let mut marks = [0; ROOM];
        read_sheet(
            reader,
            &mut weights[..lengths.weights.min(ROOM)],
            &mut flags[..lengths.flags.min(ROOM)],
            &mut marks[..lengths.marks.min(ROOM)],
        );
        OwnSheet {
            lengths,
            weights,
            flags,
            marks,
        }
    }

    // The sheet as it is lent to a call.
    fn lent(&mut self) -> SheetMut<'_> {
        let lengths = self.lengths;
        let weights = &mut self.weights;
        let flags = &mut self.flags;
        let marks = &mut self.marks;
        SheetMut {
            weights: &mut weights[..lengths.weights.min(ROOM)],
            flags: &mut flags[..lengths.flags.min(ROOM)],
            marks: &mut marks[..lengths.marks.min(ROOM)],
        }
    }

    // Whether the content is the one that comes next. All of that is read.
    fn is_stored(&self, reader: &mut Reader<'_>) -> bool {
        let lengths = self.lengths;
        same_sheet(
            reader,
            &self.weights[..lengths.weights.min(ROOM)],
            &self.flags[..lengths.flags.min(ROOM)],
            &self.marks[..lengths.marks.min(ROOM)],
        )
    }
}

// What a list of calls goes through: its record from the next call on, the sheet and the tally so far, and the stored content that the
// sheet is to have: the start's, then that after the last accepted call.
#[derive(Drop)]
struct Run<'a> {
    record: Reader<'a>,
    sheet: OwnSheet,
    tally: Tally,
    content: Reader<'a>,
}

impl<'a> Run<'a> {
    fn new(mut record: Reader<'a>) -> Run<'a> {
        let lengths = next_lengths(&mut record);
        let content = record;
        let sheet = OwnSheet::next(&mut record, lengths);
        let tally = next_tally(&mut record);
        Run {
            record,
            sheet,
            tally,
            content,
        }
    }

    // Whether the sheet has the content that it is to have, which comes next where it changes.
    fn agrees(&mut self) -> bool {
        if self.record.next_count() == 0 {
            let mut content = self.content;
            return self.sheet.is_stored(&mut content);
        }
        self.content = self.record;
        self.sheet.is_stored(&mut self.record)
    }

    // Makes the next call.
    fn call_case(&mut self, study: Study<'_>, counts: &mut AnswerCounts) {
        let kind = self.record.next_count();
        let mut first = [0; MOST];
        let mut second = [0; MOST];
        let call = read_call_within(
            &mut self.record,
            CallKind::told(kind),
            &mut first,
            &mut second,
            ROOM,
        );
        let size = call.answers().min(ROOM);
        let mut answers = [0; ROOM];
        let mut tallies = [0; TALLIES];
        let answers = &mut answers[..size];
        let tallies = &mut tallies[..16 * size];
        let tally = self.tally;
        let mut lent = self.sheet.lent();
        let answer = call.make(study, &mut lent, tally, answers, tallies);
        let number = self.tally.settle(answer);
        // none where the answers of a list of calls and the tallies after them are not those stored next
        let are_stored = self.record.agrees_with(answers) & self.record.agrees_with(tallies);
        let number = are_stored.then_some(number);
        let refusal = self.record.next_count();
        let tally = self.record.agrees_with(&self.tally.runs);
        let content = self.agrees();
        let agrees = number.unwrap_or(NO_NUMBER) == refusal && tally && content;
        count(counts, kind, number, agrees);
    }
}

// Makes the calls of a list, one after another.
fn list_case(record: Reader<'_>, study: Study<'_>, counts: &mut AnswerCounts) {
    let mut run = Run::new(record);
    for _ in 0..run.record.next_count() {
        run.call_case(study, counts);
    }
}

// ---- the cases

// A grid as read, in rooms of its own.
#[derive(Drop)]
struct KeptGrid {
    record: GridRecord,
    addresses: [i64; MOST],
    map: [i64; MOST],
}

impl KeptGrid {
    fn next(reader: &mut Reader<'_>) -> KeptGrid {
        let mut addresses = [0; MOST];
        let mut map = [0; MOST];
        let record = read_grid(reader, &mut addresses, &mut map);
        KeptGrid {
            record,
            addresses,
            map,
        }
    }
}

// A table as read, in a room of its own.
#[derive(Drop)]
struct KeptTable {
    count: usize,
    numbers: [i64; MOST],
}

impl KeptTable {
    fn next(reader: &mut Reader<'_>) -> KeptTable {
        let mut numbers = [0; MOST];
        let count = reader.fill_list(&mut numbers);
        KeptTable { count, numbers }
    }
}

// A study as read, in rooms of its own.
#[derive(Drop)]
struct KeptStudy {
    tp_type: i64,
    num_band1: i64,
    num_band2: i64,
    record: ValuesRecord,
    frequencies1: [f64; VALUES],
    frequencies2: [f64; VALUES],
    points: [f64; VALUES],
    triplets_count: usize,
    triplets: [i64; MOST],
}

impl KeptStudy {
    fn next(reader: &mut Reader<'_>) -> KeptStudy {
        let [tp_type, num_band1, num_band2] = reader.next_three();
        let mut frequencies1 = [0.0; VALUES];
        let mut frequencies2 = [0.0; VALUES];
        let mut points = [0.0; VALUES];
        let record = read_values(reader, &mut frequencies1, &mut frequencies2, &mut points);
        let mut triplets = [0; MOST];
        let triplets_count = reader.fill_list(&mut triplets);
        KeptStudy {
            tp_type,
            num_band1,
            num_band2,
            record,
            frequencies1,
            frequencies2,
            points,
            triplets_count,
            triplets,
        }
    }

    // The study as it is lent to a call, on a grid and with a table.
    fn lent<'a>(&'a self, grid: &'a KeptGrid, table: &'a KeptTable) -> Study<'a> {
        let shape = Shape {
            bz_grid_type: grid.record.bz_grid_type,
            d_diag: grid.record.mesh,
            tp_type: self.tp_type,
            num_band1: self.num_band1,
            num_band2: self.num_band2,
        };
        Study {
            shape,
            addresses: &grid.addresses[..grid.record.addresses.min(MOST)],
            gp_map: &grid.map[..grid.record.map.min(MOST)],
            relative_grid_address: &table.numbers[..table.count.min(MOST)],
            frequencies1: &self.frequencies1[..self.record.frequencies1.min(VALUES)],
            frequencies2: &self.frequencies2[..self.record.frequencies2.min(VALUES)],
            frequency_points: &self.points[..self.record.points.min(VALUES)],
            triplets: &self.triplets[..self.triplets_count.min(MOST)],
        }
    }
}

// The grid, the table and the study of the lists after them.
#[derive(Default, Drop)]
struct Kept {
    grid: Option<KeptGrid>,
    table: Option<KeptTable>,
    study: Option<KeptStudy>,
}

impl Kept {
    // Before any record of a grid, a table or a study the front of the block is read as one.
    fn study(&mut self, block: Reader<'_>) -> Study<'_> {
        let grid = self
            .grid
            .get_or_insert_with(|| KeptGrid::next(&mut block.from(0)));
        let table = self
            .table
            .get_or_insert_with(|| KeptTable::next(&mut block.from(0)));
        let study = self
            .study
            .get_or_insert_with(|| KeptStudy::next(&mut block.from(0)));
        study.lent(grid, table)
    }
}

impl Replay for Kept {
    type Counts = AnswerCounts;

    fn next_record(
        &mut self,
        _rt: &impl Print,
        _alloc: Global,
        reader: &mut Reader<'_>,
        counts: &mut AnswerCounts,
    ) -> Result<()> {
        let number = reader.next_count();
        let size = reader.next_count();
        // what a record reads is not cut to its size, which tells where the next one starts
        let mut record = *reader;
        let _bytes = reader.next_bytes(size);
        // a record of any other kind is passed over
        let Ok(kind) = record_of(&RECORDS, number) else {
            return Ok(());
        };
        match kind {
            Record::Grid => self.grid = Some(KeptGrid::next(&mut record)),
            Record::Table => self.table = Some(KeptTable::next(&mut record)),
            Record::Study => self.study = Some(KeptStudy::next(&mut record)),
            Record::List => list_case(record, self.study(record), counts),
            Record::OpenCount => open_case(&mut record, counts),
        }
        Ok(())
    }
}

fn main(rt: HostRuntime) -> Result<()> {
    replay_blocks::<Kept>(&rt, rt.alloc(), AnswerCounts::new())
}
