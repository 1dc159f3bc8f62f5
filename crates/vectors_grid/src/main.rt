// Replays stored answers of the original Rust on the grid index and the neighbour calls, and the numbers that a refused call is to
// give. A record starts with its kind:
//
//   1  grid index: address, mesh, refusal, index
//   2  grid, for the calls after it: kind, mesh, list of addresses, list of the map
//   3  neighbours of one point: refusal, point, list of steps, length of the buffer, list of the answer
//   4  neighbours of many points: refusal, list of points, list of steps, length of the buffer, list of the answer
//   5  the same for a point repeated: refusal, how many times, point, list of steps, length of the buffer, list of one number
//
// Refusal 0 is an accepted call. Each block has its own grids.

#![tactic(auto)]

use anyhow::Result;
use ask::Refusal;
use ask::kernel::status_of;
use question_grids::Grid;
use replay_compare::kernel::agree;
use replay_input::kernel::at_most;
use replay_input::kernel::stamps::{is_stamped, stamp};
use replay_input::reader::Reader;
use replay_report::blocks::{Replay, replay_blocks};
use replay_report::cases::{Cases, Judged, stored};
use replay_report::kinds::record_of;
use replay_study::records::{GridRecord, read_grid};
use std::alloc::Global;
use std::fmt;

#[derive(Clone, Copy, Debug, PartialEq, Eq)]
enum Record {
    Index,
    Grid,
    OnePoint,
    ManyPoints,
    RepeatedPoint,
}

const RECORDS: [(u64, Record); 5] = [
    (1, Record::Index),
    (2, Record::Grid),
    (3, Record::OnePoint),
    (4, Record::ManyPoints),
    (5, Record::RepeatedPoint),
];

// More numbers than any list of a record has, and than any buffer, but for those of a point repeated.
const MOST: usize = 4200;

// More than those have.
const MANY: usize = 65537;

// What is counted: the grid index, the neighbours of one point, and those of many.
#[derive(Clone, Copy, Debug)]
struct Counts {
    index: Cases,
    one: Cases,
    many: Cases,
}

impl Counts {
    fn new() -> Counts {
        Counts {
            index: Cases::new("index", "grid index"),
            one: Cases::new("one", "neighbours of one point"),
            many: Cases::new("many", "neighbours of many points"),
        }
    }
}

impl fmt::Display for Counts {
    fn fmt<W: fmt::Write>(&self, f: &mut fmt::Formatter<W>) -> fmt::Result {
        let Counts { index, one, many } = self;
        write!(f, "{index}\n{one}\n{many}")
    }
}

fn index_case(reader: &mut Reader<'_>) -> Judged {
    let address = reader.next_three();
    let mesh = reader.next_three();
    let refusal = reader.next_count();
    let index = reader.next_whole();
    let answer = grgrid::grid_index_from_address(address, mesh);
    Judged {
        refusal,
        agrees: answer.map_err(Refusal::number) == stored(refusal, index),
    }
}

// Whether a buffer holds the stored numbers, or, where the call was to be refused, what it held before.
fn buffer_agrees(refusal: u64, out: &[i64], numbers: &[i64]) -> bool {
    match refusal {
        0 => agree(out, numbers),
        _ => is_stamped(out),
    }
}

fn one_case(reader: &mut Reader<'_>, grid: Grid<'_>) -> Judged {
    let refusal = reader.next_count();
    let point = reader.next_whole();
    let mut steps = [0; MOST];
    let steps_count = reader.fill_list(&mut steps);
    let length = at_most(reader.next_count(), MOST);
    let mut numbers = [0; MOST];
    let numbers_count = reader.fill_list(&mut numbers);
    let mut out = [0; MOST];
    let out = &mut out[..length];
    stamp(out);
    let answer = bzgrid::fill_neighboring_grid_points(out, point, &steps[..steps_count], grid);
    Judged {
        refusal,
        agrees: status_of(answer) == refusal
            && buffer_agrees(refusal, out, &numbers[..numbers_count]),
    }
}

// What a call on many points lends beside its grid and its buffer, and what is stored of its answer.
#[derive(Clone, Copy, Debug)]
struct ManyPoints<'a> {
    points: &'a [i64],
    steps: &'a [i64],
    refusal: u64,
    numbers: &'a [i64],
}

// The neighbours of many points, in a buffer, held to the stored numbers.
fn many_judged(many: ManyPoints<'_>, out: &mut [i64], grid: Grid<'_>) -> Judged {
    let refusal = many.refusal;
    stamp(out);
    let answer = bzgrid::neighboring_grid_points_many(out, many.points, many.steps, grid);
    Judged {
        refusal,
        agrees: status_of(answer) == refusal && buffer_agrees(refusal, out, many.numbers),
    }
}

fn many_case(reader: &mut Reader<'_>, grid: Grid<'_>) -> Judged {
    let refusal = reader.next_count();
    let mut points = [0; MOST];
    let points_count = reader.fill_list(&mut points);
    let mut steps = [0; MOST];
    let steps_count = reader.fill_list(&mut steps);
    let length = at_most(reader.next_count(), MOST);
    let mut numbers = [0; MOST];
    let numbers_count = reader.fill_list(&mut numbers);
    let many = ManyPoints {
        points: &points[..points_count],
        steps: &steps[..steps_count],
        refusal,
        numbers: &numbers[..numbers_count],
    };
    let mut out = [0; MOST];
    many_judged(many, &mut out[..length], grid)
}

fn repeated_case(reader: &mut Reader<'_>, grid: Grid<'_>) -> Judged {
    let refusal = reader.next_count();
    let times = at_most(reader.next_count(), MANY);
    let points = [reader.next_whole(); MANY];
    let mut steps = [0; MOST];
    let steps_count = reader.fill_list(&mut steps);
    let length = at_most(reader.next_count(), MANY);
    let numbers = [reader.next_whole(); MANY];
    let many = ManyPoints {
        points: &points[..times],
        steps: &steps[..steps_count],
        refusal,
        numbers: &numbers[..length],
    };
    let mut out = [0; MANY];
    many_judged(many, &mut out[..length], grid)
}

// The grid of the calls after it, in rooms of its own; no record where none has been read.
#[derive(Drop)]
struct Kept {
    addresses: [i64; MOST],
    map: [i64; MOST],
    record: Option<GridRecord>,
}

impl Default for Kept {
    fn default() -> Kept {
        Kept {
            addresses: [0; MOST],
            map: [0; MOST],
            record: None,
        }
    }
}

impl Kept {
    fn read(&mut self, reader: &mut Reader<'_>) -> GridRecord {
        let record = read_grid(reader, &mut self.addresses, &mut self.map);
        self.record = Some(record);
        record
    }

    // The grid of the next call; before any record of one, the front of the block read as one.
    fn grid(&mut self, reader: &Reader<'_>) -> Grid<'_> {
        let record = match self.record {
            Some(record) => record,
            None => self.read(&mut reader.from(0)),
        };
        let d_diag = record.mesh;
        Grid {
            bz_grid_type: record.bz_grid_type,
            d_diag,
            addresses: &self.addresses[..record.addresses.min(MOST)],
            gp_map: &self.map[..record.map.min(MOST)],
        }
    }
}

impl Replay for Kept {
    type Counts = Counts;

    fn next_record(
        &mut self,
        rt: &impl Print,
        _alloc: Global,
        reader: &mut Reader<'_>,
        counts: &mut Counts,
    ) -> Result<()> {
        // a record of any other kind is read as the last
        let record = record_of(&RECORDS, reader.next_count()).unwrap_or(Record::RepeatedPoint);
        match record {
            Record::Grid => {
                self.read(reader);
            }
            Record::Index => counts.index.add(rt, index_case(reader)),
            Record::OnePoint => {
                let grid = self.grid(reader);
                counts.one.add(rt, one_case(reader, grid));
            }
            Record::ManyPoints => {
                let grid = self.grid(reader);
                counts.many.add(rt, many_case(reader, grid));
            }
            Record::RepeatedPoint => {
                let grid = self.grid(reader);
                counts.many.add(rt, repeated_case(reader, grid));
            }
        }
        Ok(())
    }
}

fn main(rt: HostRuntime) -> Result<()> {
    replay_blocks::<Kept>(&rt, rt.alloc(), Counts::new())
}
