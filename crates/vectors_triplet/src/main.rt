// Replays stored answers of the original Rust on the weights of triplets, and the numbers that a refused call is to give. A record
// starts with its kind:
//
//   1  grid, for the calls after it: kind, mesh, list of addresses, list of the map
//   2  study, for the calls after it: type, both band counts, list of the table, lists of both frequencies, list of points
//   3  weights of all triplets: refusal, list of triplets, how many numbers they are when the list goes on over and over, lengths of
//      both buffers, and what these are to hold over and over: list of weights, list of flags
//   4  weights of one triplet: the same
//
// Refusal 0 is an accepted call. Each block has its own grids and studies. Weights are compared by bits.

#![tactic(auto)]

use anyhow::Result;
use ask::kernel::status_of;
use replay_compare::kernel::Compared;
use replay_input::kernel::at_most;
use replay_input::kernel::stamps::{is_marked, mark};
use replay_input::reader::{Field, Reader};
use replay_report::blocks::{Replay, replay_blocks};
use replay_report::cases::{Cases, Judged};
use replay_report::kinds::record_of;
use replay_study::records::{GridRecord, ValuesRecord, read_grid, read_values};
use std::alloc::Global;
use std::fmt;
use triplet_study::{Shape, Study};

#[derive(Clone, Copy, Debug, PartialEq, Eq)]
enum Record {
    Grid,
    Study,
    AllTriplets,
    OneTriplet,
    Uncounted,
    Other,
}

const RECORDS: [(u64, Record); 5] = [
    (0, Record::Uncounted),
    (1, Record::Grid),
    (2, Record::Study),
    (3, Record::AllTriplets),
    (4, Record::OneTriplet),
];

// More numbers than any list of a record has.
const MOST: usize = 4200;

// More numbers than the triplets of any call are.
const TRIPLETS: usize = 196616;

// More weights or flags than any call fills.
const ROOM: usize = 65540;

// What is counted.
#[derive(Clone, Copy, Debug)]
struct Counts {
    all: Cases,
    one: Cases,
}

impl Counts {
    fn new() -> Counts {
        Counts {
            all: Cases::new("all triplets", "weights of all triplets"),
            one: Cases::new("one triplet", "weights of one triplet"),
        }
    }
}

impl fmt::Display for Counts {
    fn fmt<W: fmt::Write>(&self, f: &mut fmt::Formatter<W>) -> fmt::Result {
        let Counts { all, one } = self;
        write!(f, "{all}\n{one}")
    }
}

// ---- the grid and the study

// A grid, each of its lists at the start of a room of its own.
#[derive(Drop)]
struct KeptGrid {
    record: GridRecord,
    addresses: [i64; MOST],
    map: [i64; MOST],
}

fn next_grid(reader: &mut Reader<'_>) -> KeptGrid {
    let mut addresses = [0; MOST];
    let mut map = [0; MOST];
    let record = read_grid(reader, &mut addresses, &mut map);
    KeptGrid {
        record,
        addresses,
        map,
    }
}

// A study, its lists likewise.
#[derive(Drop)]
struct KeptStudy {
    tp_type: i64,
    num_band1: i64,
    num_band2: i64,
    table_length: usize,
    table: [i64; MOST],
    lengths: ValuesRecord,
    frequencies1: [f64; MOST],
    frequencies2: [f64; MOST],
    points: [f64; MOST],
}

fn next_study(reader: &mut Reader<'_>) -> KeptStudy {
    let [tp_type, num_band1, num_band2] = reader.next_three();
    let mut table = [0; MOST];
    let table_length = reader.fill_list(&mut table);
    let mut frequencies1 = [0.0; MOST];
    let mut frequencies2 = [0.0; MOST];
    let mut points = [0.0; MOST];
    let lengths = read_values(reader, &mut frequencies1, &mut frequencies2, &mut points);
    KeptStudy {
        tp_type,
        num_band1,
        num_band2,
        table_length,
        table,
        lengths,
        frequencies1,
        frequencies2,
        points,
    }
}

// The list at the start of a room.
fn list_of<T>(room: &[T; MOST], length: usize) -> &[T] {
    &room[..length.min(MOST)]
}

// The study as it is lent to a call, which brings its triplets.
// Beside that of replay_calls: there the triplets are the study's and the table the call's, here the other way round.
fn lent<'a>(grid: &'a KeptGrid, study: &'a KeptStudy) -> Study<'a> {
    let d_diag = grid.record.mesh;
    let shape = Shape {
        bz_grid_type: grid.record.bz_grid_type,
        d_diag,
        tp_type: study.tp_type,
        num_band1: study.num_band1,
        num_band2: study.num_band2,
    };
    let lengths = study.lengths;
    Study {
        shape,
        addresses: list_of(&grid.addresses, grid.record.addresses),
        gp_map: list_of(&grid.map, grid.record.map),
        relative_grid_address: list_of(&study.table, study.table_length),
        frequencies1: list_of(&study.frequencies1, lengths.frequencies1),
        frequencies2: list_of(&study.frequencies2, lengths.frequencies2),
        frequency_points: list_of(&study.points, lengths.points),
        triplets: &[],
    }
}

// ---- lists over and over

// A list over and over, up to the buffer's length; of an empty one nothing.
fn repeat<T: Copy>(list: &[T], buffer: &mut [T]) {
    for (entry, value) in buffer.iter_mut().zip(list.iter().cycle()) {
        *entry = *value;
    }
}

// Whether a buffer is the list over and over; nothing of an empty one.
fn is_repeated<T: Compared>(list: &[T], buffer: &[T]) -> bool {
    if list.is_empty() {
        return buffer.is_empty();
    }
    buffer
        .iter()
        .zip(list.iter().cycle())
        .all(|(entry, value)| entry.agrees(*value))
}

// What flags hold before a call, over and over: no flag is such a number.
const FLAG_MARKS: [i8; 2] = [5, -6];

// ---- the calls

// What a call asks for.
#[derive(Clone, Copy, Debug)]
enum Asked {
    AllTriplets,
    OneTriplet,
}

// The number of the call's refusal, 0 where it is done.
fn called(
    asked: Asked,
    study: Study<'_>,
    one: [i64; 3],
    weights: &mut [f64],
    flags: &mut [i8],
) -> u64 {
    status_of(match asked {
        Asked::AllTriplets => triplet::integration_weight(study, weights, flags),
        Asked::OneTriplet => triplet_iw::integration_weight_per_triplet(study, one, weights, flags),
    })
}

// The first of the triplets; zeros for numbers that it has not.
fn first_of(triplets: &[i64]) -> [i64; 3] {
    match triplets {
        [] => [0; 3],
        [a] => [*a, 0, 0],
        [a, b] => [*a, *b, 0],
        [a, b, c, ..] => [*a, *b, *c],
    }
}

// A call as stored: how many numbers its triplets are, the list of them, the lengths of both buffers, and the lists that these hold
// afterwards.
#[derive(Drop)]
struct StoredCall<'a> {
    asked: Asked,
    refusal: u64,
    list: &'a [i64],
    triplets: u64,
    room: u64,
    places: u64,
    weights: &'a [f64],
    flags: &'a [i8],
}

// A list, to the start of a room and cut to it.
fn next_in<'a, T: Field>(reader: &mut Reader<'_>, room: &'a mut [T]) -> &'a [T] {
    let count = reader.fill_list(room);
    &room[..count]
}

fn next_call<'a>(
    reader: &mut Reader<'_>,
    asked: Asked,
    list: &'a mut [i64],
    weights: &'a mut [f64],
    flags: &'a mut [i8],
) -> StoredCall<'a> {
    StoredCall {
        asked,
        refusal: reader.next_count(),
        list: next_in(reader, list),
        triplets: reader.next_count(),
        room: reader.next_count(),
        places: reader.next_count(),
        weights: next_in(reader, weights),
        flags: next_in(reader, flags),
    }
}

// Whether rooms for a list hold the triplets and both buffers.
fn is_small(call: &StoredCall<'_>) -> bool {
    let most = MOST as u64;
    call.triplets <= most && call.room <= most && call.places <= most
}

// Whether an accepted call filled the buffers with the stored weights and flags, or a refused one left them.
fn are_stored(call: &StoredCall<'_>, weights: &[f64], flags: &[i8]) -> bool {
    if call.refusal == 0 {
        is_repeated(call.weights, weights) && is_repeated(call.flags, flags)
    } else {
        is_marked(weights) && is_repeated(&FLAG_MARKS, flags)
    }
}

// Makes the call with triplets that are zeros, and holds its answer to the stored one.
fn agrees(
    call: &StoredCall<'_>,
    study: Study<'_>,
    triplets: &mut [i64],
    weights: &mut [f64],
    flags: &mut [i8],
) -> bool {
    repeat(call.list, triplets);
    mark(weights);
    repeat(&FLAG_MARKS, flags);
    let study = Study { triplets, ..study };
    let number = called(call.asked, study, first_of(call.list), weights, flags);
    number == call.refusal && are_stored(call, weights, flags)
}

fn agrees_in_small_rooms(call: &StoredCall<'_>, study: Study<'_>) -> bool {
    let mut triplets = [0; MOST];
    let mut weights = [0.0; MOST];
    let mut flags = [0; MOST];
    agrees(
        call,
        study,
        &mut triplets[..at_most(call.triplets, MOST)],
        &mut weights[..at_most(call.room, MOST)],
        &mut flags[..at_most(call.places, MOST)],
    )
}

// The same for a call of more numbers: few are, and only these pay for the rooms.
fn agrees_in_large_rooms(call: &StoredCall<'_>, study: Study<'_>) -> bool {
    let mut triplets = [0; TRIPLETS];
    let mut weights = [0.0; ROOM];
    let mut flags = [0; ROOM];
    agrees(
        call,
        study,
        &mut triplets[..at_most(call.triplets, TRIPLETS)],
        &mut weights[..at_most(call.room, ROOM)],
        &mut flags[..at_most(call.places, ROOM)],
    )
}

// The grid and the study of the calls after them.
#[derive(Default, Drop)]
struct Kept {
    grid: Option<KeptGrid>,
    study: Option<KeptStudy>,
}

impl Kept {
    // Before any record of a grid or a study the front of the block is read as one.
    fn call_case(&mut self, reader: &mut Reader<'_>, asked: Asked) -> Judged {
        let mut front = reader.from(0);
        let grid = self.grid.get_or_insert_with(|| next_grid(&mut front));
        let mut front = reader.from(0);
        let study = self.study.get_or_insert_with(|| next_study(&mut front));
        let mut list = [0; MOST];
        let mut weights = [0.0; MOST];
        let mut flags = [0; MOST];
        let call = next_call(reader, asked, &mut list, &mut weights, &mut flags);
        let study = lent(grid, study);
        let agrees = if is_small(&call) {
            agrees_in_small_rooms(&call, study)
        } else {
            agrees_in_large_rooms(&call, study)
        };
        Judged {
            refusal: call.refusal,
            agrees,
        }
    }
}

impl Replay for Kept {
    type Counts = Counts;

    // No memory is taken: each list has a room of its own.
    fn next_record(
        &mut self,
        rt: &impl Print,
        _alloc: Global,
        reader: &mut Reader<'_>,
        counts: &mut Counts,
    ) -> Result<()> {
        let record = record_of(&RECORDS, reader.next_count()).unwrap_or(Record::Other);
        match record {
            Record::Grid => self.grid = Some(next_grid(reader)),
            Record::Study => self.study = Some(next_study(reader)),
            Record::AllTriplets => {
                let judged = self.call_case(reader, Asked::AllTriplets);
                counts.all.add(rt, judged);
            }
            Record::OneTriplet => {
                let judged = self.call_case(reader, Asked::OneTriplet);
                counts.one.add(rt, judged);
            }
            // a call for all triplets that is no case
            Record::Uncounted => {
                let _judged = self.call_case(reader, Asked::AllTriplets);
            }
            // a record of any other kind is a call for all triplets, counted beside those for one
            Record::Other => {
                let judged = self.call_case(reader, Asked::AllTriplets);
                counts.one.add(rt, judged);
            }
        }
        Ok(())
    }
}

fn main(rt: HostRuntime) -> Result<()> {
    replay_blocks::<Kept>(&rt, rt.alloc(), Counts::new())
}
