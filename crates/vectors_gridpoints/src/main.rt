// Replays stored answers of the original Rust on the weights at grid points, under customers' tables too, on normal triplets and on the
// copies of a neighbour table, and the numbers that a refused call is to give. A record starts with its kind:
//
//   1  grid, for the calls after it: kind, mesh, list of addresses, list of the map
//   2  study, for the calls after it: list of the table, list of the map to irreducible points, list of frequencies, list of points
//   3  weights at grid points: refusal, 0 for I or 1 for J, bands, R, list of grid points, length of the buffer, list of the answer
//   4  the same for a grid point repeated, one band: refusal, 0 or 1, R, how many times, grid point, length of the buffer, one weight
//   5  whether a triplet is normal: refusal, triplet, list of addresses, 0 or 1
//   6  copies of a table: refusal, type, list of the table, length of the buffer, list of the answer
//   7  a customer's table alone: refusal, list of the table
//   8  weights at grid points under a customer's table, that of the study: as 3
//
// Refusal 0 is an accepted call. Each block has its own grids and studies.

#![tactic(auto)]

use anyhow::Result;
use ask::kernel::status_of;
use grid_point_weights::GridPointStudy;
use question_grids::Grid;
use replay_compare::kernel::agree;
use replay_input::kernel::at_most;
use replay_input::kernel::stamps::{is_marked, is_stamped, mark, stamp};
use replay_input::reader::Reader;
use replay_report::blocks::{Replay, replay_blocks};
use replay_report::cases::{Cases, Judged, stored};
use replay_report::kinds::record_of;
use replay_study::function::function_of;
use replay_study::owned::next_list;
use replay_study::records::{GridRecord, read_grid};
use std::alloc::{AllocError, Global};
use std::fmt;
use tetrahedron_method::WeightFunction;

#[derive(Clone, Copy, Debug, PartialEq, Eq)]
enum Record {
    Grid,
    Study,
    Weights,
    RepeatedPoint,
    Normal,
    Copies,
    CustomerTable,
    CustomerWeights,
    Uncounted,
}

const RECORDS: [(u64, Record); 9] = [
    (0, Record::Uncounted),
    (1, Record::Grid),
    (2, Record::Study),
    (3, Record::Weights),
    (4, Record::RepeatedPoint),
    (5, Record::Normal),
    (6, Record::Copies),
    (7, Record::CustomerTable),
    (8, Record::CustomerWeights),
];

// More numbers than any list of a record has, and than any buffer, but for those of a grid point repeated.
const MOST: usize = 4200;

// More than those have.
const MANY: usize = 65537;

// What is counted.
#[derive(Clone, Copy, Debug)]
struct Counts {
    weights: Cases,
    normal: Cases,
    copies: Cases,
    customer_tables: Cases,
    customer_weights: Cases,
}

impl Counts {
    fn new() -> Counts {
        Counts {
            weights: Cases::new("weights", "weights at grid points"),
            normal: Cases::new("normal", "normal triplets"),
            copies: Cases::new("copies", "copies of a table"),
            customer_tables: Cases::new("customer's table", "customers' tables"),
            customer_weights: Cases::new("customer's weights", "weights under customers' tables"),
        }
    }
}

impl fmt::Display for Counts {
    fn fmt<W: fmt::Write>(&self, f: &mut fmt::Formatter<W>) -> fmt::Result {
        let Counts {
            weights,
            normal,
            copies,
            customer_tables,
            customer_weights,
        } = self;
        writeln!(f, "{weights}\n{normal}\n{copies}")?;
        write!(f, "{customer_tables}\n{customer_weights}")
    }
}

// ---- weights at grid points

// The call that takes any table, or the one that takes a customer's.
#[derive(Clone, Copy, Debug, PartialEq, Eq)]
enum Call {
    AnyTable,
    CustomerTable,
}

// What a call asks beside its grid and its study, and what is stored of its answer.
#[derive(Clone, Copy)]
struct Asked<'a> {
    call: Call,
    function: WeightFunction,
    num_band: i64,
    num_ir: i64,
    grid_points: &'a [i64],
    refusal: u64,
    weights: &'a [f64],
}

// Whether a buffer holds the stored weights, or, where the call was to be refused, what it held before.
fn weights_agree(refusal: u64, iw: &[f64], weights: &[f64]) -> bool {
    match refusal {
        0 => agree(iw, weights),
        _ => is_marked(iw),
    }
}

// The number of the call's refusal, 0 where the weights are in the buffer.
fn weights_called(iw: &mut [f64], study: GridPointStudy<'_>, asked: Asked<'_>) -> u64 {
    let grid_points = asked.grid_points;
    status_of(match asked.call {
        Call::AnyTable => {
            grid_point_weights::integration_weights_at_grid_points(study, grid_points, iw)
        }
        Call::CustomerTable => {
            customer_tables::checked_integration_weights_at_grid_points(study, grid_points, iw)
        }
    })
}

// An accepted call is to fill the buffer with the stored weights, a refused one to leave it.
fn weights_judged(iw: &mut [f64], study: GridPointStudy<'_>, asked: Asked<'_>) -> Judged {
    let refusal = asked.refusal;
    mark(iw);
    let number = weights_called(iw, study, asked);
    Judged {
        refusal,
        agrees: number == refusal && weights_agree(refusal, iw, asked.weights),
    }
}

// A grid point repeated, one band, and one weight.
#[derive(Clone, Copy)]
struct Repeated {
    refusal: u64,
    function: WeightFunction,
    num_ir: i64,
    times: u64,
    grid_point: i64,
    length: u64,
    weight: f64,
}

fn next_repeated(reader: &mut Reader<'_>) -> Repeated {
    Repeated {
        refusal: reader.next_count(),
        function: function_of(reader.next_count()),
        num_ir: reader.next_whole(),
        times: reader.next_count(),
        grid_point: reader.next_whole(),
        length: reader.next_count(),
        weight: reader.next_real(),
    }
}

// How many numbers the lists of a study are.
#[derive(Clone, Copy, Debug)]
struct StudyRecord {
    table: usize,
    irreducible: usize,
    frequencies: usize,
    points: usize,
}

// The grid and the study of the calls after them, in rooms of their own; no record where none has been read.
#[derive(Drop)]
struct Kept {
    addresses: [i64; MOST],
    map: [i64; MOST],
    grid: Option<GridRecord>,
    table: [i64; MOST],
    irreducible: [i64; MOST],
    frequencies: [f64; MOST],
    points: [f64; MOST],
    study: Option<StudyRecord>,
}

impl Default for Kept {
    fn default() -> Kept {
        Kept {
            addresses: [0; MOST],
            map: [0; MOST],
            grid: None,
            table: [0; MOST],
            irreducible: [0; MOST],
            frequencies: [0.0; MOST],
            points: [0.0; MOST],
            study: None,
        }
    }
}

impl Kept {
    fn read_grid(&mut self, reader: &mut Reader<'_>) -> GridRecord {
        let grid = read_grid(reader, &mut self.addresses, &mut self.map);
        self.grid = Some(grid);
        grid
    }

    fn read_study(&mut self, reader: &mut Reader<'_>) -> StudyRecord {
        let study = StudyRecord {
            table: reader.fill_list(&mut self.table),
            irreducible: reader.fill_list(&mut self.irreducible),
            frequencies: reader.fill_list(&mut self.frequencies),
            points: reader.fill_list(&mut self.points),
        };
        self.study = Some(study);
        study
    }

    // What the next call is lent; before any record of a grid or a study the front of the block is read as one.
    fn lent(&mut self, reader: &Reader<'_>, asked: Asked<'_>) -> GridPointStudy<'_> {
        let grid = match self.grid {
            Some(grid) => grid,
            None => self.read_grid(&mut reader.from(0)),
        };
        let study = match self.study {
            Some(study) => study,
            None => self.read_study(&mut reader.from(0)),
        };
        let d_diag = grid.mesh;
        GridPointStudy {
            grid: Grid {
                bz_grid_type: grid.bz_grid_type,
                d_diag,
                addresses: &self.addresses[..grid.addresses.min(MOST)],
                gp_map: &self.map[..grid.map.min(MOST)],
            },
            relative_grid_address: &self.table[..study.table.min(MOST)],
            gp2irgp_map: &self.irreducible[..study.irreducible.min(MOST)],
            num_ir: asked.num_ir,
            num_band: asked.num_band,
            frequencies: &self.frequencies[..study.frequencies.min(MOST)],
            frequency_points: &self.points[..study.points.min(MOST)],
            function: asked.function,
        }
    }

    fn weights_case(&mut self, reader: &mut Reader<'_>, call: Call) -> Judged {
        let refusal = reader.next_count();
        let function = function_of(reader.next_count());
        let num_band = reader.next_whole();
        let num_ir = reader.next_whole();
        let mut grid_points = [0; MOST];
        let grid_points_count = reader.fill_list(&mut grid_points);
        let length = at_most(reader.next_count(), MOST);
        let mut weights = [0.0; MOST];
        let weights_count = reader.fill_list(&mut weights);
        let asked = Asked {
            call,
            function,
            num_band,
            num_ir,
            grid_points: &grid_points[..grid_points_count],
            refusal,
            weights: &weights[..weights_count],
        };
        let mut iw = [0.0; MOST];
        weights_judged(&mut iw[..length], self.lent(reader, asked), asked)
    }

    fn repeated_case(&mut self, reader: &Reader<'_>, repeated: Repeated) -> Judged {
        let times = at_most(repeated.times, MANY);
        let grid_points = [repeated.grid_point; MANY];
        let length = at_most(repeated.length, MANY);
        let weights = [repeated.weight; MANY];
        let asked = Asked {
            call: Call::AnyTable,
            function: repeated.function,
            num_band: 1,
            num_ir: repeated.num_ir,
            grid_points: &grid_points[..times],
            refusal: repeated.refusal,
            weights: &weights[..length],
        };
        let mut iw = [0.0; MANY];
        weights_judged(&mut iw[..length], self.lent(reader, asked), asked)
    }
}

// ---- normal triplets, copies of a table, customers' tables

fn normal_case(reader: &mut Reader<'_>) -> Judged {
    let refusal = reader.next_count();
    let triplet = reader.next_three();
    let mut addresses = [0; MOST];
    let count = reader.fill_list(&mut addresses);
    let normal = reader.next_count() == 1;
    let answer = triplet_addresses::is_n(triplet, &addresses[..count]);
    Judged {
        refusal,
        agrees: answer.map_err(|why| why.number()) == stored(refusal, normal),
    }
}

// Whether a buffer holds the stored numbers, or, where the call was to be refused, what it held before.
fn copies_agree(refusal: u64, out: &[i64], numbers: &[i64]) -> bool {
    match refusal {
        0 => agree(out, numbers),
        _ => is_stamped(out),
    }
}

fn copies_case(reader: &mut Reader<'_>) -> Judged {
    let refusal = reader.next_count();
    let tp_type = reader.next_whole();
    let mut table = [0; MOST];
    let table_count = reader.fill_list(&mut table);
    let length = at_most(reader.next_count(), MOST);
    let mut numbers = [0; MOST];
    let numbers_count = reader.fill_list(&mut numbers);
    let mut out = [0; MOST];
    let out = &mut out[..length];
    stamp(out);
    let answer = triplet_addresses::set_relative_grid_address(out, &table[..table_count], tp_type);
    Judged {
        refusal,
        agrees: status_of(answer) == refusal
            && copies_agree(refusal, out, &numbers[..numbers_count]),
    }
}

fn customer_table_case(reader: &mut Reader<'_>, alloc: Global) -> Result<Judged, AllocError> {
    let refusal = reader.next_count();
    let table: Vec<i64> = next_list(reader, alloc)?;
    let answer = customer_tables::check_relative_grid_address(&table);
    Ok(Judged {
        refusal,
        agrees: status_of(answer) == refusal,
    })
}

impl Replay for Kept {
    type Counts = Counts;

    fn next_record(
        &mut self,
        rt: &impl Print,
        alloc: Global,
        reader: &mut Reader<'_>,
        counts: &mut Counts,
    ) -> Result<()> {
        // a record of any other kind is read as that of a grid point repeated
        let record = record_of(&RECORDS, reader.next_count()).unwrap_or(Record::RepeatedPoint);
        match record {
            Record::Grid => {
                self.read_grid(reader);
            }
            Record::Study => {
                self.read_study(reader);
            }
            Record::Weights => {
                let judged = self.weights_case(reader, Call::AnyTable);
                counts.weights.add(rt, judged);
            }
            Record::RepeatedPoint => {
                let repeated = next_repeated(reader);
                let judged = self.repeated_case(reader, repeated);
                counts.weights.add(rt, judged);
            }
            // read, and no case
            Record::Uncounted => {
                next_repeated(reader);
            }
            Record::Normal => counts.normal.add(rt, normal_case(reader)),
            Record::Copies => counts.copies.add(rt, copies_case(reader)),
            Record::CustomerTable => counts
                .customer_tables
                .add(rt, customer_table_case(reader, alloc)?),
            Record::CustomerWeights => {
                let judged = self.weights_case(reader, Call::CustomerTable);
                counts.customer_weights.add(rt, judged);
            }
        }
        Ok(())
    }
}

fn main(rt: HostRuntime) -> Result<()> {
    replay_blocks::<Kept>(&rt, rt.alloc(), Counts::new())
}
