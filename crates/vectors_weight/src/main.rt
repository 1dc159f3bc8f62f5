// Replays stored answers of the original Rust on the sort, the weights I and J, the choice of the neighbour table and the tables, the
// numbers that a refused call is to give, exact integrals, and products of a lattice and a vector. A record starts with its kind:
//
//   1  sort: four values, place, the four in order
//   2  vertices, for the weights after it: list of values
//   3  weight over these vertices: function, refusal, omega, weight
//   4  weight over 24 equal rows: function, refusal, omega, the row's four values, weight
//   5  lattice: nine values, row by row, refusal, number of the table
//   6  the four tables: list of numbers
//   7  exact integral: function, omega, the row's four values, least, greatest
//   8  exact integral of the whole row: the same
//   9  product: the lattice's nine values, row by row, the vector, refusal, the product's three values
//  10  the four tables by the generator, which the Rust does not have, in its order: list of numbers
//
// Function 0 is I, 1 is J. Refusal 0 is an accepted call. Each block has its own vertices. Floats are compared by their bits, but for
// 7 and 8, where the weight over 24 equal rows, or the sum of those of the four vertices in turn, lies from the least to the greatest.

#![tactic(auto)]

use anyhow::Result;
use ask::Refusal;
use generated_tables::generated_relative_grid_address;
use relative_grid_address::{NeighbourTable, all_relative_grid_address};
use replay_compare::kernel::agree;
use replay_input::reader::Reader;
use replay_report::blocks::{Replay, replay_blocks};
use replay_report::cases::{Cases, Judged, stored};
use replay_report::kinds::record_of;
use replay_study::function::function_of;
use replay_study::owned::next_list;
use std::alloc::{AllocError, Global};
use std::fmt;
use tetrahedron_method::WeightFunction;
use text::kernel::bits_of;

#[derive(Clone, Copy, Debug, PartialEq, Eq)]
enum Record {
    Sort,
    Vertices,
    Weight,
    EqualRows,
    Lattice,
    Tables,
    GeneratedTables,
    Exact,
    ExactSum,
    Product,
}

const RECORDS: [(u64, Record); 10] = [
    (1, Record::Sort),
    (2, Record::Vertices),
    (3, Record::Weight),
    (4, Record::EqualRows),
    (5, Record::Lattice),
    (6, Record::Tables),
    (7, Record::Exact),
    (8, Record::ExactSum),
    (9, Record::Product),
    (10, Record::GeneratedTables),
];

// More values than any list of vertices has.
const MOST: usize = 400;

// What is counted.
#[derive(Clone, Copy, Debug)]
struct Counts {
    sort: Cases,
    weight: Cases,
    lattice: Cases,
    tables: Cases,
    generated: Cases,
    exact: Cases,
    exact_sum: Cases,
    product: Cases,
}

impl Counts {
    fn new() -> Counts {
        Counts {
            sort: Cases::new("sort", "sort"),
            weight: Cases::new("weight", "weight"),
            lattice: Cases::new("lattice", "choice of the table"),
            tables: Cases::new("tables", "tables"),
            generated: Cases::new("generated tables", "generated tables"),
            exact: Cases::new("exact integral", "exact integral"),
            exact_sum: Cases::new("exact sum", "exact sum of the four vertices"),
            product: Cases::new("product", "lattice times vector"),
        }
    }
}

impl fmt::Display for Counts {
    fn fmt<W: fmt::Write>(&self, f: &mut fmt::Formatter<W>) -> fmt::Result {
        let Counts {
            sort,
            weight,
            lattice,
            tables,
            generated,
            exact,
            exact_sum,
            product,
        } = self;
        writeln!(f, "{sort}\n{weight}\n{lattice}\n{tables}\n{generated}")?;
        write!(f, "{exact}\n{exact_sum}\n{product}")
    }
}

// A case that cannot be refused.
fn accepted(agrees: bool) -> Judged {
    Judged { refusal: 0, agrees }
}

fn next_reals<const N: usize>(reader: &mut Reader<'_>) -> [f64; N] {
    let mut values = [0.0; N];
    reader.fill(&mut values);
    values
}

// A lattice, row by row.
fn next_lattice(reader: &mut Reader<'_>) -> [[f64; 3]; 3] {
    let first = next_reals(reader);
    let second = next_reals(reader);
    let third = next_reals(reader);
    [first, second, third]
}

fn sort_case(reader: &mut Reader<'_>) -> Judged {
    let row = next_reals(reader);
    let place = reader.next_count();
    let order: [f64; 4] = next_reals(reader);
    let sorted = tetrahedron_sort::kernel::sort_omegas(row);
    let omegas = sorted.omegas;
    accepted(sorted.place as u64 == place && agree(&omegas, &order))
}

fn number_given(answer: Result<f64, Refusal>) -> Result<f64, u64> {
    answer.map_err(|why| why.number())
}

fn weight_judged(answer: Result<f64, Refusal>, refusal: u64, weight: f64) -> Judged {
    Judged {
        refusal,
        agrees: number_given(answer).map(bits_of) == stored(refusal, bits_of(weight)),
    }
}

// A weight over the vertices.
fn weight_case(reader: &mut Reader<'_>, vertices: &[f64]) -> Judged {
    let function = function_of(reader.next_count());
    let refusal = reader.next_count();
    let omega = reader.next_real();
    let weight = reader.next_real();
    let answer = tetrahedron_method::integration_weight(omega, vertices, function);
    weight_judged(answer, refusal, weight)
}

// The answer over 24 equal rows.
fn row_answer(function: WeightFunction, omega: f64, row: [f64; 4]) -> Result<f64, Refusal> {
    let rows = [row; 24];
    tetrahedron_method::integration_weight(omega, rows.as_flattened(), function)
}

fn row_case(reader: &mut Reader<'_>) -> Judged {
    let function = function_of(reader.next_count());
    let refusal = reader.next_count();
    let omega = reader.next_real();
    let row = next_reals(reader);
    let weight = reader.next_real();
    weight_judged(row_answer(function, omega, row), refusal, weight)
}

// The sum of the weights over 24 equal rows, for each of the rows.
fn row_sum(function: WeightFunction, omega: f64, rows: &[[f64; 4]]) -> Result<f64, u64> {
    let mut sum = 0.0;
    for row in rows {
        sum += number_given(row_answer(function, omega, *row))?;
    }
    Ok(sum)
}

// An exact integral of a row or, for the whole, of the four rows that start with each of its vertices in turn.
fn exact_case(reader: &mut Reader<'_>, whole: bool) -> Judged {
    let function = function_of(reader.next_count());
    let omega = reader.next_real();
    let [a, b, c, d]: [f64; 4] = next_reals(reader);
    let least = reader.next_real();
    let greatest = reader.next_real();
    let rows = [[a, b, c, d], [b, a, c, d], [c, a, b, d], [d, a, b, c]];
    let weight = if whole {
        row_sum(function, omega, &rows)
    } else {
        row_sum(function, omega, &rows[..1])
    };
    accepted(weight.is_ok_and(|w| least <= w && w <= greatest))
}

// A refused choice is stored with the number 0.
fn table_agrees(answer: Result<NeighbourTable, Refusal>, refusal: u64, number: u64) -> bool {
    match answer {
        Ok(chosen) => {
            let all = all_relative_grid_address();
            let (tables, _) = all.as_chunks::<288>();
            let numbers = chosen.numbers;
            refusal == 0
                && chosen.index as u64 == number
                && tables
                    .get(chosen.index)
                    .is_some_and(|table| agree(&numbers, table))
        }
        Err(why) => why.number() == refusal && number == 0,
    }
}

fn lattice_case(reader: &mut Reader<'_>) -> Judged {
    let lattice = next_lattice(reader);
    let refusal = reader.next_count();
    let number = reader.next_count();
    let answer = relative_grid_address::relative_grid_address(lattice);
    Judged {
        refusal,
        agrees: table_agrees(answer, refusal, number),
    }
}

// The four tables, held to stored ones in a room of their length: zeros stand for numbers that are not stored.
fn tables_case(reader: &mut Reader<'_>) -> Judged {
    let mut tables = [0; 1152];
    let _stored = reader.fill_list(&mut tables);
    accepted(agree(&all_relative_grid_address(), &tables))
}

// The generated ones, held to as many as are stored.
fn generated_case(reader: &mut Reader<'_>, alloc: Global) -> Result<Judged, AllocError> {
    let tables = next_list(reader, alloc)?;
    Ok(accepted(agree(&generated_relative_grid_address(), &tables)))
}

// A refused product is stored as three zeros.
fn product_agrees(answer: Result<[f64; 3], Refusal>, refusal: u64, product: &[f64; 3]) -> bool {
    match answer {
        Ok(vector) => refusal == 0 && agree(&vector, product),
        Err(why) => why.number() == refusal && agree(&[0.0; 3], product),
    }
}

fn product_case(reader: &mut Reader<'_>) -> Judged {
    let lattice = next_lattice(reader);
    let vector = reader.next_three();
    let refusal = reader.next_count();
    let product = next_reals(reader);
    let answer = common::matvec_di(lattice, vector);
    Judged {
        refusal,
        agrees: product_agrees(answer, refusal, &product),
    }
}

// Vertices as read, in a room of their own.
#[derive(Drop)]
struct Vertices {
    count: usize,
    values: [f64; MOST],
}

impl Vertices {
    fn next(reader: &mut Reader<'_>) -> Vertices {
        let mut values = [0.0; MOST];
        let count = reader.fill_list(&mut values);
        Vertices { count, values }
    }

    fn lent(&self) -> &[f64] {
        &self.values[..self.count.min(MOST)]
    }
}

// The vertices of the weights after them.
#[derive(Default, Drop)]
struct Kept {
    vertices: Option<Vertices>,
}

impl Kept {
    // Those of the next weight; before any record of them, the front of the block read as one.
    fn vertices(&mut self, block: Reader<'_>) -> &[f64] {
        self.vertices
            .get_or_insert_with(|| Vertices::next(&mut block.from(0)))
            .lent()
    }
}

impl Replay for Kept {
    type Counts = Counts;

    fn next_record(
        &mut self,
        rt: &impl Print,
        alloc: Global,
        reader: &mut Reader<'_>,
        counts: &mut Counts,
    ) -> Result<()> {
        // a record of any other kind is read as a product
        let record = record_of(&RECORDS, reader.next_count()).unwrap_or(Record::Product);
        match record {
            Record::Vertices => self.vertices = Some(Vertices::next(reader)),
            Record::Sort => counts.sort.add(rt, sort_case(reader)),
            Record::Weight => {
                let vertices = self.vertices(*reader);
                counts.weight.add(rt, weight_case(reader, vertices));
            }
            Record::EqualRows => counts.weight.add(rt, row_case(reader)),
            Record::Lattice => counts.lattice.add(rt, lattice_case(reader)),
            Record::Tables => counts.tables.add(rt, tables_case(reader)),
            Record::GeneratedTables => counts.generated.add(rt, generated_case(reader, alloc)?),
            Record::Exact => counts.exact.add(rt, exact_case(reader, false)),
            Record::ExactSum => counts.exact_sum.add(rt, exact_case(reader, true)),
            Record::Product => counts.product.add(rt, product_case(reader)),
        }
        Ok(())
    }
}

fn main(rt: HostRuntime) -> Result<()> {
    replay_blocks::<Kept>(&rt, rt.alloc(), Counts::new())
}
