// The records of a grid and of a study's values, each read into lent buffers: these readers cannot fail, those of `owned` take memory.
ghost use Rattle.std.specs.Prelude.{◌≤◌, ◌≡◌, length, take};
ghost use Rattle.replay_study.specs.Records.{GridRead, ValuesRead};

use replay_input::reader::Reader;

// A grid as read: kind, mesh, and how many numbers its addresses and its map are.
#[derive(Clone, Copy)]
pub struct GridRecord {
    // as stored: any number, which question 3 judges
    pub bz_grid_type: i64,
    pub mesh: [i64; 3],
    pub addresses: usize,
    pub map: usize,
}

// How many numbers both frequencies and the points are.
#[derive(Clone, Copy)]
pub struct ValuesRecord {
    pub frequencies1: usize,
    pub frequencies2: usize,
    pub points: usize,
}

// A grid: kind, mesh, list of addresses, list of the map.
// Beside `next_grid`, which takes memory and can fail for want of it: this one cannot.
pub fn read_grid(reader: &mut Reader<'_>, addresses: &mut [i64], map: &mut [i64]) -> GridRecord
    ensures addresses_in_bounds { (result.addresses ≤ length addresses.new) × (result.addresses ≡ length (take result.addresses addresses.new)) }
    ensures map_in_bounds { (result.map ≤ length map.new) × (result.map ≡ length (take result.map map.new)) }
    ensures text { reader.new ≡ record reader.old { at = reader.new.at } }
    ensures grid_read { GridRead reader.old.text.now reader.old.at result.bz_grid_type result.mesh addresses.old addresses.new result.addresses map.old map.new result.map reader.new.at }
{
    let bz_grid_type = reader.next_whole();
    let mesh = reader.next_three();
    let addresses = reader.fill_list(addresses);
    let map = reader.fill_list(map);
    GridRecord {
        bz_grid_type,
        mesh,
        addresses,
        map,
    }
}

// The values of a study: lists of both frequencies, list of points.
// Beside `next_values`, which takes memory and can fail for want of it: this one cannot.
pub fn read_values(
    reader: &mut Reader<'_>,
    frequencies1: &mut [f64],
    frequencies2: &mut [f64],
    points: &mut [f64],
) -> ValuesRecord
    ensures frequencies1_in_bounds { (result.frequencies1 ≤ length frequencies1.new) × (result.frequencies1 ≡ length (take result.frequencies1 frequencies1.new)) }
    ensures frequencies2_in_bounds { (result.frequencies2 ≤ length frequencies2.new) × (result.frequencies2 ≡ length (take result.frequencies2 frequencies2.new)) }
    ensures points_in_bounds { (result.points ≤ length points.new) × (result.points ≡ length (take result.points points.new)) }
    ensures text { reader.new ≡ record reader.old { at = reader.new.at } }
    ensures values_read { ValuesRead reader.old.text.now reader.old.at frequencies1.old frequencies1.new result.frequencies1 frequencies2.old frequencies2.new result.frequencies2 points.old points.new result.points reader.new.at }
{
    let frequencies1 = reader.fill_list(frequencies1);
    let frequencies2 = reader.fill_list(frequencies2);
    let points = reader.fill_list(points);
    ValuesRecord {
        frequencies1,
        frequencies2,
        points,
    }
}
