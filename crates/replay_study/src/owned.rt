// The records that stay with a program: their lists on the heap.
ghost use Rattle.std.specs.Prelude.{◌≡◌, length, IfOk};
ghost use Rattle.list_laws.specs.Lists.{tabulate};
ghost use Rattle.replay_input.specs.Fields.{field_place, value_from};
ghost use Rattle.replay_study.specs.Records.{after_list, list_at, IsGrid, AreValues};

use question_grids::Grid;
use replay_input::kernel::at_most;
use replay_input::reader::{Field, Reader};
use std::alloc::{AllocError, Global};

// So many numbers, one a field.
pub fn next_numbers<T: Field + Default>(
    reader: &mut Reader<'_>,
    alloc: Global,
    count: usize,
) -> Result<Vec<T>, AllocError>
    ensures same_text { reader.new.text ≡ reader.old.text }
    ensures list { IfOk result (λ list. list.items ≡ tabulate count (value_from T.value_at T.after reader.old.text.now reader.old.at)) }
    ensures next { IfOk result (λ list. reader.new.at ≡ field_place (T.after reader.old.text.now) reader.old.at count) }
{
    let mut list = vec![in alloc; T::default(); count]?;
    reader.fill(list.as_mut_slice());
    Ok(list)
}

// A list: its count, cut to the length of the text, and then its numbers.
#[tactic(auto, unfolding(crate::specs::Records::list_at, crate::specs::Records::after_list))]
pub fn next_list<T: Field + Default>(
    reader: &mut Reader<'_>,
    alloc: Global,
) -> Result<Vec<T>, AllocError>
    ensures same_text { reader.new.text ≡ reader.old.text }
    ensures list { IfOk result (λ list. list.items ≡ list_at T.value_at T.after reader.old.text.now reader.old.at) }
    ensures next { IfOk result (λ list. reader.new.at ≡ after_list (T.after reader.old.text.now) reader.old.text.now reader.old.at (length reader.old.text.now)) }
{
    let most = reader.text.len();
    let count = at_most(reader.next_count(), most);
    next_numbers(reader, alloc, count)
}

// A grid: kind, mesh, list of addresses, list of the map.
#[derive(Debug, Drop)]
pub struct OwnGrid {
    pub bz_grid_type: i64,
    pub d_diag: [i64; 3],
    pub addresses: Vec<i64>,
    pub gp_map: Vec<i64>,
}

impl OwnGrid {
    // The grid as it is lent to a call. No From: the `lent` of a study, which takes a grid and a table too, could be none.
    pub fn lent(&self) -> Grid<'_>
        ensures { (result.bz_grid_type ≡ self.now.bz_grid_type) × (result.d_diag ≡ self.now.d_diag) × (result.addresses.now ≡ self.now.addresses.items) × (result.gp_map.now ≡ self.now.gp_map.items) }
    {
        let d_diag = self.d_diag;
        Grid {
            bz_grid_type: self.bz_grid_type,
            d_diag,
            addresses: self.addresses.as_slice(),
            gp_map: self.gp_map.as_slice(),
        }
    }
}

#[tactic(auto, unfolding(crate::specs::Records::IsGrid, crate::specs::Records::grid_lists))]
pub fn next_grid(reader: &mut Reader<'_>, alloc: Global) -> Result<OwnGrid, AllocError>
    ensures same_text { reader.new.text ≡ reader.old.text }
    ensures grid { IfOk result (λ grid. IsGrid reader.old.text.now reader.old.at grid.bz_grid_type grid.d_diag grid.addresses.items grid.gp_map.items reader.new.at) }
{
    let bz_grid_type = reader.next_whole();
    let d_diag = reader.next_three();
    let addresses = next_list(reader, alloc)?;
    let gp_map = next_list(reader, alloc)?;
    Ok(OwnGrid {
        bz_grid_type,
        d_diag,
        addresses,
        gp_map,
    })
}

// The values of a study: lists of both frequencies, list of points.
#[derive(Debug, Drop)]
pub struct OwnValues {
    pub frequencies1: Vec<f64>,
    pub frequencies2: Vec<f64>,
    pub points: Vec<f64>,
}

#[tactic(auto, unfolding(crate::specs::Records::AreValues))]
pub fn next_values(reader: &mut Reader<'_>, alloc: Global) -> Result<OwnValues, AllocError>
    ensures same_text { reader.new.text ≡ reader.old.text }
    ensures values { IfOk result (λ values. AreValues reader.old.text.now reader.old.at values.frequencies1.items values.frequencies2.items values.points.items reader.new.at) }
{
    let frequencies1 = next_list(reader, alloc)?;
    let frequencies2 = next_list(reader, alloc)?;
    let points = next_list(reader, alloc)?;
    Ok(OwnValues {
        frequencies1,
        frequencies2,
        points,
    })
}
