// The study of the calls after its record.
ghost use Rattle.std.specs.Prelude.{◌≡◌, IfOk};
ghost use Rattle.replay_calls.specs.Studies.{IsStudy};

use replay_input::reader::Reader;
use replay_study::owned::{OwnGrid, OwnValues, next_list, next_values};
use sheet::{Shape, Study};
use std::alloc::{AllocError, Global};

// A study: type, both band counts, the values, list of triplets.
#[derive(Debug, Drop)]
pub struct OwnStudy {
    pub tp_type: i64,
    pub num_band1: i64,
    pub num_band2: i64,
    pub values: OwnValues,
    pub triplets: Vec<i64>,
}

#[tactic(auto, unfolding(crate::specs::Studies::IsStudy, replay_study::specs::Records::AreValues))]
pub fn next_study(reader: &mut Reader<'_>, alloc: Global) -> Result<OwnStudy, AllocError>
    ensures same_text { reader.new.text ≡ reader.old.text }
    ensures study { IfOk result (λ study. IsStudy reader.old.text.now reader.old.at study.tp_type study.num_band1 study.num_band2 study.values.frequencies1.items study.values.frequencies2.items study.values.points.items study.triplets.items reader.new.at) }
{
    let tp_type = reader.next_whole();
    let num_band1 = reader.next_whole();
    let num_band2 = reader.next_whole();
    let values = next_values(reader, alloc)?;
    let triplets = next_list(reader, alloc)?;
    Ok(OwnStudy {
        tp_type,
        num_band1,
        num_band2,
        values,
        triplets,
    })
}

impl OwnStudy {
    // The study as it is lent to a call, on a grid and with a table.
    pub fn lent<'a>(&'a self, grid: &'a OwnGrid, table: &'a [i64]) -> Study<'a>
        ensures shape { (result.shape.tp_type ≡ self.now.tp_type) × (result.shape.num_band1 ≡ self.now.num_band1) × (result.shape.num_band2 ≡ self.now.num_band2) }
        ensures grid { (result.shape.bz_grid_type ≡ grid.now.bz_grid_type) × (result.shape.d_diag ≡ grid.now.d_diag) × (result.addresses.now ≡ grid.now.addresses.items) × (result.gp_map.now ≡ grid.now.gp_map.items) }
        ensures lists { (result.relative_grid_address.now ≡ table.now) × (result.frequencies1.now ≡ self.now.values.frequencies1.items) × (result.frequencies2.now ≡ self.now.values.frequencies2.items) }
        ensures points { (result.frequency_points.now ≡ self.now.values.points.items) × (result.triplets.now ≡ self.now.triplets.items) }
    {
        let d_diag = grid.d_diag;
        let shape = Shape {
            bz_grid_type: grid.bz_grid_type,
            d_diag,
            tp_type: self.tp_type,
            num_band1: self.num_band1,
            num_band2: self.num_band2,
        };
        Study {
            shape,
            addresses: grid.addresses.as_slice(),
            gp_map: grid.gp_map.as_slice(),
            relative_grid_address: table,
            frequencies1: self.values.frequencies1.as_slice(),
            frequencies2: self.values.frequencies2.as_slice(),
            frequency_points: self.values.points.as_slice(),
            triplets: self.triplets.as_slice(),
        }
    }
}
