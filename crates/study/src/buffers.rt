// Room for the sections of a study.
ghost use Rattle.std.specs.Prelude.{length};
ghost use Rattle.study.specs.Rooms.{HasRoom};

use crate::{FloatsBuffers, GridBuffers};

// A caller's buffers, as it lends them.
#[derive(Drop)]
pub struct StudyBuffers<'b> {
    pub grid: GridBuffers<'b>,
    pub floats: FloatsBuffers<'b>,
    pub triplets: &'b mut [i64],
    pub ghost room: { HasRoom (length grid.addresses.now) (length grid.gp_map.now) (length floats.f1.now) (length floats.f2.now) (length floats.points.now) (length triplets.now) },
}
