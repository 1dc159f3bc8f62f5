// A list of calls, and what they are answered in.
ghost use Rattle.std.specs.Prelude.{length};
ghost use Rattle.sheet_play.specs.Rooms.{HasRoom};

use sheet_calls::Calls;

// The calls of a list, and the buffers for their answers and tallies as a caller lends them.
#[derive(Drop)]
pub struct CallsMut<'a> {
    pub calls: Calls<'a>,
    pub answers: &'a mut [u64],
    pub tallies: &'a mut [u64],
    pub ghost room: { HasRoom (length calls.list.now) (length answers.now) (length tallies.now) },
}
