// Replays stored test frequencies. A record: start, the lengths of the three buffers, then the values of the first frequency record, of the
// second and of the points, each by its bits.
//
// Nothing is asked of such a call, so each case is to be accepted.

#![tactic(auto)]

use anyhow::Result;
use replay_input::kernel::at_most;
use replay_input::reader::Reader;
use replay_report::blocks::{Case, Only, replay_blocks};
use replay_report::cases::{Cases, Judged};
use std::alloc::{AllocError, Global};

// What a buffer holds before a call: no frequency.
const NO_FREQUENCY: f64 = -1.5e300;

// More values than any buffer of a record has.
const MOST: usize = 1200;

#[derive(Debug, Default, Drop)]
struct TestFrequencies;

impl Case for TestFrequencies {
    fn next_case(reader: &mut Reader<'_>, _alloc: Global) -> Result<Judged, AllocError> {
        let start = (reader.next_count() % 0x1_0000_0000) as u32;
        let length1 = at_most(reader.next_count(), MOST);
        let length2 = at_most(reader.next_count(), MOST);
        let length3 = at_most(reader.next_count(), MOST);
        let mut room1 = [NO_FREQUENCY; MOST];
        let mut room2 = [NO_FREQUENCY; MOST];
        let mut room3 = [NO_FREQUENCY; MOST];
        let frequencies1 = &mut room1[..length1];
        let frequencies2 = &mut room2[..length2];
        let points = &mut room3[..length3];
        test_load::fill_frequencies(start, frequencies1, frequencies2, points);
        let first = reader.agrees_with(frequencies1);
        let second = reader.agrees_with(frequencies2);
        let third = reader.agrees_with(points);
        Ok(Judged {
            refusal: 0,
            agrees: first && second && third,
        })
    }
}

fn main(rt: HostRuntime) -> Result<()> {
    replay_blocks::<Only<TestFrequencies>>(
        &rt,
        rt.alloc(),
        Cases::new("test frequencies", "test frequencies"),
    )
}
