// Replays stored calls that read a listing. A record: status, type, the counts of triplets, points and bands, the lengths of the weights and
// of the flags, and how many bytes the listing has; then the listing and a newline; then, where the status is 0, the weights by their bits and
// the flags.
//
// An accepted call must give the stored record. A refused one must give its number and leave both buffers as they were.

#![tactic(auto)]

use anyhow::Result;
use listing_read::read_listing;
use replay_compare::kernel::Compared;
use replay_input::kernel::at_most;
use replay_input::reader::Reader;
use replay_report::blocks::{Case, Only, replay_blocks};
use replay_report::cases::{Cases, Judged};
use replay_study::counts::next_counts;
use std::alloc::{AllocError, Global};

// What the weights hold before a call: no record stored has such a weight.
const WEIGHT_BEFORE: f64 = -1.5e300;

// What the flags hold before a call: no flag.
const FLAG_BEFORE: i8 = 5;

// More weights or flags than any record has.
const MOST: usize = 1200;

// Whether both buffers are as they were before a call.
fn are_kept(weights: &[f64], flags: &[i8]) -> bool {
    weights.iter().all(|w| w.agrees(WEIGHT_BEFORE)) && flags.iter().all(|f| *f == FLAG_BEFORE)
}

// Whether the flags are those stored next, each as a count: no other number is a flag. All of them are read.
// Not by `agrees_with`, whose flags may have a sign.
fn are_flags_stored(reader: &mut Reader<'_>, flags: &[i8]) -> bool {
    let mut agree = true;
    for flag in flags {
        agree &= match reader.next_count() {
            0 => *flag == 0,
            1 => *flag == 1,
            _ => false,
        };
    }
    agree
}

// Whether the weights and the flags are those stored next. All of them are read.
fn are_stored(reader: &mut Reader<'_>, weights: &[f64], flags: &[i8]) -> bool {
    reader.agrees_with(weights) & are_flags_stored(reader, flags)
}

#[derive(Debug, Default, Drop)]
struct Listings;

impl Case for Listings {
    // The call on two buffers, compared with what is stored for it.
    fn next_case(reader: &mut Reader<'_>, _alloc: Global) -> Result<Judged, AllocError> {
        let refusal = reader.next_count();
        let tp_type = reader.next_whole();
        let counts = next_counts(reader);
        let num_weights = at_most(reader.next_count(), MOST);
        let num_flags = at_most(reader.next_count(), MOST);
        let size = reader.next_count();
        let listing = reader.next_bytes(size);
        let _newline = reader.next_bytes(1);
        let mut weights_room = [WEIGHT_BEFORE; MOST];
        let mut flags_room = [FLAG_BEFORE; MOST];
        let weights = &mut weights_room[..num_weights];
        let flags = &mut flags_room[..num_flags];
        let agrees = match read_listing(listing, tp_type, counts, weights, flags) {
            Ok(()) => refusal == 0 && are_stored(reader, weights, flags),
            Err(why) => why.number() == refusal && are_kept(weights, flags),
        };
        Ok(Judged { refusal, agrees })
    }
}

fn main(rt: HostRuntime) -> Result<()> {
    replay_blocks::<Only<Listings>>(
        &rt,
        rt.alloc(),
        Cases::new("listings read", "listings read"),
    )
}
