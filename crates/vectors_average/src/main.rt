// Replays stored answers of the original Rust on the averaging over degenerate sets, and the numbers that a refused call is to give.
// A record: refusal, type, count of points, count of bands, list of ids1, list of ids2, then for the weights and for the flags the
// length of the buffer, the list that it is filled with over and over, and what it holds afterwards as runs (list of lengths, list of
// values).
//
// Refusal 0 is an accepted call. A refused one has no runs: it must leave both buffers as they were. Weights are compared by bits.

#![tactic(auto)]

use anyhow::Result;
use averaging::{Averaging, average_weights_over_degenerate_sets};
use numbers::kernel::magnitude;
use replay_compare::kernel::Compared;
use replay_input::kernel::at_most;
use replay_input::reader::{Field, Reader};
use replay_report::blocks::{Case, Only, replay_blocks};
use replay_report::cases::{Cases, Judged, stored};
use std::alloc::{AllocError, Global};

// More numbers than any list of a record has.
const MOST: usize = 4200;

// More weights or flags than any buffer has.
const ROOM: usize = 12300;

// What is stored of one buffer: its length, the list that it is filled with, and its runs afterwards.
#[derive(Drop)]
struct Stored<'a, T> {
    room: u64,
    given: &'a mut [T],
    lengths: &'a mut [i64],
    values: &'a mut [T],
}

// A list, to the start of a room and cut to it.
fn next_in<'a, T: Field>(reader: &mut Reader<'_>, room: &'a mut [T]) -> &'a mut [T] {
    let count = reader.fill_list(room);
    &mut room[..count]
}

fn next_stored<'a, T: Field>(
    reader: &mut Reader<'_>,
    given: &'a mut [T],
    lengths: &'a mut [i64],
    values: &'a mut [T],
) -> Stored<'a, T> {
    let room = reader.next_count();
    let given = next_in(reader, given);
    let lengths = next_in(reader, lengths);
    let values = next_in(reader, values);
    Stored {
        room,
        given,
        lengths,
        values,
    }
}

// 5 and 9, which the reader takes for flags, are none of this program's.
fn only_own_flags(flags: &mut [i8]) {
    for flag in flags.iter_mut() {
        if *flag == 5 || *flag == 9 {
            *flag = -128;
        }
    }
}

// A list over and over, up to the buffer's length; of an empty one nothing.
// The same stands in vectors_triplet: shared, it would be a public function with a contract of its own.
fn repeat<T: Copy>(list: &[T], buffer: &mut [T]) {
    for (entry, value) in buffer.iter_mut().zip(list.iter().cycle()) {
        *entry = *value;
    }
}

// Whether a buffer still holds the list over and over.
fn is_kept<T: Compared>(list: &[T], buffer: &[T]) -> bool {
    buffer
        .iter()
        .zip(list.iter().cycle())
        .all(|(entry, value)| entry.agrees(*value))
}

// What is behind a run of equal values at the front of a buffer; none where there is no such run.
fn behind_run<T: Compared>(buffer: &[T], length: usize, value: T) -> Option<&[T]> {
    let (run, behind) = buffer.split_at_checked(length)?;
    run.iter()
        .all(|entry| entry.agrees(value))
        .then_some(behind)
}

// Whether the runs, one after another, are the whole buffer.
fn are_runs<T: Compared>(lengths: &[i64], values: &[T], buffer: &[T]) -> bool {
    let mut left = buffer;
    for (length, value) in lengths.iter().zip(values) {
        let Some(behind) = behind_run(left, magnitude(*length), *value) else {
            return false;
        };
        left = behind;
    }
    left.is_empty() && lengths.len() == values.len()
}

// Whether a buffer is as it is to be after the call: its runs, or what it was where the call is refused.
fn is_stored<T: Compared>(stored: &Stored<'_, T>, refusal: u64, buffer: &[T]) -> bool {
    if refusal == 0 {
        are_runs(stored.lengths, stored.values, buffer)
    } else {
        is_kept(stored.given, buffer)
    }
}

#[derive(Debug, Default, Drop)]
struct Averages;

impl Case for Averages {
    // No memory is taken: each list has a room of its own.
    fn next_case(reader: &mut Reader<'_>, _alloc: Global) -> Result<Judged, AllocError> {
        let refusal = reader.next_count();
        let tp_type = reader.next_whole();
        let num_band0 = reader.next_whole();
        let num_band = reader.next_whole();
        let mut ids1 = [0; MOST];
        let degenerate_ids1 = next_in(reader, &mut ids1);
        let mut ids2 = [0; MOST];
        let degenerate_ids2 = next_in(reader, &mut ids2);
        let averaging = Averaging {
            degenerate_ids1,
            degenerate_ids2,
            num_band0,
            num_band,
            tp_type,
        };
        let mut given = [0.0; MOST];
        let mut lengths = [0; MOST];
        let mut values = [0.0; MOST];
        let weights = next_stored(reader, &mut given, &mut lengths, &mut values);
        let mut given_flags = [0; MOST];
        let mut flag_lengths = [0; MOST];
        let mut flag_values = [0; MOST];
        let flags = next_stored(
            reader,
            &mut given_flags,
            &mut flag_lengths,
            &mut flag_values,
        );
        only_own_flags(flags.given);
        only_own_flags(flags.values);
        let mut iw = [0.0; ROOM];
        let iw = &mut iw[..at_most(weights.room, ROOM)];
        let mut iw_zero = [0; ROOM];
        let iw_zero = &mut iw_zero[..at_most(flags.room, ROOM)];
        repeat(weights.given, iw);
        repeat(flags.given, iw_zero);
        let answer = average_weights_over_degenerate_sets(averaging, iw, iw_zero);
        let agrees = answer.map_err(|why| why.number()) == stored(refusal, ())
            && is_stored(&weights, refusal, iw)
            && is_stored(&flags, refusal, iw_zero);
        Ok(Judged { refusal, agrees })
    }
}

fn main(rt: HostRuntime) -> Result<()> {
    replay_blocks::<Only<Averages>>(&rt, rt.alloc(), Cases::new("averages", "averages"))
}
