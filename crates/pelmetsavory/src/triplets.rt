// What the Rust has in triplet.rs and triplet_iw.rs.
ghost use Rattle.std.specs.Prelude.{◌≡◌, length};
ghost use Rattle.triplet_types.specs.Types.{type_questions, tp_type_of, channel_count};
ghost use Rattle.ask.specs.Ask.{first_no, after_call};
ghost use Rattle.triplet_study.specs.Lent.{study_in, study_of, study_of_one, with_triplet};
ghost use Rattle.averaging.specs.Answers.{averaging_no, weights_after, flags_after};
ghost use Rattle.triplet_addresses.specs.Normal.{is_n_questions, is_normal};
ghost use Rattle.triplet_addresses.specs.Copies.{copy_questions, both_copies};
ghost use Rattle.statuses.specs.Statuses.{one_of};
ghost use Rattle.pelmetsavory.specs.Calls.{CalledFill};

use crate::Triple;
use ask::kernel::status_of;
use averaging::{Averaging, average_weights_over_degenerate_sets};
use triplet_study::{Shape, Study};

// The status of the weights of all triplets.
fn status_of_weights(study: Study, weights: &mut [f64], flags: &mut [i8]) -> u64
    ensures { CalledFill (study_of study.entry) weights flags result }
{
    status_of(triplet::integration_weight(study, weights, flags))
}

// The status of the weights of one triplet.
fn status_of_triplet(study: Study, triplet: [i64; 3], weights: &mut [f64], flags: &mut [i8]) -> u64
    ensures { CalledFill (with_triplet study.entry triplet) weights flags result }
{
    status_of(triplet_iw::integration_weight_per_triplet(study, triplet, weights, flags))
}

// The parameters of the next function are the C interface: a struct in their place would be another version of it.

// The weights and flags of all triplets. Questions 3 to 12.
#[unsafe(no_mangle)]
pub extern "C" fn pelmetsavory_integration_weight(
    shape: Shape,
    addresses: &[i64],
    gp_map: &[i64],
    relative_grid_address: &[i64],
    frequencies1: &[f64],
    frequencies2: &[f64],
    frequency_points: &[f64],
    triplets: &[i64],
    weights: &mut [f64],
    flags: &mut [i8],
) -> u64
    ensures { CalledFill (study_in shape addresses gp_map relative_grid_address frequencies1 frequencies2 frequency_points triplets)
        weights flags result }
{
    let study = Study {
        shape,
        addresses,
        gp_map,
        relative_grid_address,
        frequencies1,
        frequencies2,
        frequency_points,
        triplets,
    };
    status_of_weights(study, weights, flags)
}

// The parameters of the next function are the C interface: a struct in their place would be another version of it.

// The weights and flags of one triplet. Questions 3 to 12.
#[unsafe(no_mangle)]
pub extern "C" fn pelmetsavory_integration_weight_per_triplet(
    shape: Shape,
    addresses: &[i64],
    gp_map: &[i64],
    relative_grid_address: &[i64],
    frequencies1: &[f64],
    frequencies2: &[f64],
    frequency_points: &[f64],
    triplet: Triple,
    weights: &mut [f64],
    flags: &mut [i8],
) -> u64
    ensures { CalledFill (study_of_one shape addresses gp_map relative_grid_address frequencies1 frequencies2 frequency_points triplet.numbers)
        weights flags result }
{
    let triplet = triplet.numbers;
    let study = Study {
        shape,
        addresses,
        gp_map,
        relative_grid_address,
        frequencies1,
        frequencies2,
        frequency_points,
        triplets: &[],
    };
    status_of_triplet(study, triplet, weights, flags)
}

// The parameters of the next function are the C interface: a struct in their place would be another version of it.

// Averages the weights and the flags of one triplet in place. Questions 8, 9, 12, 17, 19.
#[unsafe(no_mangle)]
pub extern "C" fn pelmetsavory_average_weights_over_degenerate_sets(
    iw: &mut [f64],
    iw_zero: &mut [i8],
    degenerate_ids1: &[i64],
    degenerate_ids2: &[i64],
    num_band0: i64,
    num_band: i64,
    tp_type: i64,
) -> u64
    ensures value { result ≡ averaging_no iw.old iw_zero.old
        degenerate_ids1.now degenerate_ids2.now num_band0 num_band tp_type }
    ensures iw_after { iw.new ≡ weights_after iw.old iw_zero.old
        degenerate_ids1.now degenerate_ids2.now num_band0 num_band tp_type }
    ensures iw_zero_after { iw_zero.new ≡ flags_after iw.old iw_zero.old
        degenerate_ids1.now degenerate_ids2.now num_band0 num_band tp_type }
{
    let averaging = Averaging {
        degenerate_ids1,
        degenerate_ids2,
        num_band0,
        num_band,
        tp_type,
    };
    status_of(average_weights_over_degenerate_sets(averaging, iw, iw_zero))
}

// Whether the three addresses of a triplet add to zero: 1 or 0, behind `normal`. Questions 5 (without the count) and 10.
#[unsafe(no_mangle)]
pub extern "C" fn pelmetsavory_is_n(
    triplet: Triple,
    bz_grid_addresses: &[i64],
    normal: &mut u8,
) -> u64
    ensures value { result ≡ first_no (is_n_questions triplet.numbers bz_grid_addresses.now) }
    ensures normal_after { normal.new ≡ after_call (first_no (is_n_questions triplet.numbers bz_grid_addresses.now))
        (one_of (is_normal triplet.numbers bz_grid_addresses.now)) normal.old }
{
    let triplet = triplet.numbers;
    statuses::triplets::is_n(triplet, bz_grid_addresses, normal)
}

// Both copies of the neighbour table, one after the other. Questions 7, 8, 12.
#[unsafe(no_mangle)]
pub extern "C" fn pelmetsavory_set_relative_grid_address(
    out: &mut [i64],
    relative_grid_address: &[i64],
    tp_type: i64,
) -> u64
    ensures value { result ≡ first_no (copy_questions relative_grid_address.now tp_type (length out.old)) }
    ensures out_after { out.new ≡ after_call (first_no (copy_questions relative_grid_address.now tp_type (length out.old)))
        (both_copies tp_type relative_grid_address.now) out.old }
{
    let answer = triplet_addresses::set_relative_grid_address(out, relative_grid_address, tp_type);
    status_of(answer)
}

// How many weights a triplet of a type has at a point of a band pair, behind `channels`. Question 8.
#[unsafe(no_mangle)]
pub extern "C" fn pelmetsavory_num_channels(tp_type: i64, channels: &mut usize) -> u64
    ensures value { result ≡ first_no (type_questions tp_type) }
    ensures channels_after { channels.new ≡ after_call (first_no (type_questions tp_type)) (channel_count (tp_type_of tp_type)) channels.old }
{
    statuses::triplets::num_channels(tp_type, channels)
}
