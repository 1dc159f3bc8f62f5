// What the Rust has in triplet.rs and triplet_iw.rs.
ghost use Rattle.std.specs.Prelude.{◌≡◌};
ghost use Rattle.ask.specs.Ask.{first_no, after_call};
ghost use Rattle.triplet_types.specs.Types.{type_questions, tp_type_of, channel_count};
ghost use Rattle.triplet_addresses.specs.Normal.{is_n_questions, is_normal};
ghost use Rattle.statuses.specs.Statuses.{one_of};

use crate::store::store;
use triplet_types::TpType;

// Whether the three addresses of a triplet add to zero: 1 or 0, behind `normal`. Questions 5 (without the count) and 10.
pub fn is_n(triplet: [i64; 3], bz_grid_addresses: &[i64], normal: &mut u8) -> u64
    ensures value { result ≡ first_no (is_n_questions triplet bz_grid_addresses.now) }
    ensures normal_after { normal.new ≡ after_call (first_no (is_n_questions triplet bz_grid_addresses.now))
        (one_of (is_normal triplet bz_grid_addresses.now)) normal.old }
{
    store(
        triplet_addresses::is_n(triplet, bz_grid_addresses).map(u8::from),
        normal,
    )
}

// How many weights a triplet of a type has at a point of a band pair, behind `channels`. Question 8.
pub fn num_channels(tp_type: i64, channels: &mut usize) -> u64
    ensures value { result ≡ first_no (type_questions tp_type) }
    ensures channels_after { channels.new ≡ after_call (first_no (type_questions tp_type)) (channel_count (tp_type_of tp_type)) channels.old }
{
    store(
        TpType::try_from(tp_type).map(TpType::num_channels),
        channels,
    )
}
