// What the writer prints, passed over where it stands in a reader's text. A flag and a weight are those that stand in the text itself.
ghost use Rattle.std.specs.Prelude.{◌+◌, ◌≤◌, ◌<◌, ◌≡◌, eqb, pos, length};
ghost use Rattle.std.specs.Float.{binary64};
ghost use Rattle.std.specs.Float.Ieee.{of_bits, to_bits};
ghost use Rattle.listing.specs.Listings.{number, weight_text};
ghost use Rattle.reading.specs.Passes.{Passes};
ghost use Rattle.listing_line.specs.Lines.{numbers_of, flag_here, weight_here, weights_here, line_here};

use crate::Place;
use listing::kernel::weight_end;
use reading::kernel::Reader;
use text::kernel::{bits_of, float_of, parse_bits};

// Passes over the numbers of a place, a tab after each.
pub fn pass_numbers(reader: &mut Reader<'_>, place: Place) -> Option<()>
    ensures { Passes (numbers_of place) reader.old reader.new result }
{
    reader.pass_decimal(place.triplet as u64, 9)?;
    reader.pass_decimal(place.point as u64, 9)?;
    reader.pass_decimal(place.b1 as u64, 9)?;
    reader.pass_decimal(place.b2 as u64, 9)
}

// The flag where a reader is.
#[tactic(auto, using(crate::proofs::LineLaws::flag_laws))]
pub fn flag_at(reader: &Reader<'_>) -> i8
    requires { reader.now.at < length reader.now.text.now }
    ensures { result ≡ pos (flag_here reader.now.text.now reader.now.at) }
{
    i8::from(reader.text[reader.at] != 48)
}

// Passes over a flag and its tab.
fn pass_flag(reader: &mut Reader<'_>) -> Option<()>
    ensures { Passes (number (flag_here reader.old.text.now reader.old.at) 9) reader.old reader.new result }
{
    let digit = if *reader.text.get(reader.at)? == 48 {
        48
    } else {
        49
    };
    reader.pass_byte(digit)?;
    reader.pass_byte(9)
}

// Whether the writer prints a bit pattern: of the NaNs it prints one.
fn is_printed(pattern: u64) -> bool
    ensures { result ≡ eqb (to_bits binary64 (of_bits binary64 pattern)) pattern }
{
    bits_of(float_of(pattern)) == pattern
}

// The weight where a reader is.
pub fn weight_at(reader: &Reader<'_>) -> f64
    requires { reader.now.at + 16 ≤ length reader.now.text.now }
    ensures { result ≡ weight_here reader.now.text.now reader.now.at }
{
    match parse_bits(&reader.text[reader.at..reader.at + 16]) {
        Some(pattern) => float_of(pattern),
        None => 0.0 / 0.0,
    }
}

// Passes over a weight and the byte after it.
fn pass_weight(reader: &mut Reader<'_>, end: u8) -> Option<()>
    ensures { Passes (weight_text (weight_here reader.old.text.now reader.old.at) end) reader.old reader.new result }
{
    if reader.text.len() - reader.at < 16 {
        return None;
    }
    let pattern = parse_bits(&reader.text[reader.at..reader.at + 16])?;
    if !is_printed(pattern) {
        return None;
    }
    reader.skip(16);
    reader.pass_byte(end)
}

// Passes over the weights of a line, one a channel.
fn pass_weights(reader: &mut Reader<'_>, channels: usize) -> Option<()>
    ensures { Passes (weights_here channels reader.old.text.now reader.old.at) reader.old reader.new result }
{
    for c in 0..channels {
        pass_weight(reader, weight_end(channels, c))?;
    }
    Some(())
}

// Passes over the line of a place.
pub fn pass_line(reader: &mut Reader<'_>, place: Place, channels: usize) -> Option<()>
    ensures { Passes (line_here place channels reader.old.text.now reader.old.at) reader.old reader.new result }
{
    pass_numbers(reader, place)?;
    pass_flag(reader)?;
    pass_weights(reader, channels)
}
