// The writers need room for exactly what they write, and keep every other byte.
pub mod sheet;

ghost use Rattle.std.specs.Prelude.{◌<◌, ◌≡◌, length};
ghost use Rattle.listing.specs.Listings.{flag_at, front_of, refusal_of, weight_end};
ghost use Rattle.listing.specs.Sheets.{line_in, lines_in, sheet_listing, weights_in};
ghost use Rattle.writing.specs.Written.{HasRoom, Wrote};

pub use sheet::Sheet;
use writing::kernel::Writer;

// A flag as the listing writes it: 0, or 1 for any other.
#[tactic(auto, unfolding(crate::specs::Listings::flag_at))]
fn flag_at(flags: &[i8], e: usize) -> u64
    requires { e < length flags.now }
    ensures { result ≡ flag_at flags.now e }
{
    u64::from(flags[e] != 0)
}

// Writes the front of an entry's line: triplet, point, bands and flag, a tab after each.
#[tactic(auto, using(crate::proofs::ListingLaws::five_rooms), unfolding(crate::specs::Listings::front_of))]
fn put_front(writer: &mut Writer<'_>, t: u64, p: u64, b1: u64, b2: u64, flag: u64)
    requires { HasRoom (front_of t p b1 b2 flag) writer.old }
    ensures { Wrote (front_of t p b1 b2 flag) writer.old writer.new }
{
    writer.put_decimal(t, 9);
    writer.put_decimal(p, 9);
    writer.put_decimal(b1, 9);
    writer.put_decimal(b2, 9);
    writer.put_decimal(flag, 9);
}

// The byte after the weight of channel c.
#[tactic(auto, unfolding(crate::specs::Listings::weight_end))]
pub fn weight_end(channels: usize, c: usize) -> u8
    requires { c < channels }
    ensures { result ≡ weight_end channels c }
{
    if c + 1 == channels { 10 } else { 9 }
}

// Writes the weights of entry number e, channel after channel: a tab after each but the last, a newline after that.
fn put_weights(writer: &mut Writer<'_>, sheet: &Sheet<'_>, e: usize)
    requires entry { e < length sheet.now.flags.now }
    requires room { HasRoom (weights_in sheet.now e) writer.old }
    ensures { Wrote (weights_in sheet.now e) writer.old writer.new }
{
    let total = sheet.flags.len();
    for c in 0..sheet.channels {
        let bits = text::kernel::bits_of(sheet.weights[c * total + e]);
        writer.put_bits(bits, weight_end(sheet.channels, c));
    }
}

// Writes the line of entry number e.
#[tactic(auto, using(writing::proofs::WrittenLaws::room_laws), unfolding(crate::specs::Listings::line_of))]
fn put_line(writer: &mut Writer<'_>, sheet: &Sheet<'_>, e: usize)
    requires entry { e < length sheet.now.flags.now }
    requires room { HasRoom (line_in sheet.now e) writer.old }
    ensures { Wrote (line_in sheet.now e) writer.old writer.new }
{
    let b2 = e % sheet.bands2;
    let b1 = e / sheet.bands2 % sheet.bands1;
    let p = e / sheet.bands2 / sheet.bands1 % sheet.points;
    let t = e / sheet.bands2 / sheet.bands1 / sheet.points;
    let flag = flag_at(sheet.flags, e);
    put_front(writer, t as u64, p as u64, b1 as u64, b2 as u64, flag);
    put_weights(writer, sheet, e);
}

// Writes the lines of all entries, in the order of the flags.
fn put_lines(writer: &mut Writer<'_>, sheet: &Sheet<'_>)
    requires { HasRoom (lines_in sheet.now) writer.old }
    ensures { Wrote (lines_in sheet.now) writer.old writer.new }
{
    for e in 0..sheet.flags.len() {
        put_line(writer, sheet, e);
    }
}

// Writes the listing of a sheet.
pub fn put_listing(writer: &mut Writer<'_>, sheet: &Sheet<'_>)
    requires { HasRoom (sheet_listing sheet.now) writer.old }
    ensures { Wrote (sheet_listing sheet.now) writer.old writer.new }
{
    writer.put_slice(b"triplet\tpoint\tb1\tb2\tflag\tw\n");
    put_lines(writer, sheet);
}

// Writes the line of a refusal.
pub fn put_refusal(writer: &mut Writer<'_>, number: u64)
    requires { HasRoom (refusal_of number) writer.old }
    ensures { Wrote (refusal_of number) writer.old writer.new }
{
    writer.put_slice(b"refused\t");
    writer.put_decimal(number, 10);
}
