// A sheet: its content read, and held to the stored one.
ghost use Rattle.std.specs.Prelude.{◌≡◌, length, IfOk};
ghost use Rattle.list_laws.specs.Lists.{tabulate};
ghost use Rattle.replay_input.specs.Fields.{after_bits, field_place};
ghost use Rattle.replay_sheet.specs.Content.{bits_from, IsSheet, SheetRead, same_sheet, after_sheet};

use replay_input::reader::Reader;
use replay_study::owned::next_numbers;
use sheet_tally::Tally;
use std::alloc::{AllocError, Global};

// A sheet as its calls change it: weights, flags, marks, and the tally.
#[derive(Drop)]
pub struct Sheet {
    pub weights: Vec<f64>,
    pub flags: Vec<i8>,
    pub marks: Vec<u8>,
    pub tally: Tally,
}

// Reads weights, flags and marks into lent buffers.
// Beside `next_sheet`, which takes memory and can fail for want of it: this one cannot.
#[tactic(auto, unfolding(crate::specs::Content::SheetRead, crate::specs::Content::flag_from, crate::specs::Content::mark_from, replay_input::specs::Fields::value_from, replay_input::specs::Fields::real_at, replay_input::specs::Fields::real_from, replay_input::specs::Fields::flag_at, replay_input::specs::Fields::whole_from, replay_input::specs::Fields::mark_at))]
pub fn read_sheet(reader: &mut Reader<'_>, weights: &mut [f64], flags: &mut [i8], marks: &mut [u8])
    ensures text { reader.new ≡ record reader.old { at = reader.new.at } }
    ensures read { SheetRead reader.old.text.now reader.old.at weights.old weights.new flags.old flags.new marks.old marks.new reader.new.at }
{
    reader.fill(weights);
    reader.fill(flags);
    reader.fill(marks);
}

// Whether weights, flags and marks are those that come next: three lists against a text, which no derive compares. All of that is read.
pub fn same_sheet(reader: &mut Reader<'_>, weights: &[f64], flags: &[i8], marks: &[u8]) -> bool
    ensures agrees { result ≡ same_sheet reader.old.text.now reader.old.at weights.now flags.now marks.now }
    ensures next { reader.new ≡ record reader.old { at = after_sheet reader.old.text.now reader.old.at (length weights.now) (length flags.now) (length marks.now) } }
{
    let weights = reader.agrees_with(weights);
    let flags = reader.agrees_with(flags);
    let marks = reader.agrees_with(marks);
    weights & flags & marks
}

impl Sheet {
    // Whether the content is the one that comes next. All of that is read.
    pub fn is_stored(&self, reader: &mut Reader<'_>) -> bool
        ensures agrees { result ≡ same_sheet reader.old.text.now reader.old.at self.now.weights.items self.now.flags.items self.now.marks.items }
        ensures next { reader.new ≡ record reader.old { at = after_sheet reader.old.text.now reader.old.at (length self.now.weights.items) (length self.now.flags.items) (length self.now.marks.items) } }
    {
        same_sheet(
            reader,
            self.weights.as_slice(),
            self.flags.as_slice(),
            self.marks.as_slice(),
        )
    }
}

// The sixteen counts of a tally.
#[tactic(auto, unfolding(crate::specs::Content::bits_from, replay_input::specs::Fields::value_from))]
pub fn next_tally(reader: &mut Reader<'_>) -> Tally
    ensures counts { result.runs ≡ tabulate 16 (bits_from reader.old.text.now reader.old.at) }
    ensures next { reader.new ≡ record reader.old { at = field_place (after_bits reader.old.text.now) reader.old.at 16 } }
{
    let mut runs = [0u64; 16];
    reader.fill(&mut runs);
    Tally { runs }
}

// How many weights, flags and marks a sheet has.
#[derive(Clone, Copy)]
pub struct Lengths {
    pub weights: usize,
    pub flags: usize,
    pub marks: usize,
}

// A sheet of such lengths: weights, flags, marks, then the sixteen counts.
#[tactic(auto, unfolding(crate::specs::Content::IsSheet))]
pub fn next_sheet(
    reader: &mut Reader<'_>,
    alloc: Global,
    lengths: Lengths,
) -> Result<Sheet, AllocError>
    ensures same_text { reader.new.text ≡ reader.old.text }
    ensures sheet { IfOk result (λ sheet. IsSheet reader.old.text.now reader.old.at lengths.weights lengths.flags lengths.marks sheet.weights.items sheet.flags.items sheet.marks.items sheet.tally.runs reader.new.at) }
{
    Ok(Sheet {
        weights: next_numbers(reader, alloc, lengths.weights)?,
        flags: next_numbers(reader, alloc, lengths.flags)?,
        marks: next_numbers(reader, alloc, lengths.marks)?,
        tally: next_tally(reader),
    })
}
