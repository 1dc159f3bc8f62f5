// The counts of a sheet.
ghost use Rattle.std.specs.Prelude.{◌≡◌};
ghost use Rattle.replay_study.specs.Records.{counts_at, after_counts};

use replay_input::reader::Reader;
use sheet_counts::Counts;

// Counts: triplets, points, both band counts.
pub fn next_counts(reader: &mut Reader<'_>) -> Counts
    ensures value { result ≡ counts_at reader.old.text.now reader.old.at }
    ensures next { reader.new ≡ record reader.old { at = after_counts reader.old.text.now reader.old.at } }
{
    Counts {
        num_triplets: reader.next_whole(),
        num_band0: reader.next_whole(),
        num_band1: reader.next_whole(),
        num_band2: reader.next_whole(),
    }
}
