// The chain of numbers of 32 bits, and a record of it.
ghost use Rattle.std.specs.Prelude.{◌≡◌, length};
ghost use Rattle.test_load.specs.Load.{next, after, frequency, frequencies_from};

// 2^32
const MODULUS: u64 = 0x1_0000_0000;

// The number after x; the product is made in 64 bits.
fn next(x: u32) -> u32
    ensures { result ≡ next x }
{
    ((1664525 * u64::from(x) + 1013904223) % MODULUS) as u32
}

// The frequency of a number.
fn frequency(x: u32) -> f64
    ensures { result ≡ frequency x }
{
    f64::from(x / 65536) / 4096.0
}

// Fills a record with the frequencies of the numbers after x, and gives the last number.
pub fn fill(frequencies: &mut [f64], x: u32) -> u32
    ensures frequencies_after { frequencies.new ≡ frequencies_from x 0 (length frequencies.old) }
    ensures value { result ≡ after x (length frequencies.old) }
{
    let mut last = x;
    for entry in frequencies {
        last = next(last);
        *entry = frequency(last);
    }
    last
}
