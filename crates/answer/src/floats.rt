// Floats from their bit patterns.
ghost use Rattle.std.specs.Prelude.{◌≤◌, ◌≡◌, length, take};
ghost use Rattle.answer.specs.Texts.{floats_of};

// Room for the floats of bit patterns.
pub fn reals() -> [f64; 16385]
    ensures { 16385 ≡ length result }
{
    [0.0; 16385]
}

// Stores the floats of bit patterns at the start of out.
pub fn store_floats(patterns: &[u64], out: &mut [f64])
    requires { length patterns.now ≤ length out.old }
    ensures { take (length patterns.now) out.new ≡ floats_of patterns.now }
{
    for (k, pattern) in patterns.iter().enumerate() {
        out[k] = text::kernel::float_of(*pattern);
    }
}

// The floats of bit patterns, where they are then in out.
pub fn fill_floats<'b>(patterns: &[u64], out: &'b mut [f64]) -> &'b [f64]
    requires { length patterns.now ≤ length out.old }
    ensures { result.now ≡ floats_of patterns.now }
{
    store_floats(patterns, out);
    &out[..patterns.len()]
}
