// A writer, and what it writes. Each function needs room for exactly what it writes, and keeps every other byte.
ghost use Rattle.std.specs.Prelude.{◌+◌, ◌≤◌, [], ◌∷◌, ◌++◌, ◌≡◌, length};
ghost use Rattle.text.specs.Spelled.{decimal, hexadecimal};
ghost use Rattle.writing.specs.Written.{HasRoom, Wrote};

// A lent buffer, and how many of its first bytes are written.
#[derive(Drop)]
pub struct Writer<'a> {
    pub buffer: &'a mut [u8],
    pub len: usize,
}

impl<'a> Writer<'a> {
    // At the front of a buffer.
    pub fn new(buffer: &'a mut [u8]) -> Writer<'a>
        ensures same_buffer { result.buffer.ghost_name ≡ buffer.entry.ghost_name }
        ensures content { result.buffer.now ≡ buffer.old }
        ensures front { result.len ≡ 0 }
    {
        Writer { buffer, len: 0 }
    }

    // Writes src.
    pub fn put_slice(&mut self, src: &[u8])
        requires { HasRoom src.now self.old }
        ensures { Wrote src.now self.old self.new }
    {
        let end = self.len + src.len();
        self.buffer[self.len..end].copy_from_slice(src);
        self.len = end;
    }

    // Writes one byte.
    pub fn put_byte(&mut self, b: u8)
        requires { HasRoom (b ∷ []) self.old }
        ensures { Wrote (b ∷ []) self.old self.new }
    {
        self.buffer[self.len] = b;
        self.len += 1;
    }

    // Writes a number in decimal, and a byte after it.
    pub fn put_decimal(&mut self, n: u64, end: u8)
        requires { HasRoom (decimal n ++ (end ∷ [])) self.old }
        ensures { Wrote (decimal n ++ (end ∷ [])) self.old self.new }
    {
        let mut digits = [0u8; 20];
        let k = io::decimal(n, &mut digits);
        self.put_slice(&digits[..k]);
        self.put_byte(end);
    }

    // Writes the sixteen hexadecimal digits of 64 bits, and a byte after them.
    pub fn put_bits(&mut self, n: u64, end: u8)
        requires { HasRoom (hexadecimal n ++ (end ∷ [])) self.old }
        ensures { Wrote (hexadecimal n ++ (end ∷ [])) self.old self.new }
    {
        let mut digits = [0u8; 16];
        let k = io::hex(n, 16, &mut digits);
        self.put_slice(&digits[..k]);
        self.put_byte(end);
    }
}
