// Texts in a lent buffer: bytes, decimal numbers and lines, put one after the other as far as there is room.

#![tactic(auto)]

ghost use Rattle.std.specs.Prelude.{◌≡◌, [], ◌∷◌, ◌++◌};
ghost use Rattle.text.specs.Decimal.{decimal};
ghost use Rattle.text.specs.Put.{number_line, pair_line};
ghost use Rattle.text.specs.Writes.{Writes};

// A lent buffer, and the place in it from which the next text is put.
#[derive(Drop)]
pub struct Writer<'a> {
    out: &'a mut [u8],
    at: usize,
}

impl<'a> Writer<'a> {
    // Texts are put from a place on, which may be past the end.
    pub fn at(out: &'a mut [u8], at: usize) -> Writer<'a>
        ensures same_reference { result.out.ghost_name ≡ out.entry.ghost_name }
        ensures place { result.at ≡ at }
        ensures unchanged { result.out.now ≡ out.old }
    {
        Writer { out, at }
    }

    // From the front on.
    pub fn new(out: &'a mut [u8]) -> Writer<'a>
        ensures same_reference { result.out.ghost_name ≡ out.entry.ghost_name }
        ensures front { result.at ≡ 0 }
        ensures unchanged { result.out.now ≡ out.old }
    {
        Writer { out, at: 0 }
    }

    // The place that the next text is put at: from the front on, how many bytes have been put.
    pub fn written(&self) -> usize
        ensures { result ≡ self.now.at }
    {
        self.at
    }

    fn put_byte(&mut self, byte: u8)
        ensures { Writes (byte ∷ []) self.old self.new }
    {
        if self.at < self.out.len() {
            self.out[self.at] = byte;
            self.at += 1;
        }
    }

    pub fn put(&mut self, bytes: &[u8])
        ensures { Writes bytes.now self.old self.new }
    {
        for byte in bytes {
            self.put_byte(*byte);
        }
    }

    fn put_decimal(&mut self, n: u64)
        ensures { Writes (decimal n) self.old self.new }
    {
        if n < 10 {
            self.put_byte(b'0' + n as u8);
        } else {
            self.put_decimal(n / 10);
            self.put_byte(b'0' + (n % 10) as u8);
        }
    }

    fn end_line(&mut self)
        ensures { Writes (10 ∷ []) self.old self.new }
    {
        self.put_byte(b'\n');
    }

    // A line of a word and a number.
    pub fn put_number_line(&mut self, word: &[u8], n: u64)
        ensures { Writes (number_line word.now n) self.old self.new }
    {
        self.put(word);
        self.put_decimal(n);
        self.end_line();
    }

    // A line of a word and two numbers, a space between them.
    pub fn put_pair_line(&mut self, word: &[u8], first: u64, second: u64)
        ensures { Writes (pair_line word.now first second) self.old self.new }
    {
        self.put(word);
        self.put_decimal(first);
        self.put_byte(b' ');
        self.put_decimal(second);
        self.end_line();
    }
}
