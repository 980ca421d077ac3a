// A page: a lent buffer, and how many of its bytes are in use. What is written onto it goes behind these, and what does not fit is left out.
ghost use Rattle.std.specs.Prelude.{◌≡◌, ◌<◌, [], ◌∷◌, ◌++◌, take};
ghost use Rattle.io.specs.Digits.{hex_digit_ascii};
ghost use Rattle.text.specs.Text.{decimal, signed, word, pair, pairs, hex, item, items};
ghost use Rattle.text.specs.Page.{Opens, Writes};

use crate::front;

#[derive(Drop)]
pub struct Page<'a> {
    pub bytes: &'a mut [u8],
    pub fill: usize,
}

fn hex_digit(d: u8) -> u8
    requires { d < 16 }
    ensures { result ≡ hex_digit_ascii d }
{
    if d < 10 { d + 48 } else { d + 87 }
}

impl<'a> Page<'a> {
    // A page of a buffer of which so many bytes are in use.
    pub fn new(bytes: &'a mut [u8], fill: usize) -> Page<'a>
        ensures { Opens result bytes.entry fill }
    {
        Page { bytes, fill }
    }

    // The whole buffer.
    pub(crate) fn buffer(&self) -> &[u8]
        ensures { result.now ≡ self.now.bytes.now }
    {
        self.bytes
    }

    // What is in use of the buffer.
    pub fn written(&self) -> &[u8]
        ensures { result.now ≡ take self.now.fill self.now.bytes.now }
    {
        front(self.bytes, self.fill)
    }

    pub fn byte(&mut self, b: u8)
        ensures { Writes self.old self.new (b ∷ []) }
    {
        if self.fill < self.bytes.len() {
            self.bytes[self.fill] = b;
            self.fill += 1;
        }
    }

    pub fn bytes(&mut self, s: &[u8])
        ensures { Writes self.old self.new s.now }
    {
        for b in s {
            self.byte(*b);
        }
    }

    pub fn decimal(&mut self, v: u64)
        ensures { Writes self.old self.new (decimal v) }
    {
        let mut digits = [0u8; 20];
        let n = io::decimal(v, &mut digits);
        self.bytes(&digits[..n]);
    }

    // A number behind the text that says what it is.
    pub fn named(&mut self, name: &[u8], v: u64)
        ensures { Writes self.old self.new (name.now ++ decimal v) }
    {
        self.bytes(name);
        self.decimal(v);
    }

    pub fn signed(&mut self, v: i64)
        ensures { Writes self.old self.new (signed v) }
    {
        if v < 0 {
            self.byte(b'-');
        }
        self.decimal(v.unsigned_abs());
    }

    // Eight hex digits, and more for a number of more than 32 bits.
    pub fn word(&mut self, v: u64)
        ensures { Writes self.old self.new (word v) }
    {
        let mut digits = [0u8; 16];
        let n = io::hex(v, 8, &mut digits);
        self.bytes(&digits[..n]);
    }

    #[tactic(auto, using(crate::proofs::Pages::writes_then), unfolding(crate::specs::Text::pair))]
    fn pair(&mut self, b: u8)
        ensures { Writes self.old self.new (pair b) }
    {
        self.byte(hex_digit(b / 16));
        self.byte(hex_digit(b % 16));
    }

    // Bytes as hex digits, two a byte; nothing for none.
    pub fn pairs(&mut self, s: &[u8])
        ensures { Writes self.old self.new (pairs s.now) }
    {
        for b in s {
            self.pair(*b);
        }
    }

    // Bytes as hex digits, two a byte, and `-` for none.
    pub fn hex(&mut self, s: &[u8])
        ensures { Writes self.old self.new (hex s.now) }
    {
        if s.is_empty() {
            self.byte(b'-');
        }
        self.pairs(s);
    }

    // A number of a list, with a comma before it unless it is the first.
    fn item(&mut self, i: usize, v: u64)
        ensures { Writes self.old self.new (item i v) }
    {
        if i > 0 {
            self.byte(b',');
        }
        self.decimal(v);
    }

    // Numbers in decimal with commas between them; nothing for none.
    pub fn numbers(&mut self, numbers: &[u64])
        ensures { Writes self.old self.new (items 0 numbers.now) }
    {
        for (i, v) in numbers.iter().enumerate() {
            self.item(i, *v);
        }
    }
}
