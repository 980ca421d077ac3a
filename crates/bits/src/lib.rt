// Bits and VBR numbers (src/bits.rs of the Rust): a place in a stream and an end, by value, with the slice lent beside them.
// Each call is total: for any place, any end and any slice it gives its answer or a numbered refusal, and it asks nothing of its caller.
#![tactic(auto)]

ghost use Rattle.std.specs.Prelude.{◌≡◌, ◌+◌, ◌*◌, ◌/◌, ◌%◌, ◌^◌, ◌≤◌, ◌<◌, length, get_or};
ghost use Rattle.bits.specs.Word.{word64};
ghost use Rattle.bits.specs.Bits.{field, limit, read, peek, align, vbr, skip, next_bytes, bits_left, ends_at, signed_of};
ghost use Rattle.bits.specs.Told.{Gives, of_read, of_peek, of_move, Parts};

use terms::{MAX_INPUT, Reason};

// A place in a stream, in bits, and the end of what may be read, in bytes.
#[derive(Clone, Copy)]
pub struct Cursor {
    pub at: u64,
    pub end: u64,
}

// The byte at i, and 0 past the end.
fn byte_at(s: &[u8], i: usize) -> u8
    ensures { result ≡ get_or s.now i 0 }
{
    s.get(i).copied().unwrap_or(0)
}

// The eight bytes from b on, which are there, as one number, the first one lowest: LLVM makes one load of them.
fn eight_there(s: &[u8], b: usize) -> u64
    requires { b + 8 ≤ length s.now }
    ensures { result ≡ word64 s.now b }
{
    u64::from_le_bytes([
        s[b],
        s[b + 1],
        s[b + 2],
        s[b + 3],
        s[b + 4],
        s[b + 5],
        s[b + 6],
        s[b + 7],
    ])
}

// The n low bits of w.
fn low(w: u64, n: u64) -> u64
    requires { (1 ≤ n) × (n ≤ 64) }
    ensures { result ≡ w % 2 ^ n }
{
    (w << (64 - n)) >> (64 - n)
}

// 2 to the k.
fn power(k: u64) -> u64
    requires { k < 64 }
    ensures { result ≡ 2 ^ k }
{
    1 << k
}

// The field of n bits at the place p, which nine bytes hold, all there: what the first eight have from p on, and above it the ninth's low bits.
fn field_nine(s: &[u8], p: u64, n: u64) -> u64
    requires { (n ≤ 64) × (64 < p % 8 + n) × (p / 8 + 9 ≤ length s.now) }
    ensures { result ≡ field s.now p n }
{
    let b = (p / 8) as usize;
    let k = p % 8;
    let m = 64 - k;
    let x = eight_there(s, b) >> k;
    let y = low(u64::from(s[b + 8]), n - m);
    x + (y << m)
}

// The field of n bits at the place p where one load does not have it: by nine bytes, and byte by byte near the end of the slice. It calls
// itself, so that LLVM never inlines it, and `field_at` and all above it stay short enough to be inlined.
fn field_far(s: &[u8], p: u64, n: u64) -> u64
    requires { (1 ≤ n) × (n ≤ 64) × (p + n ≤ 2 ^ 32) }
    ensures { result ≡ field s.now p n }
{
    let b = (p / 8) as usize;
    let k = p % 8;
    if 64 < k + n && b + 9 <= s.len() {
        return field_nine(s, p, n);
    }
    let x = u64::from(byte_at(s, b)) >> k;
    if k + n <= 8 {
        return low(x, n);
    }
    let m = 8 - k;
    let rest = field_far(s, p + m, n - m);
    x + (rest << m)
}

// The field of n bits at the place p: by one load where eight bytes are there and hold it all. The cold call is lent the whole slice anew, so that
// LLVM puts its address and length into memory on the way to that call only.
fn field_at(s: &[u8], p: u64, n: u64) -> u64
    requires { (1 ≤ n) × (n ≤ 64) × (p + n ≤ 2 ^ 32) }
    ensures { result ≡ field s.now p n }
{
    let b = (p / 8) as usize;
    let k = p % 8;
    if b + 8 <= s.len() {
        if k + n <= 64 {
            low(eight_there(s, b) >> k, n)
        } else {
            field_far(&s[0..], p, n)
        }
    } else {
        field_far(&s[0..], p, n)
    }
}

impl Cursor {
    // At the first bit, up to the byte `end`.
    pub fn new(end: u64) -> Self
        ensures { (result.at ≡ 0) × (result.end ≡ end) }
    {
        Self { at: 0, end }
    }

    // The length in bytes: the least of the end, the slice and the limit.
    fn length(self, s: &[u8]) -> u64
        ensures { (8 * result ≡ limit s.now self.end) × (result ≤ 2 ^ 24) × (result ≤ length s.now) }
    {
        self.end.min((s.len() as u64).min(MAX_INPUT))
    }

    // The same in bits.
    fn bits(self, s: &[u8]) -> u64
        ensures { (result ≡ limit s.now self.end) × (result ≤ 2 ^ 27) }
    {
        self.length(s) * 8
    }

    // The next n bits, 1 to 64 of them.
    pub fn read(self, s: &[u8], n: u64) -> Result<(u64, Cursor), Reason>
        ensures { Gives self s.now (read n) (of_read result) }
    {
        if n < 1 || 64 < n {
            return Err(Reason::VbrOverflow);
        }
        let at = self.at;
        let bits = self.bits(s);
        if bits < n {
            return Err(Reason::BufferOverflow);
        }
        if bits - n < at {
            return Err(Reason::BufferOverflow);
        }
        Ok((field_at(s, at, n), Cursor { at: at + n, ..self }))
    }

    // The next n bits, which stay unread.
    pub fn peek(self, s: &[u8], n: u64) -> Result<u64, Reason>
        ensures { Gives self s.now (peek n) (of_peek self result) }
    {
        match self.read(s, n) {
            Ok((v, _)) => Ok(v),
            Err(_) => Err(Reason::BufferOverflow),
        }
    }

    // To the next multiple of 32 bits; no move where the place is one.
    pub fn align32(self, s: &[u8]) -> Result<Cursor, Reason>
        ensures { Gives self s.now align (of_move result) }
    {
        let at = self.at;
        let bits = self.bits(s);
        if bits < at {
            return Err(Reason::BufferOverflow);
        }
        let next = (at + 31) / 32 * 32;
        if bits < next {
            return Err(Reason::BufferOverflow);
        }
        Ok(Cursor { at: next, ..self })
    }

    // A VBR number of chunks of w bits, 1 to 32 of them: `unit` is a chunk's top bit, which says that another chunk follows.
    pub fn read_vbr(self, s: &[u8], w: u64) -> Result<(u64, Cursor), Reason>
        ensures { Gives self s.now (vbr w) (of_read result) }
    {
        if w < 1 || 32 < w {
            return Err(Reason::VbrOverflow);
        }
        let unit = power(w - 1);
        let mut c = self;
        let mut shift: u64 = 0;
        let mut sum: u64 = 0;
        loop {
            match c.read(s, w) {
                Err(e) => break Err(e),
                Ok((v, d)) => {
                    if 64 <= shift {
                        break Err(Reason::VbrOverflow);
                    }
                    sum += (v % unit) << shift;
                    if v < unit {
                        break Ok((sum, d));
                    }
                    shift += w - 1;
                    c = d;
                }
            }
        }
    }

    // Over n bytes, from a byte's first bit on.
    pub fn skip_bytes(self, s: &[u8], n: u64) -> Result<Cursor, Reason>
        ensures { Gives self s.now (skip n) (of_move result) }
    {
        let at = self.at;
        if at % 8 != 0 {
            return Err(Reason::Alignment);
        }
        let length = self.length(s);
        if length < n {
            return Err(Reason::BufferOverflow);
        }
        if length - n < at / 8 {
            return Err(Reason::BufferOverflow);
        }
        Ok(Cursor {
            at: at + 8 * n,
            ..self
        })
    }

    // The next n bytes: that very part of s, and an empty one where `skip_bytes` refuses. The cursor behind them is `skip_bytes`'s.
    pub fn read_bytes(self, s: &[u8], n: u64) -> &[u8]
        ensures { result.now ≡ next_bytes n s.now self.end self.at }
    {
        let from = self.at / 8;
        match self.skip_bytes(s, n) {
            Err(_) => &s[0..0],
            Ok(_) => {
                let a = from as usize;
                let e = (from + n) as usize;
                &s[a..e]
            }
        }
    }

    // A cursor for the next n bytes, from a 32-bit boundary on, and the one behind them. Places stay those of the whole stream.
    pub fn take_slice(self, s: &[u8], n: u64) -> Result<(Cursor, Cursor), Reason>
        ensures { Parts self s.now n result }
    {
        let at = self.at;
        if at % 32 != 0 {
            return Err(Reason::Alignment);
        }
        let behind = self.skip_bytes(s, n)?;
        let part = Cursor {
            at,
            end: at / 8 + n,
        };
        Ok((part, behind))
    }

    // How many bits are left.
    pub fn unconsumed_bit_len(self, s: &[u8]) -> u64
        ensures { result ≡ bits_left s.now self.end self.at }
    {
        self.bits(s).saturating_sub(self.at)
    }

    // Whether no bits are left.
    pub fn is_at_end(self, s: &[u8]) -> bool
        ensures { result ≡ ends_at s.now self.end self.at }
    {
        self.bits(s) <= self.at
    }
}

// A signed number from its unsigned form: the lowest bit is the sign.
pub fn signed(v: u64) -> i64
    ensures { result ≡ signed_of v }
{
    let half = (v / 2) as i64;
    if v % 2 == 0 {
        return half;
    }
    if v == 1 {
        return i64::MIN;
    }
    -half
}
