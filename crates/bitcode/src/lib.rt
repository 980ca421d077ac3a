// The header and the operand readers (src/bitcode.rs of the Rust): the signature with its wrapper, scalar operands, typed operands over a lent
// store, and a blob's part of the input. Each call is total and asks nothing of its caller.
#![tactic(auto)]

ghost use Rattle.std.specs.Prelude.{◌≡◌, ℕ, ◌+◌, ◌*◌, ◌^◌, ◌≤◌, ◌<◌, min, length, take, drop};
ghost use Rattle.bits.specs.Told.{Gives, of_read};
ghost use Rattle.bitcode.specs.Scalar.{ascii, value};
ghost use Rattle.bitcode.specs.declared.ScalarOperand.TheVariants.{Char6};
ghost use Rattle.bitcode.specs.Header.{word, wrapped as wrapped_of, signature, parsed, stream as stream_of, bytes_of, blob_of};
ghost use Rattle.bitcode.specs.Operands.{next, next_below, next_bool, next_signed, next_range, place_of, of_next};

use bits::Cursor;
use terms::Reason;

// The word that a wrapper's header begins with.
pub const LLVM_BITCODE_WRAPPER_MAGIC: u64 = 0x0B17_C0DE;

// How a scalar operand of an abbreviation is read.
#[derive(Clone, Copy, Debug, PartialEq, Eq)]
pub enum ScalarOperand {
    Literal(u64),
    Fixed(u64),
    Vbr(u64),
    Char6,
}

// The header numbers: without a wrapper `offset` is 4, `size` the length of what follows, and the others but `magic` are 0.
#[derive(Clone, Copy, Debug, Default, PartialEq, Eq)]
pub struct Signature {
    pub magic: u64,
    pub magic2: u64,
    pub version: u64,
    pub offset: u64,
    pub size: u64,
    pub cpu: u64,
}

// The operands of a record that are not yet taken: the place of the next one in the operand store, and the place behind the last one.
#[derive(Clone, Copy, Debug, PartialEq, Eq)]
pub struct Operands {
    pub at: u64,
    pub end: u64,
}

// From `start` on, up to `end`, which is not part of it.
#[derive(Clone, Copy, Debug, PartialEq, Eq)]
pub struct Range {
    pub start: u64,
    pub end: u64,
}

// The letter that a six-bit number stands for. What stands behind the two alphabets is settled first, so that each match becomes a choice with no
// branch: a processor can't foresee the letters of a text.
fn letter(v: u64) -> u64
    ensures { result ≡ ascii v }
{
    let behind = match v {
        52..=61 => v - 4,
        62 => 46,
        _ => 95,
    };
    match v {
        0..=25 => v + 97,
        26..=51 => v + 39,
        _ => behind,
    }
}

// A letter of six bits.
pub fn read_char6(c: Cursor, s: &[u8]) -> Result<(u64, Cursor), Reason>
    ensures { Gives c s.now (value Char6) (of_read result) }
{
    let (v, behind) = c.read(s, 6)?;
    Ok((letter(v), behind))
}

// One scalar operand.
pub fn read_scalar_operand(
    c: Cursor,
    s: &[u8],
    operand: ScalarOperand,
) -> Result<(u64, Cursor), Reason>
    ensures { Gives c s.now (value operand) (of_read result) }
{
    match operand {
        ScalarOperand::Literal(v) => Ok((v, c)),
        ScalarOperand::Fixed(w) => c.read(s, w),
        ScalarOperand::Vbr(w) => c.read_vbr(s, w),
        ScalarOperand::Char6 => read_char6(c, s),
    }
}

// The 32-bit word at the byte k, whose four bytes are there, the first one lowest.
fn word_at(s: &[u8], k: usize) -> u64
    requires { k + 4 ≤ length s.now }
    ensures { (result ≡ word s.now k) × (result < 4294967296) }
{
    u64::from(u32::from_le_bytes([s[k], s[k + 1], s[k + 2], s[k + 3]]))
}

// The header of a wrapper: the part of the input that it points to must lie in the input and hold a word.
fn wrapped(input: &[u8]) -> Result<Signature, Reason>
    ensures { result ≡ parsed (wrapped_of input.now) }
{
    if input.len() < 20 {
        return Err(Reason::InvalidSignature);
    }
    let offset = word_at(input, 8);
    let size = word_at(input, 12);
    if (input.len() as u64) < offset + size {
        return Err(Reason::InvalidSignature);
    }
    if size < 4 {
        return Err(Reason::InvalidSignature);
    }
    Ok(Signature {
        magic: word_at(input, 0),
        magic2: word_at(input, offset as usize),
        version: word_at(input, 4),
        offset,
        size,
        cpu: word_at(input, 16),
    })
}

impl Signature {
    // The header numbers of an input, with a wrapper or without one.
    pub fn parse(input: &[u8]) -> Result<Signature, Reason>
        ensures { result ≡ parsed (signature input.now) }
    {
        if input.len() < 4 {
            return Err(Reason::InvalidSignature);
        }
        let magic = word_at(input, 0);
        if magic == LLVM_BITCODE_WRAPPER_MAGIC {
            return wrapped(input);
        }
        Ok(Signature {
            magic,
            magic2: 0,
            version: 0,
            offset: 4,
            size: input.len() as u64 - 4,
            cpu: 0,
        })
    }

    // What a wrapper holds, behind its own magic word.
    fn inner(self, input: &[u8]) -> &[u8]
        requires { (self.offset + self.size ≤ length input.now) × (4 ≤ self.size) }
        ensures { result.now ≡ drop (self.offset + 4) (take (self.offset + self.size) input.now) }
    {
        let a = (self.offset + 4) as usize;
        let e = (self.offset + self.size) as usize;
        &input[a..e]
    }

    // The stream: that very part of the input behind the header, and an empty one where the header is refused.
    pub fn stream(input: &[u8]) -> &[u8]
        ensures { result.now ≡ stream_of (signature input.now) }
    {
        match Signature::parse(input) {
            Err(_) => &input[0..0],
            Ok(h) => {
                if h.magic == LLVM_BITCODE_WRAPPER_MAGIC {
                    return h.inner(input);
                }
                &input[4..]
            }
        }
    }
}

// The bytes of a stream from a place on: that very part of it, and an empty one where it has no such part.
pub fn bytes_of(stream: &[u8], place: u64, length: u64) -> &[u8]
    ensures { result.now ≡ bytes_of stream.now place length }
{
    let have = stream.len() as u64;
    if have < length || have - length < place {
        return &stream[0..0];
    }
    let a = place as usize;
    let e = (place + length) as usize;
    &stream[a..e]
}

// A blob, by the place and the length that its event tells: that very part of the caller's input.
pub fn blob(input: &[u8], place: u64, length: u64) -> &[u8]
    ensures { result.now ≡ blob_of input.now place length }
{
    bytes_of(Signature::stream(input), place, length)
}

impl Operands {
    // `count` operands from the place `first` of the store on. An end past 64 bits is cut off: no store reaches there.
    pub fn new(first: u64, count: u64) -> Self
        ensures { (result.at ≡ first) × (result.end ≡ min (first + count) 18446744073709551615) }
    {
        Self {
            at: first,
            end: first.saturating_add(count),
        }
    }

    // The next operand, whatever it is.
    pub fn u64(self, store: &[u64]) -> Result<(u64, Operands), Reason>
        ensures { Gives (place_of self) store.now next (of_next result) }
    {
        let at = self.at;
        if self.end <= at {
            return Err(Reason::EndOfRecord);
        }
        if (store.len() as u64) <= at {
            return Err(Reason::EndOfRecord);
        }
        Ok((store[at as usize], Operands { at: at + 1, ..self }))
    }

    // The next operand, which must be below the bound: the bound is the power of 2 that the width of the operand's type tells.
    fn below(self, store: &[u64], bound: u64) -> Result<(u64, Operands), Reason>
        ensures { (w : ℕ) → bound ≡ 2 ^ w → Gives (place_of self) store.now (next_below w) (of_next result) }
    {
        let (v, rest) = self.u64(store)?;
        if v < bound {
            return Ok((v, rest));
        }
        Err(Reason::ValueOverflow)
    }

    // One that fits 32 bits.
    pub fn u32(self, store: &[u64]) -> Result<(u32, Operands), Reason>
        ensures { Gives (place_of self) store.now (next_below 32) (of_next result) }
    {
        let (v, rest) = self.below(store, 0x1_0000_0000)?;
        Ok((v as u32, rest))
    }

    // One that fits 16 bits.
    pub fn u16(self, store: &[u64]) -> Result<(u16, Operands), Reason>
        ensures { Gives (place_of self) store.now (next_below 16) (of_next result) }
    {
        let (v, rest) = self.below(store, 0x1_0000)?;
        Ok((v as u16, rest))
    }

    // One that fits 8 bits.
    pub fn u8(self, store: &[u64]) -> Result<(u8, Operands), Reason>
        ensures { Gives (place_of self) store.now (next_below 8) (of_next result) }
    {
        let (v, rest) = self.below(store, 0x100)?;
        Ok((v as u8, rest))
    }

    // 0 is false and 1 is true.
    pub fn bool(self, store: &[u64]) -> Result<(bool, Operands), Reason>
        ensures { Gives (place_of self) store.now next_bool (of_next result) }
    {
        let (v, rest) = self.u64(store)?;
        match v {
            0 => Ok((false, rest)),
            1 => Ok((true, rest)),
            _ => Err(Reason::ValueOverflow),
        }
    }

    // A signed number: the lowest bit is the sign.
    pub fn i64(self, store: &[u64]) -> Result<(i64, Operands), Reason>
        ensures { Gives (place_of self) store.now next_signed (of_next result) }
    {
        let (v, rest) = self.u64(store)?;
        Ok((bits::signed(v), rest))
    }

    // A start and a length, which are taken both before their sum is judged.
    pub fn range(self, store: &[u64]) -> Result<(Range, Operands), Reason>
        ensures { Gives (place_of self) store.now next_range (of_next result) }
    {
        let (start, behind) = self.u64(store)?;
        let (n, rest) = behind.u64(store)?;
        match start.checked_add(n) {
            Some(end) => Ok((Range { start, end }, rest)),
            None => Err(Reason::ValueOverflow),
        }
    }
}
