// The call that a question asks.
#[derive(Clone, Copy)]
pub enum Call {
    // Of a cursor.
    Read,
    Peek,
    ReadVbr,
    Align32,
    SkipBytes,
    ReadBytes,
    TakeSlice,
    UnconsumedBitLen,
    IsAtEnd,
    // A scalar operand at a cursor.
    Fixed,
    Vbr,
    Char6,
    Literal,
    // Of an input.
    Header,
    Stream,
    Blob,
    // The next typed operand.
    U8,
    U16,
    U32,
    U64,
    Bool,
    I64,
    Range,
    // Of a number.
    Signed,
}

impl Call {
    // The call that a letter stands for.
    pub fn from_letter(letter: u8) -> Option<Self> {
        Some(match letter {
            b'r' => Call::Read,
            b'p' => Call::Peek,
            b'v' => Call::ReadVbr,
            b'a' => Call::Align32,
            b's' => Call::SkipBytes,
            b'b' => Call::ReadBytes,
            b't' => Call::TakeSlice,
            b'l' => Call::UnconsumedBitLen,
            b'e' => Call::IsAtEnd,
            b'f' => Call::Fixed,
            b'w' => Call::Vbr,
            b'c' => Call::Char6,
            b'k' => Call::Literal,
            b'h' => Call::Header,
            b'm' => Call::Stream,
            b'o' => Call::Blob,
            b'1' => Call::U8,
            b'2' => Call::U16,
            b'4' => Call::U32,
            b'8' => Call::U64,
            b'z' => Call::Bool,
            b'g' => Call::I64,
            b'n' => Call::Range,
            b'i' => Call::Signed,
            _ => return None,
        })
    }
}
