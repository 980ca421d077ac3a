// What a call answered, and that as text.
use bitcode::{Range, Signature};
use bits::Cursor;
use terms::Reason;
use text::page::Page;

#[derive(Clone, Copy)]
pub enum Value {
    Number(u64),
    Signed(i64),
    Range(Range),
}

#[derive(Clone, Copy)]
pub enum Answer<'a> {
    // A value alone.
    Is(Value),
    Truth(bool),
    // The place that a cursor moved to.
    To(u64),
    // A value, and the place behind it.
    Read(Value, u64),
    // A part, and what is behind it.
    Parts(Cursor, Cursor),
    Header(Signature),
    Bytes(&'a [u8]),
}

// A truth in words.
fn truth(is_so: bool) -> &'static [u8] {
    if is_so { b"yes" } else { b"no" }
}

impl Value {
    fn put(self, page: &mut Page<'_>) {
        match self {
            Value::Number(v) => page.decimal(v),
            Value::Signed(v) => page.signed(v),
            Value::Range(r) => {
                page.decimal(r.start);
                page.named(b"..", r.end);
            }
        }
    }
}

impl Answer<'_> {
    fn put(self, page: &mut Page<'_>) {
        match self {
            Answer::Is(value) => value.put(page),
            Answer::Truth(is_so) => page.bytes(truth(is_so)),
            Answer::To(at) => page.named(b"at ", at),
            Answer::Read(value, at) => {
                value.put(page);
                page.named(b" at ", at);
            }
            Answer::Parts(part, behind) => {
                page.named(b"part ", part.at);
                page.named(b" ", part.end);
                page.named(b" then ", behind.at);
            }
            Answer::Header(header) => page.signature(header),
            Answer::Bytes(bytes) => page.hex(bytes),
        }
    }
}

// What a call answered, or the number of why it is refused.
pub fn put_answer(page: &mut Page<'_>, answer: Result<Answer<'_>, Reason>) {
    match answer {
        Ok(answer) => answer.put(page),
        Err(reason) => page.named(b"refused ", reason.number()),
    }
}
