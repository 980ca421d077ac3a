// A question, read off its line: `OP N AT END BYTES`, one space between, BYTES two hex digits a byte and `-` for none.
use crate::call::Call;
use bitcode::Operands;
use bits::Cursor;
use text::scan::{decimal, hex};

// What is asked, with the numbers and the bytes that come with it.
#[derive(Clone, Copy)]
pub struct Question<'a> {
    pub call: Call,
    pub n: u64,
    pub at: u64,
    pub end: u64,
    pub bytes: &'a [u8],
}

impl<'a> Question<'a> {
    // The cursor that it speaks of.
    pub fn cursor(self) -> Cursor {
        Cursor {
            at: self.at,
            end: self.end,
        }
    }

    // The operands that it speaks of.
    pub fn operands(self) -> Operands {
        Operands {
            at: self.at,
            end: self.end,
        }
    }
}

// The question on a line: its bytes go into the buffer.
pub fn question_on<'a>(line: &[u8], bytes: &'a mut [u8]) -> Option<Question<'a>> {
    let mut words = line.splitn(5, |letter| *letter == b' ');
    let [letter] = words.next()? else {
        return None;
    };
    Some(Question {
        call: Call::from_letter(*letter)?,
        n: decimal(words.next()?)?,
        at: decimal(words.next()?)?,
        end: decimal(words.next()?)?,
        bytes: hex(words.next()?, bytes)?,
    })
}
