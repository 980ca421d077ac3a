// A line of the list, taken apart: `SKIPS BYTES ANSWER`, one space between.
use text::scan::{behind_word, find_behind, hex, skips, word};

// The block numbers to skip, the input, and the answer that the list has.
#[derive(Clone, Copy)]
pub struct Question<'a> {
    pub skip: &'a [u64],
    pub input: &'a [u8],
    pub answer: &'a [u8],
}

// The question on a line that has an answer too, all that stands behind the second space: the numbers to skip go into the list, the input into the bytes.
pub fn question_on<'a>(
    line: &'a [u8],
    list: &'a mut [u64],
    bytes: &'a mut [u8],
) -> Option<Question<'a>> {
    let first = word(line);
    let question = Question {
        skip: skips(first, list)?,
        input: hex(word(behind_word(line)), bytes)?,
        answer: line.get(find_behind(line, first.len(), b' ') + 1..)?,
    };
    if question.answer.is_empty() {
        return None;
    }
    Some(question)
}
