// Asks one call of the bit layer or of the operand layer, and shows its answer.
//
// Each line of standard input is a question, `OP N AT END BYTES`: a letter, three decimal numbers, and hex digits, two a byte, or `-`. The
// answer is that line, ` -> ` and what the call says, and `?` for a line that is no question. An empty line and one that begins with `#`
// are handed back as they stand. A line has 65,536 bytes at most.
//
//   of Cursor { at: AT, end: END } over BYTES:  r read(N)  p peek(N)  v read_vbr(N)  a align32  s skip_bytes(N)  b read_bytes(N)
//                                               t take_slice(N)  l unconsumed_bit_len  e is_at_end
//   read_scalar_operand at that cursor:         f Fixed(N)  w Vbr(N)  c Char6  k Literal(N)
//   of the input BYTES:                         h Signature::parse  m Signature::stream  o blob at AT of N bytes
//   of Operands { at: AT, end: END } over the numbers that BYTES make, eight a number, the lowest first:
//                                               1 u8  2 u16  4 u32  8 u64  z bool  g i64  n range
//   of N alone:                                 i signed(N)
#![tactic(auto)]

mod answer;
mod ask;
mod call;
mod scan;

use answer::put_answer;
use ask::answer_to;
use scan::question_on;
use text::feed::{Line, zeros};
use text::page::Page;
use text::scan::is_asking;

// The most bytes of a question.
const MOST_BYTES: usize = 256;

// What holds the longest line, its line end, and the longest answer: ` -> ` and 256 bytes in hex.
const MOST: usize = 66_560;

const ROOM: usize = 133_120;

// The answer to a line that is neither empty nor a comment.
fn put_reply(page: &mut Page<'_>, line: &[u8]) {
    let mut bytes = [0u8; MOST_BYTES];
    page.bytes(b" -> ");
    match question_on(line, &mut bytes) {
        Some(q) => put_answer(page, answer_to(q)),
        None => page.byte(b'?'),
    }
}

// The line, its answer, and a line end.
fn put_line(page: &mut Page<'_>, line: &[u8]) {
    page.bytes(line);
    if is_asking(line) {
        put_reply(page, line);
    }
    page.byte(b'\n');
}

// Answers every line of the input.
fn answer_all(text: &mut [u8], page: &mut Page<'_>) {
    let mut next = Line::first(text);
    while let Some(line) = next {
        let a = line.start;
        let e = line.end;
        page.make_room(MOST);
        put_line(page, &text[a..e]);
        next = line.behind(text);
    }
    page.flush();
}

fn main() {
    let mut text = io::large_buffer();
    let mut out = zeros::<ROOM>();
    let mut page = Page::new(&mut out, 0);
    answer_all(&mut text, &mut page);
}
