// Holds the walk against a list of answers that the Rust gave, with no Rust at hand. The list is standard input; a line of it is
//
//   SKIPS BYTES ANSWER
//
// SKIPS are the block numbers to skip with commas between them, or `-`; BYTES is the input in hex digits, or `-`; ANSWER, all that stands behind the
// second space, is the Rust's answer:
//
//   NUMBER FIRST SECOND                      a refusal: its number and its two details, in decimal as every number here
//   0 MAGIC MAGIC2 VERSION OFFSET SIZE CPU   accepted: the header numbers; then, each behind a space, the events:
//     +BLOCK/WIDTH                           a block is entered
//     -BLOCK                                 a block is left
//     =BLOCK,CODE                            a record, and for each operand `,OPERAND`; then its payload, if it has one: `a` and the elements with commas
//                                            between them for an array, `c` and the letters' codes for one of Char6, `b` and two hex digits a byte for a blob
//     ~BLOCK                                 a block is skipped
//
// Places and the lengths of bodies are left out: the Rust does not tell them. The input is walked with stores of 8,192 numbers, and what the walk tells is
// put in the same notation. Where the two are the same nothing is printed; where they differ, the line as it stands and behind it `  ours ` and our answer.
// An empty line and one that begins with `#` are handed back as they stand, and one that is no question with `  ?` behind it. The last line is
// `N answers, M the same`. A line has 65,536 bytes at most.
#![tactic(auto)]

mod answer;
mod hold;
mod scan;

use hold::held;
use scan::{Question, question_on};
use text::feed::{Line, zeros};
use text::front;
use text::page::Page;
use text::scan::{MOST_SKIPS, is_asking};

// The numbers of each of the two stores that are lent.
const STORE: usize = 8_192;

// The most bytes that a line has for an input.
const INPUT: usize = 32_768;

// The room for an answer of ours: more than a line has. One that fills it is never taken for the same: it may be cut.
const OURS: usize = 131_072;

// What holds a line, an answer of ours, and the few letters around them.
const MOST: usize = 196_672;

const ROOM: usize = 262_144;

// What the list comes to so far: the page that is printed, how many answers there were, and how many of them were the same.
#[derive(Drop)]
struct Tally<'a> {
    page: Page<'a>,
    answers: u64,
    same: u64,
}

impl Tally<'_> {
    // A line as it stands, and its line end.
    fn put_line(&mut self, line: &[u8]) {
        self.page.bytes(line);
        self.page.byte(b'\n');
    }

    // One more answer, which is the same as ours or not.
    fn count(&mut self, same: bool) {
        self.answers = self.answers.saturating_add(1);
        if same {
            self.same = self.same.saturating_add(1);
        }
    }

    // The last line.
    fn put_total(&mut self) {
        self.page.decimal(self.answers);
        self.page.named(b" answers, ", self.same);
        self.page.bytes(b" the same\n");
    }
}

// What every question is lent: the room for our answer, and the walk's two stores.
#[derive(Drop)]
struct Lent<'a> {
    ours: &'a mut [u8],
    events: &'a mut [u64],
    operands: &'a mut [u64],
}

// Holds the answer of the list on a line against ours.
fn judge(t: &mut Tally, lent: &mut Lent, line: &[u8], q: Question) {
    let h = held(
        q.answer,
        lent.ours,
        q.input,
        q.skip,
        lent.events,
        lent.operands,
    );
    t.count(h.same);
    if !h.same {
        t.put_line(line);
        t.page.bytes(b"  ours ");
        t.put_line(front(lent.ours, h.fill));
    }
}

// A line that is neither empty nor a comment.
fn ask(t: &mut Tally, lent: &mut Lent, line: &[u8]) {
    let mut list = [0u64; MOST_SKIPS];
    let mut bytes = [0u8; INPUT];
    match question_on(line, &mut list, &mut bytes) {
        Some(q) => judge(t, lent, line, q),
        None => {
            t.put_line(line);
            t.page.bytes(b"  ?\n");
        }
    }
}

// A line of the list.
fn take_line(t: &mut Tally, lent: &mut Lent, line: &[u8]) {
    if is_asking(line) {
        ask(t, lent, line);
    } else {
        t.put_line(line);
    }
}

// Takes every line of the list; room is made behind each, so that the last line of the output has it too.
fn take_all(t: &mut Tally, lent: &mut Lent, text: &mut [u8]) {
    let mut next = Line::first(text);
    while let Some(line) = next {
        let a = line.start;
        let e = line.end;
        take_line(t, lent, &text[a..e]);
        t.page.make_room(MOST);
        next = line.behind(text);
    }
    t.put_total();
    t.page.flush();
}

fn main() {
    let mut text = io::large_buffer();
    let mut out = zeros::<ROOM>();
    let mut tally = Tally {
        page: Page::new(&mut out, 0),
        answers: 0,
        same: 0,
    };
    let mut lent = Lent {
        ours: &mut zeros::<OURS>(),
        events: &mut [0; STORE],
        operands: &mut [0; STORE],
    };
    take_all(&mut tally, &mut lent, &mut text);
}
