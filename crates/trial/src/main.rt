// The test bench of the walk: walks what each line of standard input asks for, and shows the outcome.
//
// A question is a line `SKIPS EVENTS OPERANDS BYTES`: the block numbers to skip with commas between them, or `-`; how many numbers each of the two stores
// has, 8,192 at most; the input in hex digits, 4,096 bytes at most, or `-`. The answer is that line, the dump of the walk, and `stores=zero` if the stores
// are zero behind the last event and operand (for a refusal all over), else `stores=left`: before each walk they hold 18446744073709551615 all over.
//
// The other question is a line `exchange I J K SKIPS EVENTS OPERANDS BYTES`: I, J and K are the bytes of the input where a block begins, where it ends
// and the next one begins, and where that one ends. The input is walked as it stands and with the two blocks' bytes exchanged, with the same numbers to
// skip and stores of the same sizes, and what the walks leave in the stores is held against demand 3. The answer is that line, and one of these:
//
//   was STATUS                                       the input is refused; STATUS is the first line of its dump
//   is STATUS                                        the exchanged input is refused
//   apart                                            other events stand between those of the two blocks
//   differs event=N                                  the event N of the exchanged input is not as demanded, or there are too few or too many
//   differs operands                                 the events are as demanded, and the walks tell different numbers of operands
//   differs header                                   all that is as demanded, and the header numbers differ
//   exchanged before=B first=F second=S behind=E     all is as demanded; how many events stand before the two blocks, in each of them, and behind
//
// `?` stands for the answer to a line that is no question. An empty line and one that begins with `#` are handed back as they stand. A line has 65,536
// bytes at most.
#![tactic(auto)]

mod compare;
mod exchanged;
mod judge;
mod plan;
mod scan;
mod side;

ghost use Rattle.std.specs.Prelude.{◌≤◌};

use judge::put_exchange;
use scan::{Question, question_on};
use side::{Outcome, Stores};
use text::feed::{Line, zeros};
use text::page::Page;
use text::scan::{MOST_SKIPS, is_asking};
use walk::Walked;

// What holds the longest line, 65,536 bytes, and the longest dump, 1,024 lines of at most 150 bytes and 8,192 operands of at most 21.
const MOST: usize = 393_216;

const ROOM: usize = 524_288;

// The answer to a question.
fn put_asked(page: &mut Page<'_>, q: Question<'_>, stores: &mut Stores) {
    stores.stain(q);
    let outcome = Outcome::of(q.input, q, stores);
    page.dump(Walked::from(outcome.told), outcome.events, outcome.operands);
    if outcome.is_zero_behind() {
        page.bytes(b"stores=zero\n");
    } else {
        page.bytes(b"stores=left\n");
    }
}

// The answer to a line that is neither empty nor a comment; the stores are lent for the walk of the input, the others for that of the exchanged input.
fn put_reply(page: &mut Page<'_>, line: &[u8], stores: &mut Stores, others: &mut Stores) {
    if let Some(words) = line.strip_prefix(b"exchange ") {
        return put_exchange(page, words, stores, others);
    }
    let mut list = [0u64; MOST_SKIPS];
    let mut bytes = io::buffer();
    match question_on(line, &mut list, &mut bytes) {
        None => page.bytes(b"?\n"),
        Some(q) => put_asked(page, q, stores),
    }
}

// The line, a line end, and its answer.
fn put_line(page: &mut Page<'_>, line: &[u8], stores: &mut Stores, others: &mut Stores) {
    page.bytes(line);
    page.byte(b'\n');
    if is_asking(line) {
        put_reply(page, line, stores, others);
    }
}

// Answers every line of the input.
fn answer_all(text: &mut [u8], page: &mut Page<'_>, stores: &mut Stores, others: &mut Stores) {
    let mut next = Line::first(text);
    while let Some(line) = next {
        let a = line.start;
        let e = line.end;
        page.make_room(MOST);
        put_line(page, &text[a..e], stores, others);
        next = line.behind(text);
    }
    page.flush();
}

fn main() {
    let mut text = io::large_buffer();
    let mut out = zeros::<ROOM>();
    let mut stores = Stores::new();
    let mut others = Stores::new();
    let mut page = Page::new(&mut out, 0);
    answer_all(&mut text, &mut page, &mut stores, &mut others);
}
