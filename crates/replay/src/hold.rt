// An answer of the list held against ours.
ghost use Rattle.std.specs.Prelude.{length};
ghost use Rattle.text.specs.Text.{Puts};
ghost use Rattle.replay.specs.Answer.{answered, Holds};

use crate::answer::put_answer;
use text::page::Page;
use text::{front, same_bytes};
use walk::{Walked, walk};

// How much of its buffer our answer takes, and whether the list has the same.
#[derive(Clone, Copy)]
pub struct Verdict {
    pub fill: usize,
    pub same: bool,
}

// Walks an input and puts our answer into a buffer; tells how much of the buffer is in use.
fn put_ours(
    ours: &mut [u8],
    input: &[u8],
    skip: &[u64],
    events: &mut [u64],
    operands: &mut [u64],
) -> usize
    ensures { Puts ours.old ours.new 0 result (answered input.now skip.now (length events.old) (length operands.old)) }
{
    let w = Walked::from(walk(input, skip, events, operands));
    let mut page = Page::new(ours, 0);
    put_answer(&mut page, w, events, operands, input);
    page.fill
}

// Walks an input, puts our answer into a buffer, and tells whether the list's answer is the same. One of ours that fills the buffer may be cut, and is
// the same as none; a shorter one is the definition's, whole.
pub fn held(
    answer: &[u8],
    ours: &mut [u8],
    input: &[u8],
    skip: &[u64],
    events: &mut [u64],
    operands: &mut [u64],
) -> Verdict
    ensures ours { Puts ours.old ours.new 0 result.fill (answered input.now skip.now (length events.old) (length operands.old)) }
    ensures same { Holds result.same (length ours.old) answer.now (answered input.now skip.now (length events.old) (length operands.old)) }
{
    let fill = put_ours(ours, input, skip, events, operands);
    let same = fill != ours.len() && same_bytes(front(ours, fill), answer);
    Verdict { fill, same }
}
