// A question, read off its line: `SKIPS EVENTS OPERANDS BYTES`, one space between.
ghost use Rattle.std.specs.Prelude.{◌≤◌, IfSome};
ghost use Rattle.trial.specs.declared.scan.TheConstants.{STORE};

use text::scan::{decimal, hex, skips};

// The most numbers that a store has.
pub const STORE: usize = 8_192;

// The block numbers to skip, how many numbers each store has, and the input.
#[derive(Clone, Copy)]
pub struct Question<'a> {
    pub skip: &'a [u64],
    pub events: usize,
    pub operands: usize,
    pub input: &'a [u8],
    ghost fits: { (events ≤ STORE) × (operands ≤ STORE) },
}

// The size of a store.
fn size(word: &[u8]) -> Option<usize>
    ensures { IfSome result (λ n. n ≤ STORE) }
{
    let n = decimal(word)? as usize;
    if n <= STORE { Some(n) } else { None }
}

// The question on a line: the numbers to skip go into the list, the input into the bytes.
pub fn question_on<'a>(
    line: &[u8],
    list: &'a mut [u64],
    bytes: &'a mut [u8],
) -> Option<Question<'a>> {
    let mut words = line.splitn(4, |letter| *letter == b' ');
    Some(Question {
        skip: skips(words.next()?, list)?,
        events: size(words.next()?)?,
        operands: size(words.next()?)?,
        input: hex(words.next()?, bytes)?,
    })
}
