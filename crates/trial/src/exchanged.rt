// An exchange, read off the words behind `exchange `: `I J K` and one space before the words of the other question; and the bytes exchanged.
ghost use Rattle.std.specs.Prelude.{◌≡◌, ◌≤◌, length, IfSome};
ghost use Rattle.exchange.specs.Input.{exchange};

use text::scan::decimal;

// The bytes of the input where the first block begins, where it ends and the second begins, and where the second ends.
#[derive(Clone, Copy)]
pub struct Places {
    pub first: usize,
    pub second: usize,
    pub end: usize,
}

// The exchange that some words ask for: its places, and the words of the other question.
pub fn exchange_on(words: &[u8]) -> Option<(Places, &[u8])> {
    let mut words = words.splitn(4, |letter| *letter == b' ');
    let places = Places {
        first: decimal(words.next()?)? as usize,
        second: decimal(words.next()?)? as usize,
        end: decimal(words.next()?)? as usize,
    };
    Some((places, words.next()?))
}

// Fills a buffer with the input whose blocks at these places are exchanged.
fn fill_exchanged(input: &[u8], p: Places, bytes: &mut [u8])
    requires { (p.first ≤ p.second) × (p.second ≤ p.end) × (p.end ≤ length input.now) × (length input.now ≡ length bytes.old) }
    ensures { bytes.new ≡ exchange p.first p.second p.end input.now }
{
    bytes.copy_from_slice(input);
    bytes[p.first..p.end].rotate_left(p.second - p.first);
}

// The exchanged input, in the front of a buffer, if the input has such places and the buffer holds it.
pub fn exchange_into<'a>(input: &[u8], p: Places, bytes: &'a mut [u8]) -> Option<&'a [u8]>
    ensures { IfSome result (λ filled. filled.now ≡ exchange p.first p.second p.end input.now) }
{
    if p.second < p.first || p.end < p.second || input.len() < p.end {
        return None;
    }
    let filled = bytes.get_mut(..input.len())?;
    fill_exchanged(input, p, filled);
    Some(filled)
}
