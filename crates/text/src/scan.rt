// Words, numbers and bytes out of text.
ghost use Rattle.std.specs.Prelude.{◌+◌, ◌<◌, ◌≤◌, min, length, IfSome};

use crate::store::set_number;

// The most block numbers to skip that a question has.
pub const MOST_SKIPS: usize = 32;

// Whether a line asks anything: it is neither empty nor a comment.
pub fn is_asking(line: &[u8]) -> bool {
    !matches!(line, [] | [b'#', ..])
}

// The place of the next b from a place on, and the end where there is none.
pub fn find(s: &[u8], from: usize, b: u8) -> usize
    ensures { (min from (length s.now) ≤ result) × (result ≤ length s.now) }
{
    let Some(rest) = s.get(from..) else {
        return s.len();
    };
    match rest.iter().position(|letter| *letter == b) {
        Some(n) => from + n,
        None => s.len(),
    }
}

// The place of the next b behind a place, and the end where there is none.
pub fn find_behind(s: &[u8], at: usize, b: u8) -> usize
    ensures { (min (at + 1) (length s.now) ≤ result) × (result ≤ length s.now) }
{
    if s.len() <= at {
        return s.len();
    }
    find(s, at + 1, b)
}

// What stands before the first space of a line, and all of it where there is none.
pub fn word(line: &[u8]) -> &[u8] {
    &line[..find(line, 0, b' ')]
}

// What stands behind the first space, and nothing where there is none.
pub fn behind_word(line: &[u8]) -> &[u8] {
    let e = find(line, 0, b' ');
    if e < line.len() {
        return &line[e + 1..];
    }
    &line[0..0]
}

// A number with one more digit behind it, where that is a digit and 64 bits hold the whole.
fn with_digit(v: u64, letter: u8) -> Option<u64> {
    let digit = char::from(letter).to_digit(10)?;
    v.checked_mul(10)?.checked_add(u64::from(digit))
}

// The number that a word of decimal digits stands for.
pub fn decimal(word: &[u8]) -> Option<u64> {
    if word.is_empty() {
        return None;
    }
    word.iter().try_fold(0, |v, letter| with_digit(v, *letter))
}

// Decimal numbers with commas between them, into a list; and how many they are.
fn numbers(word: &[u8], list: &mut [u64]) -> Option<usize> {
    let mut n = 0;
    for number in word.split(|letter| *letter == b',') {
        set_number(list, n, decimal(number)?);
        n += 1;
    }
    Some(n)
}

// The numbers to skip, if the list holds them; `-` is none.
pub fn skips<'a>(word: &[u8], list: &'a mut [u64]) -> Option<&'a [u64]> {
    if matches!(word, [b'-']) {
        return Some(&[]);
    }
    let n = numbers(word, list)?;
    list.get(..n)
}

// What a hex digit stands for.
fn nibble(letter: u8) -> Option<u8>
    ensures { IfSome result (λ d. d < 16) }
{
    let digit = char::from(letter).to_digit(16)?;
    Some(digit as u8)
}

// The bytes that a word stands for, two hex digits a byte and `-` for none, if the buffer holds them.
pub fn hex<'a>(word: &[u8], bytes: &'a mut [u8]) -> Option<&'a [u8]> {
    if matches!(word, [b'-']) {
        return Some(&[]);
    }
    if word.is_empty() || word.len() % 2 != 0 || bytes.len() < word.len() / 2 {
        return None;
    }
    for (byte, pair) in bytes.iter_mut().zip(word.chunks_exact(2)) {
        *byte = nibble(pair[0])? * 16 + nibble(pair[1])?;
    }
    bytes.get(..word.len() / 2)
}
