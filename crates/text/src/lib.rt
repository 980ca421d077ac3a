// Text onto a page, which is a lent buffer, and numbers out of text. Each call is total and asks nothing of its caller.
//
//   page        a page; bytes, numbers in decimal and hex, lists of numbers
//   feed        standard input line by line, pages to standard output
//   lines       the lines of the dump
//   scan        the place of a letter, words, decimal and hex digits, lists of numbers
//   store       stores of numbers
#![tactic(auto)]

pub mod feed;
pub mod lines;
pub mod page;
pub mod scan;
pub mod store;

ghost use Rattle.std.specs.Prelude.{◌≡◌, take};
ghost use Rattle.text.specs.Text.{Tells};

// The first n bytes, and all where there are fewer.
pub fn front(s: &[u8], n: usize) -> &[u8]
    ensures { result.now ≡ take n s.now }
{
    &s[..n.min(s.len())]
}

// Whether two texts are the same.
pub fn same_bytes(a: &[u8], b: &[u8]) -> bool
    ensures { Tells result a.now b.now }
{
    a == b
}
