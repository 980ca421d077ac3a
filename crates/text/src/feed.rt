// Standard input line by line, and pages to standard output, each through a lent buffer.
ghost use Rattle.std.specs.Prelude.{◌≡◌, ◌+◌, ◌<◌, ◌≤◌, length, slice_index, EachIndex, IfSome};
ghost use Rattle.text.specs.Page.{Keeps};

use crate::front;
use crate::page::Page;
use crate::scan::find;

// Standard input's and standard output's descriptors.
pub const STDIN_FILENO: i32 = 0;

pub const STDOUT_FILENO: i32 = 1;

// The most lines that are taken.
const MOST_LINES: u64 = 4_294_967_296;

// A buffer of zeros, to lend.
pub fn zeros<const N: usize>() -> [u8; N]
    ensures size { length result ≡ N }
    ensures zero { EachIndex result (λ k. slice_index result k ≡ 0) }
{
    [0; N]
}

// A line of the input: where it starts and ends in the buffer, its line end left out; where the next one starts and where what is read ends; and how many
// lines there may be behind it.
#[derive(Clone, Copy)]
pub struct Line {
    pub start: usize,
    pub end: usize,
    pub next: usize,
    pub filled: usize,
    pub left: u64,
}

// Moves what lies from one place to another to the front; tells how much that is.
fn to_front(text: &mut [u8], from: usize, end: usize) -> usize
    requires { end ≤ length text.old }
    ensures { result ≤ end }
{
    if from < end {
        text.copy_within(from..end, 0);
    }
    end.saturating_sub(from)
}

// Reads behind the first n bytes; tells where what is read ends.
fn read_behind(text: &mut [u8], n: usize) -> usize
    requires { n ≤ length text.old }
    ensures { (n ≤ result) × (result ≤ length text.new) }
{
    n + io::read_full(STDIN_FILENO, &mut text[n..])
}

// The next line where what is left of the text, from one place to another, has no line end: more is read behind it. What has no line end still is a line,
// if it is not empty: it fills the buffer, or the input ends.
fn read_line(text: &mut [u8], from: usize, end: usize, left: u64) -> Option<Line>
    requires { end ≤ length text.old }
    ensures { IfSome result (λ line. (line.start ≤ line.end) × (line.end ≤ length text.new) × (line.left ≡ left)) }
{
    let kept = to_front(text, from, end);
    let filled = read_behind(text, kept);
    if filled == 0 {
        return None;
    }
    let e = find(&text[..filled], kept, b'\n');
    Some(Line {
        start: 0,
        end: e,
        next: e + 1,
        filled,
        left,
    })
}

impl Line {
    // The first line, if there is one.
    pub fn first(text: &mut [u8]) -> Option<Self>
        ensures { IfSome result (λ line. (line.start ≤ line.end) × (line.end ≤ length text.new)) }
    {
        read_line(text, 0, 0, MOST_LINES - 1)
    }

    // The line behind this one, if there is one.
    pub fn behind(self, text: &mut [u8]) -> Option<Self>
        ensures { IfSome result (λ line. (line.start ≤ line.end) × (line.end ≤ length text.new) × (line.left < self.left)) }
    {
        let left = self.left.checked_sub(1)?;
        let known = front(text, self.filled);
        let n = known.len();
        let e = find(known, self.next, b'\n');
        if n <= e {
            return read_line(text, self.next, n, left);
        }
        Some(Line {
            start: self.next,
            end: e,
            next: e + 1,
            filled: n,
            left,
        })
    }
}

// Writes out what is in use of a buffer, and tells what is in use then: nothing.
pub fn flush(out: &[u8], fill: usize) -> usize
    ensures { result ≡ 0 }
{
    io::write_all(STDOUT_FILENO, front(out, fill));
    0
}

// Writes a buffer out that has no room for so much more, and tells what is in use then.
pub fn made_room(out: &[u8], fill: usize, more: usize) -> usize
    ensures { more ≤ length out.now → result + more ≤ length out.now }
{
    if fill <= out.len() && more <= out.len() - fill {
        return fill;
    }
    flush(out, fill)
}

impl Page<'_> {
    // Writes out what is in use, and nothing is in use then.
    pub fn flush(&mut self)
        ensures buffer { Keeps self.old self.new }
        ensures fill { self.new.fill ≡ 0 }
    {
        let fill = self.fill;
        self.fill = flush(self.buffer(), fill);
    }

    // Writes out what is in use where there is no room for so much more.
    pub fn make_room(&mut self, more: usize)
        ensures buffer { Keeps self.old self.new }
        ensures room { more ≤ length self.old.bytes.now → self.new.fill + more ≤ length self.old.bytes.now }
    {
        let fill = self.fill;
        self.fill = made_room(self.buffer(), fill, more);
    }
}
