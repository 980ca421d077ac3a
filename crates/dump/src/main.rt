// Reads a log from standard input, walks it, and prints the outcome: status, header and events, as 01's sample has them. Of the input 65,536 bytes are
// taken; a longer one is refused with 15.
#![tactic(auto)]

ghost use Rattle.std.specs.Prelude.{◌≡◌};
ghost use Rattle.text.specs.Text.{Puts};
ghost use Rattle.dump.specs.Dumped.{too_long, dumped};

use terms::Reason;
use text::feed::{STDIN_FILENO, STDOUT_FILENO, zeros};
use text::front;
use text::page::Page;
use walk::{Walked, walk};

// The most bytes that are taken, and the buffer that holds one more: so a longer input is known for one.
const MOST: usize = 65_536;

const INPUT: usize = 65_537;

// The numbers of each of the two stores that are lent.
const STORE: usize = 8_192;

// What holds every dump (proofs/Room.antt): 1,024 events have lines of at most 178 bytes without their lists, and 8,192 operands take 22 bytes each.
const ROOM: usize = 524_288;

// What is said of an input that is too long.
fn too_long() -> Walked
    ensures { result ≡ too_long }
{
    Walked::from(Err(Reason::InputTooLong.at(0)))
}

// The dump of an input, into a buffer; tells how much of the buffer is in use.
fn put_input(input: &[u8], out: &mut [u8]) -> usize
    ensures { Puts out.old out.new 0 result (dumped input.now) }
{
    let mut page = Page::new(out, 0);
    if MOST < input.len() {
        page.status(too_long());
        return page.fill;
    }
    let none = [0u64; 1];
    let mut events = [0u64; STORE];
    let mut operands = [0u64; STORE];
    let w = Walked::from(walk(input, &none[0..0], &mut events, &mut operands));
    page.dump(w, &events, &operands);
    page.fill
}

fn main() {
    let mut input = zeros::<INPUT>();
    let mut out = zeros::<ROOM>();
    let n = io::read_full(STDIN_FILENO, &mut input);
    let fill = put_input(&input[..n], &mut out);
    io::write_all(STDOUT_FILENO, front(&out, fill));
}
