// The calls of the library that people link: the walk, the header, a blob's place and typed operands. `gleanrime_c` exports them to a program in C or
// Rust. Each call is total and asks nothing of its caller.
#![tactic(auto)]

ghost use Rattle.std.specs.Prelude.{◌≡◌, ◌^◌, ltb, pos, length};
ghost use Rattle.bitcode.specs.Header.{signature};
ghost use Rattle.bitcode.specs.Operands.{next_below, next_signed, next_range};
ghost use Rattle.walk.specs.Walk.{walked};
ghost use Rattle.walk.specs.Promises.{answer};
ghost use Rattle.gleanrime.specs.Told.{numbers, over};
ghost use Rattle.gleanrime.specs.Header.{six, header_status, header_numbers, stream_from, blob_size, blob_from};
ghost use Rattle.gleanrime.specs.Operands.{operand, status_of, value_or, no_range};

use bitcode::{LLVM_BITCODE_WRAPPER_MAGIC, Operands, Signature};
use terms::Reason;
use walk::{Walked, walk};

// How many numbers a walk returns.
const TOLD: usize = 12;

// How many numbers a header has.
const HEADER: usize = 6;

// What a walk returned, number by number: status, place and details; the header numbers; how many events and operands there are.
fn numbers_of(w: Walked) -> [u64; TOLD]
    ensures { result ≡ numbers w }
{
    let h = w.header;
    [
        w.status, w.place, w.first, w.second, h.magic, h.magic2, h.version, h.offset, h.size,
        h.cpu, w.events, w.operands,
    ]
}

// Copies numbers to the front of a store, as many as fit; what stands behind them stays.
fn put_front(from: &[u64], to: &mut [u64])
    ensures { to.new ≡ over from.now to.old }
{
    let n = from.len().min(to.len());
    for i in 0..n {
        to[i] = from[i];
    }
}

// The walk of an input, with the numbers of the blocks to skip and three stores lent. The third is for what the walk returned, as many numbers as fit
// of these: status, place, first, second, magic, magic2, version, offset, size, cpu, events, operands. Hands the status back too.
pub fn gleanrime_walk(
    input: &[u8],
    skip: &[u64],
    events: &mut [u64],
    operands: &mut [u64],
    told: &mut [u64],
) -> u64
    ensures status { result ≡ (walked input.now skip.now (length events.old) (length operands.old)).status }
    ensures events { events.new ≡ (walked input.now skip.now (length events.old) (length operands.old)).event_store }
    ensures operands { operands.new ≡ (walked input.now skip.now (length events.old) (length operands.old)).operand_store }
    ensures told { told.new ≡ over (numbers (answer (walked input.now skip.now (length events.old) (length operands.old)))) told.old }
{
    let w = Walked::from(walk(input, skip, events, operands));
    put_front(&numbers_of(w), told);
    w.status
}

// The header numbers, number by number.
fn six_of(h: Signature) -> [u64; HEADER]
    ensures { result ≡ six h }
{
    [h.magic, h.magic2, h.version, h.offset, h.size, h.cpu]
}

// The header of an input of any length. The store is for as many numbers as fit of these: magic, magic2, version, offset, size, cpu; zeros where the
// header is refused. Hands 0 back, or the refusal's number.
pub fn gleanrime_header(input: &[u8], told: &mut [u64]) -> u64
    ensures status { result ≡ header_status (signature input.now) }
    ensures told { told.new ≡ over (header_numbers (signature input.now)) told.old }
{
    match Signature::parse(input) {
        Err(reason) => {
            put_front(&[0; HEADER], told);
            reason.number()
        }
        Ok(h) => {
            put_front(&six_of(h), told);
            0
        }
    }
}

// The byte of the input at which the stream begins, behind its magic word; 0 where the header is refused.
fn stream_start(input: &[u8]) -> u64
    ensures { result ≡ stream_from (signature input.now) }
{
    match Signature::parse(input) {
        Err(_) => 0,
        Ok(h) if h.magic == LLVM_BITCODE_WRAPPER_MAGIC => h.offset + 4,
        Ok(_) => 4,
    }
}

// A blob, by the place and the length that its record's event tells: hands back how many bytes it has, and `from` is the byte of the input at which
// it begins. Both are 0 where the place and the length are not inside the stream.
pub fn gleanrime_blob(input: &[u8], place: u64, length: u64, from: &mut u64) -> u64
    ensures size { result ≡ blob_size input.now place length }
    ensures from { from.new ≡ blob_from input.now place length }
{
    *from = 0;
    let have = Signature::stream(input).len() as u64;
    if have < length || have - length < place {
        return 0;
    }
    *from = stream_start(input) + place;
    length
}

// Whether a number is below 2^bits. All are where there are 64 bits or more.
fn fits(v: u64, bits: u64) -> bool
    ensures { result ≡ ltb v (2 ^ bits) }
{
    64 <= bits || v < 1 << bits
}

// The operand at the place `first` of a store, where `count` are left in its record: it must be below 2^bits, so that 8, 16, 32 and 64 stand for u8
// to u64, and 1 for a bool. Hands 0 back, or the refusal's number, and then `value` is 0.
pub fn gleanrime_unsigned(
    operands: &[u64],
    first: u64,
    count: u64,
    bits: u64,
    value: &mut u64,
) -> u64
    ensures status { result ≡ status_of (operand (next_below bits) operands.now first count) }
    ensures value { value.new ≡ value_or 0 (operand (next_below bits) operands.now first count) }
{
    *value = 0;
    match Operands::new(first, count).u64(operands) {
        Ok((v, _)) if fits(v, bits) => {
            *value = v;
            0
        }
        Ok(_) => Reason::ValueOverflow.number(),
        Err(reason) => reason.number(),
    }
}

// The same for a signed number: the operand's lowest bit is its sign.
pub fn gleanrime_signed(operands: &[u64], first: u64, count: u64, value: &mut i64) -> u64
    ensures status { result ≡ status_of (operand next_signed operands.now first count) }
    ensures value { value.new ≡ value_or (pos 0) (operand next_signed operands.now first count) }
{
    *value = 0;
    match Operands::new(first, count).i64(operands) {
        Ok((n, _)) => {
            *value = n;
            0
        }
        Err(reason) => reason.number(),
    }
}

// The same for two operands, a start and a length: told as a start and an end, which is not part of it.
pub fn gleanrime_range(
    operands: &[u64],
    first: u64,
    count: u64,
    start: &mut u64,
    end: &mut u64,
) -> u64
    ensures status { result ≡ status_of (operand next_range operands.now first count) }
    ensures start { start.new ≡ (value_or no_range (operand next_range operands.now first count)).start }
    ensures end { end.new ≡ (value_or no_range (operand next_range operands.now first count)).end }
{
    *start = 0;
    *end = 0;
    match Operands::new(first, count).range(operands) {
        Ok((v, _)) => {
            *start = v.start;
            *end = v.end;
            0
        }
        Err(reason) => reason.number(),
    }
}
