// The library that people link, for a program in C or Rust to call: an export for each call of `gleanrime`, with its promises. A slice is handed over
// as a pointer and a length, and a lent number as a pointer. Each call is total and asks nothing of its caller.
#![tactic(auto)]

ghost use Rattle.std.specs.Prelude.{◌≡◌, ◌^◌, ltb, pos, length};
ghost use Rattle.bitcode.specs.Header.{signature};
ghost use Rattle.bitcode.specs.Operands.{next_below, next_signed, next_range};
ghost use Rattle.walk.specs.Walk.{walked};
ghost use Rattle.walk.specs.Promises.{answer};
ghost use Rattle.gleanrime.specs.Told.{numbers, over};
ghost use Rattle.gleanrime.specs.Header.{six, header_status, header_numbers, stream_from, blob_size, blob_from};
ghost use Rattle.gleanrime.specs.Operands.{operand, status_of, value_or, no_range};

// The walk of an input, with the numbers of the blocks to skip and three stores lent. The third is for what the walk returned, as many numbers as fit
// of these: status, place, first, second, magic, magic2, version, offset, size, cpu, events, operands. Hands the status back too.
#[unsafe(no_mangle)]
pub extern "C" fn gleanrime_walk(
    input: &[u8],
    skip: &[u64],
    events: &mut [u64],
    operands: &mut [u64],
    told: &mut [u64],
) -> u64
    ensures status { result ≡ (walked input.now skip.now (length events.old) (length operands.old)).status }
    ensures events { events.new ≡ (walked input.now skip.now (length events.old) (length operands.old)).event_store }
    ensures operands { operands.new ≡ (walked input.now skip.now (length events.old) (length operands.old)).operand_store }
    ensures told { told.new ≡ over (numbers (answer (walked input.now skip.now (length events.old) (length operands.old)))) told.old }
{
    gleanrime::gleanrime_walk(input, skip, events, operands, told)
}

// The header of an input of any length. The store is for as many numbers as fit of these: magic, magic2, version, offset, size, cpu; zeros where the
// header is refused. Hands 0 back, or the refusal's number.
#[unsafe(no_mangle)]
pub extern "C" fn gleanrime_header(input: &[u8], told: &mut [u64]) -> u64
    ensures status { result ≡ header_status (signature input.now) }
    ensures told { told.new ≡ over (header_numbers (signature input.now)) told.old }
{
    gleanrime::gleanrime_header(input, told)
}

// A blob, by the place and the length that its record's event tells: hands back how many bytes it has, and `from` is the byte of the input at which
// it begins. Both are 0 where the place and the length are not inside the stream.
#[unsafe(no_mangle)]
pub extern "C" fn gleanrime_blob(input: &[u8], place: u64, length: u64, from: &mut u64) -> u64
    ensures size { result ≡ blob_size input.now place length }
    ensures from { from.new ≡ blob_from input.now place length }
{
    gleanrime::gleanrime_blob(input, place, length, from)
}

// The operand at the place `first` of a store, where `count` are left in its record: it must be below 2^bits, so that 8, 16, 32 and 64 stand for u8
// to u64, and 1 for a bool. Hands 0 back, or the refusal's number, and then `value` is 0.
#[unsafe(no_mangle)]
pub extern "C" fn gleanrime_unsigned(
    operands: &[u64],
    first: u64,
    count: u64,
    bits: u64,
    value: &mut u64,
) -> u64
    ensures status { result ≡ status_of (operand (next_below bits) operands.now first count) }
    ensures value { value.new ≡ value_or 0 (operand (next_below bits) operands.now first count) }
{
    gleanrime::gleanrime_unsigned(operands, first, count, bits, value)
}

// The same for a signed number: the operand's lowest bit is its sign.
#[unsafe(no_mangle)]
pub extern "C" fn gleanrime_signed(operands: &[u64], first: u64, count: u64, value: &mut i64) -> u64
    ensures status { result ≡ status_of (operand next_signed operands.now first count) }
    ensures value { value.new ≡ value_or (pos 0) (operand next_signed operands.now first count) }
{
    gleanrime::gleanrime_signed(operands, first, count, value)
}

// The same for two operands, a start and a length: told as a start and an end, which is not part of it.
#[unsafe(no_mangle)]
pub extern "C" fn gleanrime_range(
    operands: &[u64],
    first: u64,
    count: u64,
    start: &mut u64,
    end: &mut u64,
) -> u64
    ensures status { result ≡ status_of (operand next_range operands.now first count) }
    ensures start { start.new ≡ (value_or no_range (operand next_range operands.now first count)).start }
    ensures end { end.new ≡ (value_or no_range (operand next_range operands.now first count)).end }
{
    gleanrime::gleanrime_range(operands, first, count, start, end)
}
