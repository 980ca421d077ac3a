// The walk's answer in the notation of the list. What lies outside the stores is left out.
ghost use Rattle.std.specs.Prelude.{◌++◌, length, get_or};
ghost use Rattle.text.specs.Text.{items, pairs};
ghost use Rattle.text.specs.Page.{Writes};
ghost use Rattle.text.specs.Dump.{named, shown as shown_of};
ghost use Rattle.replay.specs.Answer.{refused, header, behind_commas, payload, record_text, event_text, event_texts, answer_text};

use bitcode::{Signature, blob};
use text::lines::shown;
use text::page::Page;
use text::store::{entry, number_at, numbers_of};
use walk::{ARRAY, BLOB, CHAR6, ENTER, LEAVE, RECORD, SKIP, Walked};

// The number of a refusal, and its details.
fn put_refused(page: &mut Page, w: Walked)
    ensures { Writes page.old page.new (refused w) }
{
    page.decimal(w.status);
    page.named(b" ", w.first);
    page.named(b" ", w.second);
}

// 0 and the header numbers.
fn put_header(page: &mut Page, h: Signature)
    ensures { Writes page.old page.new (header h) }
{
    page.named(b"0 ", h.magic);
    page.named(b" ", h.magic2);
    page.named(b" ", h.version);
    page.named(b" ", h.offset);
    page.named(b" ", h.size);
    page.named(b" ", h.cpu);
}

// Numbers, each behind a comma.
fn put_behind_commas(page: &mut Page, numbers: &[u64])
    ensures { Writes page.old page.new (behind_commas numbers.now) }
{
    for v in numbers {
        page.named(b",", *v);
    }
}

// A letter, and numbers with commas between them.
fn put_elements(page: &mut Page, letter: &[u8], numbers: &[u64])
    ensures { Writes page.old page.new (letter.now ++ items 0 numbers.now) }
{
    page.bytes(letter);
    page.numbers(numbers);
}

fn put_payload(page: &mut Page, kind: u64, place: u64, count: u64, operands: &[u64], input: &[u8])
    ensures { Writes page.old page.new (payload kind place count operands.now input.now) }
{
    match kind {
        ARRAY => put_elements(page, b"a", numbers_of(operands, place, count)),
        CHAR6 => put_elements(page, b"c", numbers_of(operands, place, count)),
        BLOB => {
            page.byte(b'b');
            page.pairs(blob(input, place, count));
        }
        _ => {}
    }
}

// A record; e has the event's numbers, here and below.
fn put_record(page: &mut Page, e: &[u64], operands: &[u64], input: &[u8])
    ensures { Writes page.old page.new (record_text e.now operands.now input.now) }
{
    page.named(b" =", number_at(e, 1));
    page.named(b",", number_at(e, 2));
    let values = numbers_of(operands, number_at(e, 3), number_at(e, 4));
    put_behind_commas(page, values);
    put_payload(
        page,
        number_at(e, 5),
        number_at(e, 6),
        number_at(e, 7),
        operands,
        input,
    );
}

// The head of a block that is entered.
fn put_enter(page: &mut Page, e: &[u64])
    ensures { Writes page.old page.new (named " +" (get_or e.now 1 0) ++ named "/" (get_or e.now 2 0)) }
{
    page.named(b" +", number_at(e, 1));
    page.named(b"/", number_at(e, 2));
}

// An event of a kind.
fn put_event(page: &mut Page, kind: u64, e: &[u64], operands: &[u64], input: &[u8])
    ensures { Writes page.old page.new (event_text kind e.now operands.now input.now) }
{
    match kind {
        ENTER => put_enter(page, e),
        LEAVE => page.named(b" -", number_at(e, 1)),
        RECORD => put_record(page, e, operands, input),
        SKIP => page.named(b" ~", number_at(e, 1)),
        _ => {}
    }
}

// The events that are told of, if the store holds them.
fn put_events(page: &mut Page, told: u64, events: &[u64], operands: &[u64], input: &[u8])
    ensures { Writes page.old page.new (event_texts (shown_of told (length events.now)) events.now operands.now input.now) }
{
    for i in 0..shown(told, events.len()) {
        let e = entry(events, i as u64);
        put_event(page, number_at(e, 0), e, operands, input);
    }
}

// What a walk told of an input, with the stores that it filled.
pub fn put_answer(page: &mut Page, w: Walked, events: &[u64], operands: &[u64], input: &[u8])
    ensures { Writes page.old page.new (answer_text w events.now operands.now input.now) }
{
    if w.status == 0 {
        put_header(page, w.header);
        put_events(page, w.events, events, operands, input);
    } else {
        put_refused(page, w);
    }
}
