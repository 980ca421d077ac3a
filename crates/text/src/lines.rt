// The lines of the dump, by 01's sample. What lies outside the stores is left out.
ghost use Rattle.std.specs.Prelude.{◌≡◌, ◌++◌, length};
ghost use Rattle.text.specs.Text.{word};
ghost use Rattle.text.specs.Page.{Writes};
ghost use Rattle.text.specs.Dump.{status_line, fields, signature, front, kind as kind_of, head, body, listed, payload, record_text, rest, event_line, event_lines, shown as shown_of, dump};

use crate::page::Page;
use crate::store::{entry, number_at, numbers_of};
use bitcode::Signature;
use terms::EVENT_SIZE;
use walk::{ARRAY, BLOB, CHAR6, ENTER, LEAVE, NO_PAYLOAD, RECORD, SKIP, Walked};

// How many events are shown: as many as are told of, if the store holds them.
pub fn shown(told: u64, size: usize) -> usize
    ensures { result ≡ shown_of told size }
{
    told.min((size / EVENT_SIZE) as u64) as usize
}

impl Page<'_> {
    // The first line: `status=0 place=0 first=0 second=0`.
    pub fn status(&mut self, w: Walked)
        ensures { Writes self.old self.new (status_line w) }
    {
        self.named(b"status=", w.status);
        self.named(b" place=", w.place);
        self.named(b" first=", w.first);
        self.named(b" second=", w.second);
        self.byte(b'\n');
    }

    // A name with its `=`, and a word in hex.
    fn magic(&mut self, name: &[u8], v: u64)
        ensures { Writes self.old self.new (name.now ++ word v) }
    {
        self.bytes(name);
        self.word(v);
    }

    // The header numbers between the two magic words.
    fn fields(&mut self, h: Signature)
        ensures { Writes self.old self.new (fields h) }
    {
        self.named(b" version=", h.version);
        self.named(b" offset=", h.offset);
        self.named(b" size=", h.size);
        self.named(b" cpu=", h.cpu);
    }

    // The header numbers, as the second line has them; no line end.
    pub fn signature(&mut self, h: Signature)
        ensures { Writes self.old self.new (signature h) }
    {
        self.magic(b"magic=", h.magic);
        self.fields(h);
        self.magic(b" magic2=", h.magic2);
    }

    // The second and the third line: the header, and how many events there are.
    fn front(&mut self, w: Walked)
        ensures { Writes self.old self.new (front w) }
    {
        self.signature(w.header);
        self.named(b"\nevents=", w.events);
        self.byte(b'\n');
    }

    fn kind(&mut self, kind: u64)
        ensures { Writes self.old self.new (kind_of kind) }
    {
        match kind {
            ENTER => self.bytes(b"enter"),
            LEAVE => self.bytes(b"leave"),
            RECORD => self.bytes(b"record"),
            SKIP => self.bytes(b"skip"),
            _ => self.decimal(kind),
        }
    }

    // What each event's line begins with; e has the event's numbers, here and below.
    fn head(&mut self, i: u64, e: &[u64])
        ensures { Writes self.old self.new (head i e.now) }
    {
        self.named(b"event=", i);
        self.bytes(b" kind=");
        self.kind(number_at(e, 0));
        self.named(b" block=", number_at(e, 1));
    }

    // What a block's head says beside its number.
    fn body(&mut self, e: &[u64])
        ensures { Writes self.old self.new (body e.now) }
    {
        self.named(b" width=", number_at(e, 2));
        self.named(b" start=", number_at(e, 3));
        self.named(b" length=", number_at(e, 4));
    }

    // A list of numbers, and `-` for none, behind its name.
    fn list(&mut self, name: &[u8], numbers: &[u64])
        ensures { Writes self.old self.new (name.now ++ listed numbers.now) }
    {
        self.bytes(name);
        if numbers.is_empty() {
            self.byte(b'-');
        }
        self.numbers(numbers);
    }

    fn payload(&mut self, kind: u64, place: u64, count: u64, operands: &[u64])
        ensures { Writes self.old self.new (payload kind place count operands.now) }
    {
        match kind {
            NO_PAYLOAD => self.bytes(b"none"),
            ARRAY => self.list(b"array:", numbers_of(operands, place, count)),
            CHAR6 => self.list(b"char6:", numbers_of(operands, place, count)),
            BLOB => {
                self.named(b"blob:", place);
                self.named(b",", count);
            }
            _ => self.decimal(kind),
        }
    }

    // What a record has behind its block number.
    fn record(&mut self, e: &[u64], operands: &[u64])
        ensures { Writes self.old self.new (record_text e.now operands.now) }
    {
        self.named(b" code=", number_at(e, 2));
        let values = numbers_of(operands, number_at(e, 3), number_at(e, 4));
        self.list(b" operands=", values);
        self.bytes(b" payload=");
        self.payload(number_at(e, 5), number_at(e, 6), number_at(e, 7), operands);
    }

    // What an event of a kind has behind its block number.
    fn rest(&mut self, kind: u64, e: &[u64], operands: &[u64])
        ensures { Writes self.old self.new (rest kind e.now operands.now) }
    {
        match kind {
            ENTER => self.body(e),
            SKIP => self.body(e),
            RECORD => self.record(e, operands),
            _ => {}
        }
    }

    // The line of an event.
    pub fn event(&mut self, i: u64, e: &[u64], operands: &[u64])
        ensures { Writes self.old self.new (event_line i e.now operands.now) }
    {
        self.head(i, e);
        self.rest(number_at(e, 0), e, operands);
        self.byte(b'\n');
    }

    // The lines of the events.
    fn events(&mut self, told: u64, events: &[u64], operands: &[u64])
        ensures { Writes self.old self.new (event_lines (shown_of told (length events.now)) events.now operands.now) }
    {
        for i in 0..shown(told, events.len()) {
            self.event(i as u64, entry(events, i as u64), operands);
        }
    }

    // The dump of what a walk returned and of its stores: a refusal has its first line only.
    pub fn dump(&mut self, w: Walked, events: &[u64], operands: &[u64])
        ensures { Writes self.old self.new (dump w events.now operands.now) }
    {
        self.status(w);
        if w.status == 0 {
            self.front(w);
            self.events(w.events, events, operands);
        }
    }
}
