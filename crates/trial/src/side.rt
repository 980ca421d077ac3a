// A walk that was made: what it told, and what it left in its stores; one that accepted, with its input; and an event of it.
use crate::scan::{Question, STORE};
use bitcode::{LLVM_BITCODE_WRAPPER_MAGIC, blob};
use std::ops::Range;
use terms::{EVENT_SIZE, Refused};
use text::store::{entry, numbers_of};
use walk::{ARRAY, Accepted, BLOB, CHAR6, ENTER, RECORD, SKIP, walk};

// The two stores that walks fill, one walk after another. Before the first, they hold a number all over that no walk is to leave behind.
#[derive(Drop)]
pub struct Stores {
    events: [u64; STORE],
    operands: [u64; STORE],
}

// A walk that was made: what it told, and what it left in its stores.
#[derive(Clone, Copy)]
pub struct Outcome<'a> {
    pub told: Result<Accepted, Refused>,
    pub events: &'a [u64],
    pub operands: &'a [u64],
}

// A walk that accepted, with its input.
#[derive(Clone, Copy)]
pub struct Side<'a> {
    input: &'a [u8],
    pub told: Accepted,
    events: &'a [u64],
    operands: &'a [u64],
}

// An event: its eight numbers, and what a record's places point into.
#[derive(Clone, Copy)]
pub struct Event<'a> {
    pub numbers: [u64; EVENT_SIZE],
    operands: &'a [u64],
    input: &'a [u8],
}

// Whether a store is zero all over.
fn is_zero(store: &[u64]) -> bool {
    store.iter().all(|number| *number == 0)
}

impl Stores {
    pub fn new() -> Self {
        Stores {
            events: [u64::MAX; STORE],
            operands: [u64::MAX; STORE],
        }
    }

    // Puts a number that no walk is to leave behind all over what a question asks for.
    pub fn stain(&mut self, q: Question<'_>) {
        self.events[..q.events].fill(u64::MAX);
        self.operands[..q.operands].fill(u64::MAX);
    }
}

impl<'a> Outcome<'a> {
    // The walk of an input, with the numbers to skip and the sizes of the stores that a question tells.
    pub fn of(input: &[u8], q: Question<'_>, stores: &'a mut Stores) -> Self {
        let (events, operands) = (&mut stores.events, &mut stores.operands);
        let events = &mut events[..q.events];
        let operands = &mut operands[..q.operands];
        let told = walk(input, q.skip, events, operands);
        Outcome {
            told,
            events,
            operands,
        }
    }

    // Whether the stores are zero behind what the walk says that they hold, and for a refusal all over.
    pub fn is_zero_behind(self) -> bool {
        let (shown, held) = match self.told {
            Ok(told) => (told.events as usize, told.operands as usize),
            Err(_) => (0, 0),
        };
        let shown = shown.min(self.events.len() / EVENT_SIZE);
        let held = held.min(self.operands.len());
        is_zero(&self.events[shown * EVENT_SIZE..]) && is_zero(&self.operands[held..])
    }
}

impl<'a> Side<'a> {
    // The walk of an input as a question tells, if it accepts.
    pub fn of(input: &'a [u8], q: Question<'_>, stores: &'a mut Stores) -> Result<Self, Refused> {
        let outcome = Outcome::of(input, q, stores);
        Ok(Side {
            input,
            told: outcome.told?,
            events: outcome.events,
            operands: outcome.operands,
        })
    }

    // The event x, and zeros where there is none.
    pub fn event(self, x: u64) -> Event<'a> {
        let numbers = entry(self.events, x).first_chunk().copied();
        Event {
            numbers: numbers.unwrap_or([0; EVENT_SIZE]),
            operands: self.operands,
            input: self.input,
        }
    }

    // The byte of the input where the stream begins: behind the magic word, and in a wrapper behind the first word of what it holds.
    fn base(self) -> u64 {
        if self.told.header.magic == LLVM_BITCODE_WRAPPER_MAGIC {
            return self.told.header.offset.saturating_add(4);
        }
        4
    }

    // Whether the event x opens the block that has these bytes of the input: it tells of a body that begins behind the first one and ends at their end.
    pub fn opens(self, x: u64, bytes: &Range<u64>) -> bool {
        let event = self.event(x);
        let start = self.base().saturating_add(event.numbers[3]);
        matches!(event.kind(), ENTER | SKIP)
            && bytes.start < start
            && start.saturating_add(event.numbers[4]) == bytes.end
    }
}

impl<'a> Event<'a> {
    pub fn kind(self) -> u64 {
        self.numbers[0]
    }

    // The kind of a record's payload.
    pub fn payload(self) -> u64 {
        self.numbers[5]
    }

    fn operands(self) -> &'a [u64] {
        numbers_of(self.operands, self.numbers[3], self.numbers[4])
    }

    // The elements of a record's payload that has some.
    fn elements(self) -> &'a [u64] {
        numbers_of(self.operands, self.numbers[6], self.numbers[7])
    }

    // The bytes of a record's payload that is a blob.
    fn blob(self) -> &'a [u8] {
        blob(self.input, self.numbers[6], self.numbers[7])
    }

    // How many numbers of the operand store an event has.
    pub fn held(self) -> u64 {
        if self.kind() != RECORD {
            return 0;
        }
        match self.payload() {
            ARRAY | CHAR6 => self.numbers[4].saturating_add(self.numbers[7]),
            _ => self.numbers[4],
        }
    }

    // Whether another event, if this one is a record, has the same operands and, where its payload has elements or is a blob, the same of these.
    pub fn has_contents_of(self, other: Event<'_>) -> bool {
        if self.kind() != RECORD {
            return true;
        }
        let is_payload = match self.payload() {
            ARRAY | CHAR6 => self.elements() == other.elements(),
            BLOB => self.blob() == other.blob(),
            _ => true,
        };
        is_payload && self.operands() == other.operands()
    }
}
