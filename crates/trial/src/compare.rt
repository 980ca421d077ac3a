// Whether an event of the exchanged input is an event of the input, moved as demand 3 says.
use crate::plan::Block;
use crate::side::{Event, Side};
use terms::EVENT_SIZE;
use walk::{ARRAY, BLOB, CHAR6, ENTER, RECORD, SKIP};

#[derive(Clone, Copy)]
pub enum Direction {
    Down,
    Up,
}

// What an event is to be: an event of the input, whose byte places and operand places are moved by what a block has.
#[derive(Clone, Copy)]
pub struct Demand {
    pub event: u64,
    pub by: Block,
    pub direction: Direction,
}

impl Demand {
    // An event of the input as it stands.
    pub fn unmoved(event: u64) -> Self {
        Demand {
            event,
            by: Block::default(),
            direction: Direction::Up,
        }
    }

    // By how much the place of a payload moves.
    fn payload_distance(self, kind: u64) -> u64 {
        match kind {
            ARRAY | CHAR6 => self.by.operands,
            BLOB => self.by.bytes,
            _ => 0,
        }
    }

    // A place, moved so far; None where 64 bits do not hold it.
    fn moved(self, place: u64, distance: u64) -> Option<u64> {
        match self.direction {
            Direction::Down => place.checked_sub(distance),
            Direction::Up => place.checked_add(distance),
        }
    }

    // What the numbers of an event are to be: the place of a block's body moves, and in a record the places of its operands and of its payload.
    fn numbers(self, event: Event<'_>) -> Option<[u64; EVENT_SIZE]> {
        let mut numbers = event.numbers;
        match event.kind() {
            ENTER | SKIP => numbers[3] = self.moved(numbers[3], self.by.bytes)?,
            RECORD => {
                numbers[3] = self.moved(numbers[3], self.by.operands)?;
                numbers[6] = self.moved(numbers[6], self.payload_distance(event.payload()))?;
            }
            _ => {}
        }
        Some(numbers)
    }

    // Whether an event of the exchanged input is as demanded: its eight numbers are those of the old one, moved, and what a record has is the same.
    pub fn is_met(self, was: Side<'_>, new: Event<'_>) -> bool {
        let old = was.event(self.event);
        self.numbers(old) == Some(new.numbers) && old.has_contents_of(new)
    }
}
